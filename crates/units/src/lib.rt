// The three units of the format, kept apart, with the named conversions between them; and the four numbers of an answer.
#![tactic(auto)]

ghost use Rattle.std.specs.Prelude.{◌≡◌, ◌+◌, ◌*◌, ◌/◌, ◌^◌, ◌<◌};
ghost use Rattle.units.specs.Units.{bytes_of_words, words_of_bytes, lines_of_cards, words_of_cards, lines_of_fields, columns_of_fields, ends_of_lines};
ghost use Rattle.units.specs.Answers.{answer, fitted, packed_of};
ghost use Rattle.units.specs.declared.Unwritten.TheVariants.{Refused};

mod numbered;

pub use crate::numbered::{Numbered, written};

// A count of 16-bit words, as LTOT of a binary record.
#[derive(Clone, Copy)]
pub struct Words(pub usize);

// A count of lines, as LTOT of a record in character form.
#[derive(Clone, Copy)]
pub struct Lines(pub usize);

// A count of bytes, as the length of a buffer.
#[derive(Clone, Copy)]
pub struct Bytes(pub usize);

// The four numbers of an answer.
#[derive(Clone, Copy)]
pub struct Answer {
    pub n: u8,
    pub a: u32,
    pub b: u16,
    pub c: u16,
}

// Why a conversion writes nothing: what it converts is refused, or the output is shorter than these bytes.
#[derive(Clone, Copy)]
pub enum Unwritten<R> {
    Refused(R),
    Short(Bytes),
}

impl<R> From<R> for Unwritten<R> {
    ghost from_gives = { λ r u. u ≡ Refused r };

    fn from(r: R) -> Unwritten<R> {
        Unwritten::Refused(r)
    }
}

// Kept: the conversions that document 01 names, also where two differ only in the unit: by the project's rule the units stay apart (specs/Units.antt).

// The bytes that `w` words take.
pub fn bytes_of_words(w: Words) -> Bytes
    requires { w.0 < 2 ^ 62 }
    ensures { result.0 ≡ bytes_of_words w.0 }
{
    Bytes(w.0 * 2)
}

// The whole words that `b` bytes hold.
pub fn words_of_bytes(b: Bytes) -> Words
    ensures { result.0 ≡ words_of_bytes b.0 }
{
    Words(b.0 / 2)
}

// The words that a word of the block, taken as a count, says.
pub fn words_said(w: u16) -> Words
    ensures { (result.0 ≡ w) × (result.0 < 65536) }
{
    Words(usize::from(w))
}

// The lines that a field of a record's first line, taken as a count, says.
pub fn lines_said(w: u16) -> Lines
    ensures { (result.0 ≡ w) × (result.0 < 65536) }
{
    Lines(usize::from(w))
}

// The word that says `w` words.
pub fn saying_words(w: Words) -> u16
    requires { w.0 < 65536 }
    ensures { result ≡ w.0 }
{
    w.0 as u16
}

// The word that says `l` lines.
pub fn saying_lines(l: Lines) -> u16
    requires { l.0 < 65536 }
    ensures { result ≡ l.0 }
{
    l.0 as u16
}

// The lines of a Catalogue or a Header of `w` words: its prologue and each card is one.
pub fn lines_of_cards(w: Words) -> Lines
    ensures { result.0 ≡ lines_of_cards w.0 }
{
    Lines(w.0 / 40)
}

// The words of a Catalogue or a Header of `l` lines.
pub fn words_of_cards(l: Lines) -> Words
    requires { l.0 < 2 ^ 32 }
    ensures { result.0 ≡ words_of_cards l.0 }
{
    Words(40 * l.0)
}

// The lines that a part of `w` words takes, 20 fields a line.
pub fn lines_of_fields(w: Words) -> Lines
    ensures { result.0 ≡ lines_of_fields w.0 }
{
    Lines(w.0.div_ceil(20))
}

// The answer of row n, with its other numbers; a is a word here.
pub fn row(n: u8, a: u16, b: u16, c: u16) -> Answer
    ensures { (result ≡ answer n a b c) × (result.a < 65536) }
{
    Answer {
        n,
        a: u32::from(a),
        b,
        c,
    }
}

// The answer of row n that tells two counts, as far as the packing has room for them.
pub fn counted(n: u8, a: usize, b: usize) -> Answer
    ensures { (result ≡ fitted (answer n a b 0)) × (result.a < 2 ^ 24) }
{
    Answer {
        n,
        a: (a % (1 << 24)) as u32,
        b: (b % (1 << 16)) as u16,
        c: 0,
    }
}

// The answer of row n that says `size` bytes.
pub fn sized(n: u8, size: Bytes) -> Answer
    ensures { (result ≡ fitted (answer n size.0 0 0)) × (result.a < 2 ^ 24) }
{
    counted(n, size.0, 0)
}

// The four numbers as one.
pub fn pack(r: Answer) -> u64
    requires { r.a < 2 ^ 24 }
    ensures { result ≡ packed_of r }
{
    u64::from(r.n) * (1 << 56)
        + u64::from(r.a) * (1 << 32)
        + u64::from(r.b) * (1 << 16)
        + u64::from(r.c)
}

// The columns that the fields of `w` words take, six each, as bytes of a line.
pub fn columns_of_fields(w: Words) -> Bytes
    requires { w.0 < 2 ^ 32 }
    ensures { result.0 ≡ columns_of_fields w.0 }
{
    Bytes(6 * w.0)
}

// The ends of `l` lines, a byte each.
pub fn ends_of_lines(l: Lines) -> Bytes
    ensures { result.0 ≡ ends_of_lines l.0 }
{
    Bytes(l.0)
}
