// A number in six columns of a line. A word, 0 to 65535, stands for its value in two's complement.
#![tactic(auto)]

ghost use Rattle.std.specs.Prelude.{◌≡◌, ◌+◌, ◌<◌, ◌≤◌, [], ◌∷◌, length};
ghost use Rattle.std.proofs.lemmas.List.Edits.{sets};
ghost use Rattle.units.specs.Decimal.{digit};
ghost use Rattle.field.specs.Writing.{field_of};
ghost use Rattle.field.specs.Putting.{four_of, four_bytes, six_of};
ghost use Rattle.field.specs.Reading.{with_digit, after_column, value_of, finish_of, read_field, columns, so_far};

use units::Bytes;

// Where the reading of a field stands: the sign is true for a minus, and the digits have their value so far.
#[derive(Clone, Copy)]
pub enum Scan {
    Blank,
    Sign(bool),
    Digits(bool, u32),
    Spoiled,
}

// What a field shows of a word: what stands right before the digits, a minus or one more blank, and the number that they say.
#[derive(Clone, Copy)]
struct Shown {
    lead: u8,
    number: u16,
}

fn split(w: u16) -> Shown
    ensures { six_of result.lead result.number ≡ field_of w }
{
    if w < 32768 {
        return Shown {
            lead: b' ',
            number: w,
        };
    }
    Shown {
        lead: b'-',
        number: w.wrapping_neg(),
    }
}

// The last digit of a number.
// Kept: digits by hand, here and in the two functions below: the library prints by Display, which promises none of its bytes (as told in report); four are made at once by one product.
fn digit(n: u16) -> u8
    ensures { result ≡ digit n }
{
    b'0' + (n % 10) as u8
}

// The number whose bytes are the last four digits. One product gives the tens of both pairs: below 100 a tenth is 103 / 1024.
fn four_digits(n: u16) -> u32
    ensures { result ≡ four_of n }
{
    let last = u32::from(n % 10000);
    let high = last / 100;
    let low = last % 100;
    let pairs = high + low * 65536;
    let tenth = pairs * 103 / 1024;
    let tens = tenth % 16 + tenth / 65536 * 65536;
    let ones = pairs - tens * 10;
    tens + ones * 256 + 0x3030_3030
}

// The number whose bytes are the last four columns of a number of two or three digits. Of three, the lead takes the place of a zero before them.
fn few(lead: u8, n: u16) -> u32
    requires { (10 ≤ n) × (n < 1000) }
    ensures { 32 ∷ 32 ∷ four_bytes result ≡ six_of lead n }
{
    if n < 100 {
        let m = u32::from(n);
        return 0x3030_0020 + u32::from(lead) * 256 + (m / 10 + m % 10 * 256) * 65536;
    }
    four_digits(n) - 48 + u32::from(lead)
}

// Kept: `out` and `at` are two parameters: with the six columns as a slice, or one copy of a whole field, writing took a third more instructions; as a `&mut [u8; 6]` the proof did not close: what is written through it is lost.
fn put_six(out: &mut [u8], at: usize, columns: [u8; 6])
    requires { at + 6 ≤ length out.old }
    ensures { out.new ≡ sets out.old at columns }
{
    let end = at + 6;
    out[at..end].copy_from_slice(&columns);
}

// The first two columns, and a number whose bytes are the other four.
fn put_columns(out: &mut [u8], at: usize, a: u8, b: u8, x: u32)
    requires { at + 6 ≤ length out.old }
    ensures { out.new ≡ sets out.old at (a ∷ b ∷ four_bytes x) }
{
    let [c, d, e, f] = x.to_le_bytes();
    put_six(out, at, [a, b, c, d, e, f]);
}

// The field of a number below 1000, `lead` right before its digits.
fn put_few(out: &mut [u8], at: usize, lead: u8, n: u16)
    requires { (at + 6 ≤ length out.old) × (n < 1000) }
    ensures { out.new ≡ sets out.old at (six_of lead n) }
{
    if n < 10 {
        put_six(out, at, [b' ', b' ', b' ', b' ', lead, digit(n)]);
        return;
    }
    put_columns(out, at, b' ', b' ', few(lead, n));
}

// Writes a word into the six columns from place `at` on; all other bytes stay.
pub fn write_field(out: &mut [u8], at: Bytes, w: u16)
    requires { at.0 + 6 ≤ length out.old }
    ensures { out.new ≡ sets out.old at.0 (field_of w) }
{
    let first = at.0;
    let shown = split(w);
    let lead = shown.lead;
    let n = shown.number;
    if n < 1000 {
        put_few(out, first, lead, n);
        return;
    }
    if n < 10000 {
        put_columns(out, first, b' ', lead, four_digits(n));
        return;
    }
    put_columns(out, first, lead, digit(n / 10000), four_digits(n));
}

// A digit after the value m: what is below the digits wraps to far above them, so that one test is enough.
// Kept: `is_ascii_digit` and `b - b'0'` were tried, and reading took a tenth more instructions.
fn with_digit(minus: bool, m: u32, b: u8) -> Scan
    requires { m < 100000 }
    ensures { result ≡ with_digit minus m b }
{
    let d = u32::from(b).wrapping_sub(48);
    if 9 < d {
        return Scan::Spoiled;
    }
    Scan::Digits(minus, m * 10 + d)
}

// One column more.
fn after_column(s: Scan, b: u8) -> Scan
    requires { so_far s < 100000 }
    ensures { result ≡ after_column s b }
{
    match s {
        Scan::Blank => match b {
            b' ' => Scan::Blank,
            b'-' => Scan::Sign(true),
            b'+' => Scan::Sign(false),
            _ => with_digit(false, 0, b),
        },
        Scan::Sign(minus) => with_digit(minus, 0, b),
        Scan::Digits(minus, m) => with_digit(minus, m, b),
        Scan::Spoiled => Scan::Spoiled,
    }
}

// The word of a sign and a value, if it has one.
fn signed(minus: bool, m: u32) -> Option<u16>
    ensures { result ≡ value_of minus m }
{
    if minus {
        if 32768 < m {
            return None;
        }
        return Some((m as u16).wrapping_neg());
    }
    if 32767 < m {
        return None;
    }
    Some(m as u16)
}

// What the field holds whose last column led here; a bad one holds nothing.
fn finish(s: Scan) -> Option<u16>
    ensures { result ≡ finish_of s }
{
    match s {
        Scan::Blank => None,
        Scan::Sign(_) => None,
        Scan::Digits(minus, m) => signed(minus, m),
        Scan::Spoiled => None,
    }
}

// Reads the six columns from place `at` on of a line; columns that it lacks are blank. Where the line ends before the sixth column, that column is blank, and the field is bad.
pub fn read_field(line: &[u8], at: Bytes) -> Option<u16>
    ensures { result ≡ read_field (columns 6 line.now at.0) }
{
    let field = line.get(at.0..)?.first_chunk::<6>()?;
    let mut s = Scan::Blank;
    for b in field {
        s = after_column(s, *b);
    }
    finish(s)
}
