// Words laid out in lines of fields and in cards, written straight into the lent text.
#![tactic(auto)]

ghost use Rattle.std.specs.Prelude.{ℕ, [], ◌∷◌, ◌++◌, ◌≡◌, ◌+◌, ◌*◌, ◌≤◌, length, take, drop};
ghost use Rattle.units.specs.Units.{words_of_cards};
ghost use Rattle.words.specs.Words.{words_of, pair_words};
ghost use Rattle.words.specs.Writing.{Room, Put};
ghost use Rattle.counts.specs.Counts.{words_needed};
ghost use Rattle.line_plan.specs.Plan.{part, times, tables, plan};
ghost use Rattle.write_parts.specs.Laid.{fields_of, laid, card_lines, ended, part_text};

use counts::Counts;
use record::Kind;
use units::{Bytes, Lines, Words};

// Writes words as fields.
// Kept: `out` and `at` are two parameters, here and below: as a struct with methods they proved in report, but no contract or proof got shorter, and each caller makes the struct and takes its place out again.
fn write_fields(words: &[[u8; 2]], out: &mut [u8], at: Bytes) -> Bytes
    requires { Room out.old at.0 (fields_of (pair_words words.now)) }
    ensures { Put out.old at.0 (fields_of (pair_words words.now)) out.new result.0 }
{
    let mut to = at.0;
    for word in words {
        field::write_field(out, Bytes(to), u16::from_be_bytes(*word));
        to += 6;
    }
    Bytes(to)
}

// Writes words as the fields of a line.
fn write_line(words: &[[u8; 2]], out: &mut [u8], at: Bytes) -> Bytes
    requires { Room out.old at.0 (fields_of (pair_words words.now) ++ (10 ∷ [])) }
    ensures { Put out.old at.0 (fields_of (pair_words words.now) ++ (10 ∷ [])) out.new result.0 }
{
    let end = write_fields(words, out, at).0;
    out[end] = b'\n';
    Bytes(end + 1)
}

// Writes words in lines of 20 fields.
fn write_part(words: &[[u8; 2]], out: &mut [u8], at: Bytes) -> Bytes
    requires { Room out.old at.0 (part_text (pair_words words.now)) }
    ensures { Put out.old at.0 (part_text (pair_words words.now)) out.new result.0 }
{
    let mut to = at;
    for line in words.chunks(20) {
        to = write_line(line, out, to);
    }
    to
}

// Writes the rows of a table, `width` words each, each a part of its own.
fn write_rows(table: &[[u8; 2]], width: usize, out: &mut [u8], at: Bytes) -> Bytes
    ghost rows: { ℕ }
    requires { (length table.now ≡ rows * width) × Room out.old at.0 (ended (laid (times rows (part width)) (pair_words table.now))) }
    ensures { Put out.old at.0 (ended (laid (times rows (part width)) (pair_words table.now))) out.new result.0 }
{
    // A table without columns takes no line.
    if width == 0 {
        return at;
    }
    let mut to = at;
    for row in table.chunks_exact(width) {
        to = write_part(row, out, to);
    }
    to
}

// Writes `cards` cards from place `from` on, each a line of 80 columns.
pub fn write_cards(whole: &[u8], from: Words, cards: Lines, out: &mut [u8], at: Bytes) -> Bytes
    requires { (from.0 + words_of_cards cards.0 ≤ length (words_of whole.now)) × Room out.old at.0 (ended (card_lines cards.0 (drop from.0 (words_of whole.now)))) }
    ensures { Put out.old at.0 (ended (card_lines cards.0 (drop from.0 (words_of whole.now)))) out.new result.0 }
{
    let rest = words::span(whole, from, words::count(whole));
    let texts = &rest.as_chunks::<80>().0[..cards.0];
    let mut to = at.0;
    for card in texts {
        let end = words::write_bytes(card, out, Bytes(to)).0;
        out[end] = b'\n';
        to = end + 1;
    }
    Bytes(to)
}

// Writes a record's first line: its line count and its kind, then words 3 on, `fields` fields in all.
// Kept: the kind is a number, as the contract of this public function has it for each.
pub fn write_head(
    whole: &[u8],
    lines: u16,
    kind: u16,
    fields: Words,
    out: &mut [u8],
    at: Bytes,
) -> Bytes
    requires { (2 ≤ fields.0) × (fields.0 ≤ length (words_of whole.now)) × Room out.old at.0 (fields_of (take fields.0 (lines ∷ (kind ∷ drop 2 (words_of whole.now)))) ++ (10 ∷ [])) }
    ensures { Put out.old at.0 (fields_of (take fields.0 (lines ∷ (kind ∷ drop 2 (words_of whole.now)))) ++ (10 ∷ [])) out.new result.0 }
{
    let second = at.0 + 6;
    let third = second + 6;
    field::write_field(out, at, lines);
    field::write_field(out, Bytes(second), kind);
    write_line(&words::pairs(whole)[2..fields.0], out, Bytes(third))
}

// Writes the prologue of a Data record, `lprol` words in lines of 20.
fn write_prologue(whole: &[u8], lines: u16, lprol: Words, out: &mut [u8], at: Bytes) -> Bytes
    requires { (16 ≤ lprol.0) × (lprol.0 ≤ length (words_of whole.now)) × Room out.old at.0 (ended (laid (part lprol.0) (lines ∷ (1101 ∷ drop 2 (words_of whole.now))))) }
    ensures { Put out.old at.0 (ended (laid (part lprol.0) (lines ∷ (1101 ∷ drop 2 (words_of whole.now))))) out.new result.0 }
{
    let first = line_plan::on_line(lprol);
    let kind = Kind::Data.shown();
    let to = write_head(whole, lines, kind, first, out, at);
    write_part(&words::pairs(whole)[first.0..lprol.0], out, to)
}

// Writes the tables of a Data record: the 1-D codes and values, the 2-D codes and rows.
fn write_tables(whole: &[u8], c: Counts, out: &mut [u8], at: Bytes) -> Bytes
    requires { (words_needed c ≤ length (words_of whole.now)) × Room out.old at.0 (ended (laid (tables c) (drop c.lprol (words_of whole.now)))) }
    ensures { Put out.old at.0 (ended (laid (tables c) (drop c.lprol (words_of whole.now)))) out.new result.0 }
{
    // Kept: widened by `as`, which computes: `usize::from` was tried and is no plainer: each answer must also be rewritten by four facts.
    let codes = c.lprol as usize;
    let single = c.jpar as usize;
    let across = c.mpar as usize;
    let rows = c.nrow as usize + 1;
    let table = codes + 2 * single;
    let end = table + rows * across;
    let pairs = words::pairs(whole);
    let to = write_rows(&pairs[codes..table], single, out, at);
    write_rows(&pairs[table..end], across, out, to)
}

// Writes the lines that the counts plan: the prologue, then the tables.
pub fn write_plan(whole: &[u8], lines: u16, c: Counts, out: &mut [u8], at: Bytes) -> Bytes
    requires { (16 ≤ c.lprol) × (words_needed c ≤ length (words_of whole.now)) × Room out.old at.0 (ended (laid (plan c) (lines ∷ (1101 ∷ drop 2 (words_of whole.now))))) }
    ensures { Put out.old at.0 (ended (laid (plan c) (lines ∷ (1101 ∷ drop 2 (words_of whole.now))))) out.new result.0 }
{
    let lprol = units::words_said(c.lprol);
    let to = write_prologue(whole, lines, lprol, out, at);
    write_tables(whole, c, out, to)
}
