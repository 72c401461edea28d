// Block to lines: the standard lines of a block's records, written straight into the lent text.
#![tactic(auto)]

ghost use Rattle.std.specs.Prelude.{◌≡◌, ◌≢◌, ◌^◌, ◌≤◌, ◌<◌, length};
ghost use Rattle.words.specs.Words.{word, words_of, most_record_words};
ghost use Rattle.words.specs.Writing.{Room, Put};
ghost use Rattle.record.specs.Lines.{line_count};
ghost use Rattle.block.specs.Rules.{BlockRecord};
ghost use Rattle.write_parts.specs.Laid.{ended};
ghost use Rattle.record.specs.Kinds.{kind_word};
ghost use Rattle.write_lines.specs.Lines.{lines_of, columns_in, Writable};
ghost use Rattle.write_lines.specs.Text.{text_of};
ghost use Rattle.write_lines.specs.Cases.{lined_of};
ghost use Rattle.write_lines.specs.Promises.{WritesLines};
ghost use Rattle.units.specs.Answers.{passed, fitted};
ghost use Rattle.words.specs.Outcomes.{written, leaves};
ghost use Rattle.block.specs.Judging.{Accepted};
ghost use Rattle.block.specs.Records.{records_of};

use block::Refusal;
use record::Kind;
use units::{Answer, Bytes, Lines, Unwritten, Words};

// What a good record is.
// Kept: that a record is good is required here and below, and no invariant of a struct: a walk goes over any block, as its promise says, so what it lends is bytes.
fn kind_of(whole: &[u8]) -> Kind
    requires { BlockRecord (words_of whole.now) }
    ensures { word (words_of whole.now) 2 ≡ kind_word result }
{
    Kind::of_word(words::word_at(whole, Words(1))).unwrap()
}

// A good record's line count, as its first field shows it.
fn count_shown(whole: &[u8]) -> u16
    requires { BlockRecord (words_of whole.now) }
    ensures { result ≡ line_count (words_of whole.now) }
{
    units::saying_lines(record::line_count(whole))
}

// Writes a Data record's lines.
// Kept: `out` and `at` are two parameters, here and below: as a struct with methods they proved in report, but no contract or proof got shorter, and each caller makes the struct and takes its place out again.
// Kept: `Writable` is one name for what these three require: it holds of a record, an output and a place together, of which the output and the place stay two parameters.
fn write_data(whole: &[u8], out: &mut [u8], at: Bytes) -> Bytes
    requires { Writable whole.now out.old at.0 × (word (words_of whole.now) 2 ≡ 1002) }
    ensures { Put out.old at.0 (ended (lines_of (words_of whole.now))) out.new result.0 }
{
    let lines = count_shown(whole);
    let counts = counts::counts_of(whole);
    write_parts::write_plan(whole, lines, counts, out, at)
}

// Writes the lines of a record of this kind, a Catalogue's or a Header's.
fn write_carded(whole: &[u8], kind: Kind, out: &mut [u8], at: Bytes) -> Bytes
    requires { Writable whole.now out.old at.0 × (word (words_of whole.now) 2 ≡ kind_word kind) × (kind_word kind ≢ 1002) }
    ensures { Put out.old at.0 (ended (lines_of (words_of whole.now))) out.new result.0 }
{
    let lines = count_shown(whole);
    let cards = units::lines_said(lines).0 - 1;
    let to = write_parts::write_head(whole, lines, kind.shown(), Words(20), out, at);
    write_parts::write_cards(whole, Words(40), Lines(cards), out, to)
}

// Writes a good record's lines.
fn write_record(whole: &[u8], out: &mut [u8], at: Bytes) -> Bytes
    requires { Writable whole.now out.old at.0 }
    ensures { Put out.old at.0 (ended (lines_of (words_of whole.now))) out.new result.0 }
{
    let kind = kind_of(whole);
    match kind {
        Kind::Data => write_data(whole, out, at),
        Kind::Catalogue | Kind::Header => write_carded(whole, kind, out, at),
    }
}

// The columns that a record of this kind and size takes in its lines: a field has six, a card its words' bytes.
fn columns_in(kind: Kind, size: Words) -> Bytes
    requires { (size.0 ≤ most_record_words) × (kind_word kind ≢ 1002 → 40 ≤ size.0) }
    ensures { result.0 ≡ columns_in (kind_word kind) size.0 }
{
    match kind {
        Kind::Data => units::columns_of_fields(size),
        Kind::Catalogue | Kind::Header => {
            let behind = size.0 - 40;
            let fields = units::columns_of_fields(Words(20)).0;
            let cards = units::bytes_of_words(Words(behind)).0;
            Bytes(fields + cards)
        }
    }
}

// The bytes of a good record's text: the columns of its lines, and their ends.
fn record_size(whole: &[u8]) -> Bytes
    requires { BlockRecord (words_of whole.now) }
    ensures { result.0 ≡ length (ended (lines_of (words_of whole.now))) }
{
    let ends = units::ends_of_lines(record::line_count(whole)).0;
    let columns = columns_in(kind_of(whole), words::count(whole)).0;
    Bytes(columns + ends)
}

// The bytes of an accepted block's text.
// Kept: that a block is accepted is required here and below, and no invariant of a type: the public `write_records` and `block_value::exchange` ask it of a block's bytes, and `exchange` writes into them.
fn text_size(block: &[u8]) -> Bytes
    requires { Accepted block.now }
    ensures { result.0 ≡ length (text_of (records_of block.now)) }
{
    let mut bytes = 0;
    for whole in block_steps::records(block) {
        bytes += record_size(whole).0;
    }
    Bytes(bytes)
}

// Writes an accepted block's text.
pub fn write_records(block: &[u8], out: &mut [u8]) -> Bytes
    requires { Accepted block.now × Room out.old 0 (text_of (records_of block.now)) }
    ensures { Put out.old 0 (text_of (records_of block.now)) out.new result.0 }
{
    let mut to = Bytes(0);
    for whole in block_steps::records(block) {
        to = write_record(whole, out, to);
    }
    to
}

// Writes an accepted block's text, if the lent text has room for it.
fn write_text(block: &[u8], text: &mut [u8]) -> Result<Bytes, Unwritten<Refusal>>
    requires { Accepted block.now }
    ensures { leaves (lined_of result) text.new ≡ written 29 text.old (passed (text_of (records_of block.now))) }
{
    let needed = text_size(block);
    if text.len() < needed.0 {
        return Err(Unwritten::Short(needed));
    }
    Ok(write_records(block, text))
}

// Block to lines.
pub fn to_lines(block: &[u8], text: &mut [u8]) -> Result<Bytes, Unwritten<Refusal>>
    ensures { WritesLines block.now text.old result text.new }
{
    block::judge(block)?;
    write_text(block, text)
}

// The four numbers of an answer.
// Kept: one line, as in read_text and repacking: the row of a short output belongs to the call and not to the refusal's type, and the names are public (docs/PROMISES.md).
pub fn numbers(l: Result<Bytes, Unwritten<Refusal>>) -> Answer
    ensures { (result ≡ fitted (lined_of l)) × (result.a < 2 ^ 24) }
{
    units::written(29, l)
}
