// Lines to block, in two calls: one judges the lines and tells the size of their block, one judges them again and writes it.
#![tactic(auto)]

ghost use Rattle.std.specs.Prelude.{◌≡◌, ◌+◌, ◌≤◌, ◌<◌, ◌^◌, []};
ghost use Rattle.units.specs.Answers.{passed, answered, fitted};
ghost use Rattle.units.specs.Units.{bytes_of_words};
ghost use Rattle.words.specs.Words.{most_record_words};
ghost use Rattle.words.specs.Outcomes.{leaves};
ghost use Rattle.read_records.specs.Content.{stored, stored_of};
ghost use Rattle.read_records.specs.Reading.{read_text};
ghost use Rattle.read_text.specs.Block.{judge_lines, write_block};
ghost use Rattle.read_text.specs.Cases.{judged_of, built_of};
ghost use Rattle.read_text.specs.Promises.{JudgesLines, WritesBlock};

use read_columns::Flaw;
use units::{Answer, Bytes, Numbered, Unwritten, Words};

// The bytes of a block of so many record words.
fn block_size(records: Words) -> Bytes
    requires { records.0 ≤ most_record_words }
    ensures { result.0 ≡ bytes_of_words (records.0 + 2) }
{
    units::bytes_of_words(Words(records.0 + 2))
}

// Reads a text into a block of no bytes, so that nothing is written.
fn judge_records(text: &[u8]) -> Result<Words, Flaw>
    ensures { stored_of [] result ≡ stored 0 [] (read_text text.now) }
{
    let mut nothing = [0u8; 0];
    read_records::read(text, &mut nothing)
}

// Judges a text, and tells the size of its block.
pub fn judge_lines(text: &[u8]) -> Result<Bytes, Flaw>
    ensures { JudgesLines text.now result }
{
    let records = judge_records(text)?;
    let size = block_size(records);
    Ok(size)
}

// Kept: `text` and `block` are two parameters, here, in read_records and in read_line: the call for C lends them so (`cedar_write_block` of include/cedar.h).
// Puts the block of an accepted text that has `records` record words, if the lent block has room for it.
fn put_block(text: &[u8], records: Words, block: &mut [u8]) -> Result<Bytes, Unwritten<Flaw>>
    requires { judge_lines text.now ≡ passed (bytes_of_words (records.0 + 2)) }
    ensures { leaves (built_of result) block.new ≡ write_block text.now block.old }
{
    let needed = block_size(records);
    let size = needed.0;
    if block.len() < size {
        return Err(Unwritten::Short(needed));
    }
    // Judged before, the text is not refused now: what is found of it is the same.
    let _ = read_records::read(text, block);
    words::seal(block, records);
    Ok(needed)
}

// Judges a text again, whoever may have judged it before, and writes its block.
pub fn write_block(text: &[u8], block: &mut [u8]) -> Result<Bytes, Unwritten<Flaw>>
    ensures { WritesBlock text.now block.old result block.new }
{
    let judged = judge_records(text)?;
    put_block(text, judged, block)
}

// The four numbers of what is found of a text.
// Kept: one line, as its neighbour below: the name is public (docs/PROMISES.md).
pub fn judged_numbers(j: Result<Bytes, Flaw>) -> Answer
    ensures { (result ≡ fitted (answered (judged_of j))) × (result.a < 2 ^ 24) }
{
    j.numbers()
}

// The four numbers of what becomes of it: row 29 where the block is too short.
// Kept: one line, as in write_lines and repacking: the row of a short output belongs to the call and not to the refusal's type, and the names are public (docs/PROMISES.md).
pub fn built_numbers(b: Result<Bytes, Unwritten<Flaw>>) -> Answer
    ensures { (result ≡ fitted (built_of b)) × (result.a < 2 ^ 24) }
{
    units::written(29, b)
}
