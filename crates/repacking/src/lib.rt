// Blocks one after the other, packed again: their records in their order, in as few blocks as hold them.
#![tactic(auto)]

ghost use Rattle.std.specs.Prelude.{◌≡◌, [], ◌∷◌, ◌<◌, ◌≤◌, ◌^◌, length};
ghost use Rattle.std.proofs.lemmas.List.Edits.{sets};
ghost use Rattle.words.specs.Words.{words_of, bytes_of, most_record_words, block_from};
ghost use Rattle.block.specs.Judging.{Accepted};
ghost use Rattle.block.specs.Records.{records_of};
ghost use Rattle.block.specs.Rules.{BlockRecord};
ghost use Rattle.units.specs.Answers.{fitted};
ghost use Rattle.block_slice.specs.Blocks.{most_bytes};
ghost use Rattle.block_slice.specs.Cases.{measured_of};
ghost use Rattle.packing.specs.Current.{current_after};
ghost use Rattle.repacking.specs.Promises.{Repacks};
ghost use Rattle.repacking.specs.Between.{standing, bytes_needed, Countable, Fitting, RoomMade, PutOn, Packable, PackedInto};
ghost use Rattle.repacking.specs.Cases.{repacked_of};

use block_slice::SliceRefusal;
use packing::Current;
use units::{Answer, Bytes, Unwritten, Words};

// The most bytes of blocks that are repacked at a time.
const MOST_BYTES: usize = 64000;

// The current block once the records of an accepted block are packed.
// Kept: `Accepted`, here and below, is asked of bytes, and `BlockRecord` of a record's: `block_steps::records` lends bytes of any block, as its promise says, and `block_value::exchange` writes into an accepted block, so no type holds one.
fn count_records(block: &[u8], current: Current) -> Current
    requires { Accepted block.now × Countable current (records_of block.now) }
    ensures { result ≡ current_after current (records_of block.now) }
{
    let mut to = current;
    for whole in block_steps::records(block) {
        let k = words::count(whole);
        to = to.room_for(k).with_record(k);
    }
    to
}

// Judges the blocks of a slice, and counts the bytes of their records packed again.
fn judge_blocks(slice: &[u8]) -> Result<Bytes, SliceRefusal>
    requires { length slice.now ≤ most_bytes }
    ensures { measured_of result ≡ bytes_needed slice.now }
{
    let mut rest = slice;
    let mut number: u16 = 1;
    let mut current = Current::FIRST;
    while !rest.is_empty() {
        let size = block_slice::judge_next(rest, number)?;
        let (block, others) = rest.split_at(size.0);
        current = count_records(block, current);
        rest = others;
        // Kept: `number` is no index: it counts the blocks beside a rest that shrinks, and no iterator lends them (below).
        number += 1;
    }
    Ok(current.bytes_to())
}

// Seals the current block where it stands in the output.
// Kept: `out` and the current block are two parameters: a struct of an output and a place, tried in report, made no clause and no proof shorter, and this one would be made and taken apart by each caller alike.
#[tactic(auto, unfolding(packing::specs::Current::current_after))]
fn seal_current(out: &mut [u8], current: Current)
    requires { Fitting out.old current [] }
    ensures { out.new ≡ sets out.old current.start.0 (block_from (standing out.old current)) }
{
    words::seal(&mut out[current.start.0..], current.used);
}

// Makes room for a record of `k` words: where the current block has none, it is sealed and a new one begun.
#[tactic(auto, unfolding(packing::specs::Current::current_after))]
fn make_room(out: &mut [u8], current: Current, k: Words) -> Current
    requires { Fitting out.old current [] × (k.0 ≤ most_record_words) }
    ensures { RoomMade out.old current k.0 out.new result }
{
    let next = current.room_for(k);
    // It is still the same block.
    // Kept: told by its start: `next == current` would ask PartialEq and Eq of Current, Bytes and Words for this one test, and compare the words used besides.
    if next.start.0 == current.start.0 {
        return next;
    }
    seal_current(out, current);
    next
}

// Puts a record behind those that stand in the output.
fn put_record(whole: &[u8], out: &mut [u8], current: Current) -> Current
    requires { BlockRecord (words_of whole.now) × (whole.now ≡ bytes_of (words_of whole.now)) × Fitting out.old current (words_of whole.now ∷ []) }
    ensures { PutOn out.old current (words_of whole.now ∷ []) out.new result }
{
    let k = words::count(whole);
    let room = make_room(out, current, k);
    let before = Words(room.used.0 + 1);
    let at = room.start.0 + units::bytes_of_words(before).0;
    words::write_bytes(whole, out, Bytes(at));
    room.with_record(k)
}

// Puts the records of an accepted block behind those that stand in the output.
fn put_records(block: &[u8], out: &mut [u8], current: Current) -> Current
    requires { Accepted block.now × Fitting out.old current (records_of block.now) }
    ensures { PutOn out.old current (records_of block.now) out.new result }
{
    let mut to = current;
    for whole in block_steps::records(block) {
        to = put_record(whole, out, to);
    }
    to
}

// Writes the blocks of an accepted slice again, packed.
// Kept: its loop and that of `judge_blocks` are two: an iterator over the blocks of a slice would be one more type, with its ghost model and laws, for the cut alone: that loop judges a block to know its size and may stop, and this one reads the size, as all blocks are accepted.
fn write_blocks(slice: &[u8], out: &mut [u8])
    requires { Packable slice.now out.old }
    ensures { PackedInto slice.now out.old out.new }
{
    let mut rest = slice;
    let mut current = Current::FIRST;
    while !rest.is_empty() {
        let size = units::bytes_of_words(block_slice::stated_words(rest));
        let (block, behind) = rest.split_at(size.0);
        current = put_records(block, out, current);
        rest = behind;
    }
    seal_current(out, current);
}

// Packs blocks that stand one after the other again: a record goes into the current block if it fits, else into a new one.
pub fn repack(slice: &[u8], out: &mut [u8]) -> Result<Bytes, Unwritten<SliceRefusal>>
    ensures { Repacks slice.now out.old result out.new }
{
    if MOST_BYTES < slice.len() {
        return Err(Unwritten::Refused(SliceRefusal::Long));
    }
    let needed = judge_blocks(slice)?;
    if out.len() < needed.0 {
        return Err(Unwritten::Short(needed));
    }
    // No record, so no block to seal.
    if needed.0 == 0 {
        return Ok(needed);
    }
    write_blocks(slice, out);
    Ok(needed)
}

// The four numbers of an answer.
// Kept: one line, as in write_lines and read_text: the row of a short output belongs to the call and not to the refusal's type, and the names are public (docs/PROMISES.md).
pub fn numbers(r: Result<Bytes, Unwritten<SliceRefusal>>) -> Answer
    ensures { (result ≡ fitted (repacked_of r)) × (result.a < 2 ^ 24) }
{
    units::written(50, r)
}
