// A value of a block: where it stands, and another put in its place, the checksum patched.
#![tactic(auto)]

ghost use Rattle.std.specs.Prelude.{◌≡◌, ◌+◌, ◌≤◌, ◌<◌, length};
ghost use Rattle.std.proofs.Common.{arith};
ghost use Rattle.words.specs.Words.{words_of, Below, most_words};
ghost use Rattle.record.specs.Rules.{RecordOk};
ghost use Rattle.block.specs.Judging.{Accepted};
ghost use Rattle.block.specs.Records.{records_of};
ghost use Rattle.sheet.specs.Cases.{entry_of};
ghost use Rattle.block_value.specs.Exchange.{value_in, value_place, patched, Exchanged};
ghost use Rattle.block_value.specs.Cases.{obstacle_of, spot_of};

use sheet::Amendment;
use units::{Answer, Numbered, Words};

// Why no value can be put in.
#[derive(Clone, Copy)]
pub enum Obstacle {
    NoSuchRecord,
    NoValue,
    Differs(u16),
}

impl Numbered for Obstacle {
    ghost numbers_of = { obstacle_of };

    ghost room = { 65536 };

    ghost packs = { Prim.omega arith };

    fn numbers(self) -> Answer {
        match self {
            Obstacle::NoSuchRecord => units::row(41, 0, 0, 0),
            Obstacle::NoValue => units::row(42, 0, 0, 0),
            Obstacle::Differs(found) => units::row(43, found, 0, 0),
        }
    }
}

// Word `word` of a good record with `at` words of the block before it, if it may be amended and is `value`: the words before it.
fn value_in(whole: &[u8], at: Words, word: u16, value: u16) -> Result<Words, Obstacle>
    requires { RecordOk (words_of whole.now) × (at.0 ≤ most_words) }
    ensures { spot_of result ≡ value_in (words_of whole.now) at.0 word value }
{
    let number = units::words_said(word);
    if !record::is_value(whole, number) {
        return Err(Obstacle::NoValue);
    }
    let before = number.0 - 1;
    let found = words::word_at(whole, Words(before));
    if value != found {
        return Err(Obstacle::Differs(found));
    }
    Ok(Words(at.0 + before))
}

// The place that an amendment names, if `value` stands there.
fn find_value(block: &[u8], e: Amendment, value: u16) -> Result<Words, Obstacle>
    requires { Below 256 block.now × Accepted block.now }
    ensures { spot_of result ≡ value_place (records_of block.now) (entry_of e) value }
{
    let place = block_steps::find(block, e.number).ok_or(Obstacle::NoSuchRecord)?;
    let whole = block_steps::record_at(block, place.at);
    value_in(whole, place.at, e.word, value)
}

// Puts a value in place of the old one, and patches the checksum with both.
fn put_value(block: &mut [u8], at: Words, old: u16, new: u16)
    requires { at.0 + 1 < length (words_of block.old) }
    ensures { block.new ≡ patched block.old at.0 old new }
{
    let last = words::count(block).0 - 1;
    let checksum = words::word_at(block, Words(last));
    words::put_word(block, at, new);
    words::put_word(block, Words(last), checksum ^ old ^ new);
}

// Puts `new` at the place that an amendment names, if `old` stands there: the words before that place.
pub fn exchange(block: &mut [u8], e: Amendment, old: u16, new: u16) -> Result<Words, Obstacle>
    requires { Below 256 block.old × Accepted block.old }
    ensures { Exchanged block.old (entry_of e) old new (spot_of result) block.new }
{
    let at = find_value(block, e, old)?;
    put_value(block, at, old, new);
    Ok(at)
}
