// The records of a block, one after the other: the next one, record n, one lent as a part of the block, and each in turn.
#![tactic(auto)]

ghost use Rattle.std.specs.Prelude.{◌≡◌, ◌+◌, ◌^◌, ◌<◌, drop};
ghost use Rattle.words.specs.Words.{words_of, bytes_of};
ghost use Rattle.block_steps.specs.Steps.{record_at};
ghost use Rattle.block_steps.specs.Promises.{StepsTo, FindsRecord};
ghost use Rattle.block_steps.specs.Standing.{records_from, records_left, Stands, Lends};

use units::Words;

// Where a record stands: the words of the block before it, and its own.
#[derive(Clone, Copy)]
pub struct Place {
    pub at: Words,
    pub size: Words,
}

impl Place {
    // The words of the block up to its end.
    fn end(self) -> Words
        requires { self.at.0 + self.size.0 < 2 ^ 64 }
        ensures { result.0 ≡ self.at.0 + self.size.0 }
    {
        Words(self.at.0 + self.size.0)
    }
}

// The record with `at` words of the block before it, or none where none stands there.
#[tactic(auto, unfolding(crate::specs::Steps::step_of))]
pub fn step(block: &[u8], at: Words) -> Option<Place>
    ensures { StepsTo block.now at.0 result }
{
    let m = words::count(block).0;
    if m <= at.0 {
        return None;
    }
    let size = units::words_said(words::word_at(block, at));
    if size.0 == 0 || m - 1 - at.0 < size.0 {
        return None;
    }
    Some(Place { at, size })
}

// The record with `at` words of the block before it, lent as a part of the block, and the words up to its end.
fn lend(block: &[u8], at: Words) -> Option<(&[u8], Words)>
    ensures { Lends block.now at.0 result }
{
    let place = step(block, at)?;
    let end = place.end();
    Some((words::span(block, place.at, end), end))
}

// The record with `at` words of the block before it, lent as a part of the block; an empty part where none stands there.
pub fn record_at(block: &[u8], at: Words) -> &[u8]
    ensures { result.now ≡ bytes_of (record_at (words_of block.now) at.0) }
{
    match lend(block, at) {
        Some((whole, _)) => whole,
        // Kept: an empty part, not None: the clause of the public `record_at` lends the bytes of no words where no record stands.
        None => &block[..0],
    }
}

// Record `number` of the block, or none where the block has fewer.
#[tactic(auto, unfolding(crate::specs::Steps::find_of))]
pub fn find(block: &[u8], number: u16) -> Option<Place>
    ensures { FindsRecord block.now number result }
{
    if number == 0 {
        return None;
    }
    let mut at = Words(1);
    for _ in 1..number {
        at = step(block, at)?.end();
    }
    step(block, at)
}

// A walk over the records of a block: the next one is that with `at` words of the block before it.
#[derive(Drop)]
pub struct Walk<'a> {
    block: &'a [u8],
    at: Words,
}

// The records of a block, each lent in turn as a part of it.
#[tactic(auto, unfolding(crate::specs::Standing::records_left))]
pub fn records(block: &[u8]) -> Walk<'_>
    ensures left { records_left result ≡ records_from 0 (drop 1 (words_of block.now)) }
    ensures stands { Stands result block.now 1 }
{
    Walk {
        block,
        at: Words(1),
    }
}

impl<'a> Iterator for Walk<'a> {
    ghost use Rattle.std.specs.Iterator.{item_count};
    ghost use Rattle.block_steps.specs.Standing.{records_left, LendsRecord};

    type Item = &'a [u8];

    ghost next_gives = { LendsRecord };

    ghost remaining = { item_count records_left };

    #[tactic(auto, unfolding(crate::specs::Standing::records_left))]
    fn next(&mut self) -> Option<&'a [u8]> {
        let (whole, end) = lend(self.block, self.at)?;
        self.at = end;
        Some(whole)
    }
}
