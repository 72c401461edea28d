// A block: records end to end, with length word and checksum; the judge.
#![tactic(auto)]

ghost use Rattle.std.specs.Prelude.{◌≡◌, ◌<◌, ◌≤◌, length};
ghost use Rattle.std.proofs.Common.{arith};
ghost use Rattle.words.specs.Words.{words_of, most_words};
ghost use Rattle.block.specs.Judging.{wrong_size, walk, judge_words};
ghost use Rattle.block.specs.Cases.{refusal_of, judged_of};
ghost use Rattle.block.specs.Promises.{Judges};
ghost use Rattle.block.specs.declared.Refusal.TheVariants.{Record};

use record::Fault;
use units::{Answer, Bytes, Numbered, Words};

// Why a block is refused: its frame, or one of its records.
#[derive(Clone, Copy)]
pub enum Refusal {
    Size,
    WordCount,
    Checksum(u16),
    Record(Fault),
}

impl From<Fault> for Refusal {
    ghost from_gives = { λ f r. r ≡ Record f };

    fn from(f: Fault) -> Refusal {
        Self::Record(f)
    }
}

impl Numbered for Refusal {
    ghost numbers_of = { refusal_of };

    ghost room = { 65536 };

    ghost packs = { Prim.omega arith };

    fn numbers(self) -> Answer {
        match self {
            Refusal::Size => units::row(1, 0, 0, 0),
            Refusal::WordCount => units::row(2, 0, 0, 0),
            Refusal::Checksum(bits) => units::row(3, 0, 0, bits),
            Refusal::Record(f) => f.numbers(),
        }
    }
}

// A byte count that is odd, under 36 or over 16,000.
#[tactic(auto, unfolding(crate::specs::Judging::wrong_size))]
fn wrong_size(size: Bytes) -> bool
    ensures { result ≡ wrong_size size.0 }
{
    // Kept: three tests, as the sentence has them: a range would be negated for two of them, and is no plainer.
    size.0 % 2 != 0 || size.0 < 36 || 16000 < size.0
}

// The records of a block, which fill the words between its first and its last.
fn judge_records(inner: &[u8]) -> Result<u16, Refusal>
    requires { length (words_of inner.now) ≤ most_words }
    ensures { judged_of result ≡ walk 0 1 (words_of inner.now) }
{
    let mut rest = inner;
    let mut number: u16 = 1;
    while words::count(rest).0 > 0 {
        let size = record::judge_record(rest, number)?;
        rest = rest.split_at(units::bytes_of_words(size).0).1;
        // Kept: `number` is no index: it counts the records beside a rest that shrinks, and no iterator lends records not yet judged.
        number += 1;
    }
    Ok(number - 1)
}

// Judges the checksum and the records of a block whose size and length word are right.
#[tactic(auto, using(crate::proofs::Summed::words_front, crate::proofs::Summed::words_inner))]
fn judge_words(block: &[u8]) -> Result<u16, Refusal>
    requires { (18 ≤ length (words_of block.now)) × (length (words_of block.now) ≤ most_words) }
    ensures { judged_of result ≡ judge_words (words_of block.now) }
{
    let end = words::count(block).0 - 1;
    let last = Words(end);
    let stored = words::word_at(block, last);
    let checksum = words::exclusive_or(words::span(block, Words(0), last));
    if stored != checksum {
        let bits = (stored ^ checksum).count_ones() as u16;
        return Err(Refusal::Checksum(bits));
    }
    judge_records(words::span(block, Words(1), last))
}

// Judges a block: whether it keeps the rules of the format, and how many records it has.
#[tactic(auto, unfolding(crate::specs::Judging::judged))]
pub fn judge(block: &[u8]) -> Result<u16, Refusal>
    ensures { Judges block.now result }
{
    if wrong_size(Bytes(block.len())) {
        return Err(Refusal::Size);
    }
    let stated = units::words_said(words::word_at(block, Words(0))).0;
    let there = words::count(block).0;
    if stated != there {
        return Err(Refusal::WordCount);
    }
    judge_words(block)
}
