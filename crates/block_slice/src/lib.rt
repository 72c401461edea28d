// Blocks that stand one after the other in a slice: each is judged where it starts, by the words that it states.
#![tactic(auto)]

ghost use Rattle.std.specs.Prelude.{◌≡◌, ◌<◌, ◌≤◌, length};
ghost use Rattle.std.proofs.Common.{arith};
ghost use Rattle.words.specs.Words.{words_of, word};
ghost use Rattle.block_slice.specs.Blocks.{wrong_first, judge_stated, judge_next};
ghost use Rattle.block_slice.specs.Cases.{slice_refusal_of, measured_of};
ghost use Rattle.block_slice.specs.declared.SliceRefusal.TheVariants.{Block};

use block::Refusal;
use units::{Answer, Bytes, Numbered, Words};

// Why a slice of blocks is refused: it is too long, block n runs past it, or a block's own refusal.
#[derive(Clone, Copy)]
pub enum SliceRefusal {
    Long,
    Cut(u16),
    Block(Refusal),
}

impl From<Refusal> for SliceRefusal {
    ghost from_gives = { λ r s. s ≡ Block r };

    fn from(r: Refusal) -> SliceRefusal {
        SliceRefusal::Block(r)
    }
}

impl Numbered for SliceRefusal {
    ghost numbers_of = { slice_refusal_of };

    ghost room = { 65536 };

    ghost packs = { Prim.omega arith };

    fn numbers(self) -> Answer {
        match self {
            SliceRefusal::Long => units::row(52, 0, 0, 0),
            SliceRefusal::Cut(number) => units::row(51, number, 0, 0),
            SliceRefusal::Block(own) => own.numbers(),
        }
    }
}

// The words that the next block says it has, the first of what is left of a slice.
pub fn stated_words(rest: &[u8]) -> Words
    requires { 2 ≤ length rest.now }
    ensures { (result.0 ≡ word (words_of rest.now) 1) × (result.0 < 65536) }
{
    units::words_said(words::word_at(rest, Words(0)))
}

// A first word that no block has.
fn wrong_first(stated: Words) -> bool
    ensures { result ≡ wrong_first stated.0 }
{
    !(18..=8000).contains(&stated.0)
}

// Judges block `number` by the words that it states.
// Kept: `rest` and `number` are two parameters, as the public `judge_next` has them.
#[tactic(auto, unfolding(crate::specs::Blocks::judge_stated))]
fn judge_stated(rest: &[u8], number: u16, stated: Words) -> Result<Bytes, SliceRefusal>
    requires { stated.0 < 65536 }
    ensures { measured_of result ≡ judge_stated number stated.0 rest.now }
{
    let size = units::bytes_of_words(stated);
    if rest.len() < size.0 {
        return Err(SliceRefusal::Cut(number));
    }
    block::judge(&rest[..size.0])?;
    Ok(size)
}

// Judges block `number`, the next of what is left of a slice.
#[tactic(auto, unfolding(crate::specs::Blocks::judge_next))]
pub fn judge_next(rest: &[u8], number: u16) -> Result<Bytes, SliceRefusal>
    requires { 0 < length rest.now }
    ensures { measured_of result ≡ judge_next number rest.now }
{
    if rest.len() == 1 {
        return Err(SliceRefusal::Cut(number));
    }
    let stated = stated_words(rest);
    if wrong_first(stated) {
        return Err(SliceRefusal::Block(Refusal::Size));
    }
    judge_stated(rest, number, stated)
}
