// The record words of a text. The same loop judges and writes: into a block of no bytes nothing is written.
#![tactic(auto)]

ghost use Rattle.std.specs.Prelude.{◌≡◌};
ghost use Rattle.read_first_line.specs.State.{to_come};
ghost use Rattle.read_records.specs.Content.{stored, stored_of, Ended};
ghost use Rattle.read_records.specs.Reading.{read_text};

use read_columns::{Flaw, Line};
use read_first_line::Next;
use units::{Bytes, Lines, Words};

// At the end of the text; `num` is one more than its last line.
fn at_end(next: Next, num: Lines) -> Result<Words, Flaw>
    ensures { Ended num.0 next.held.0 (to_come next.rest) result }
{
    let p = read_line::settled(next.rest);
    if 0 < p.cards.0 || 0 < p.left.0 {
        return Err(Flaw::Ends(num));
    }
    let held = next.held;
    if held.0 == 0 {
        return Err(Flaw::NoRecord);
    }
    Ok(held)
}

// Reads a text, line by line, and puts its words into the block behind its length word, as far as it has room.
#[tactic(auto, using(crate::proofs::Outcome::too_long))]
pub fn read(text: &[u8], block: &mut [u8]) -> Result<Words, Flaw>
    ensures { stored_of block.new result ≡ stored 0 block.old (read_text text.now) }
{
    if 65536 < text.len() {
        return Err(Flaw::Long);
    }
    let mut row = [0u16; 20];
    let mut next = Next {
        rest: read_first_line::cards_only(Lines(0)),
        held: Words(0),
    };
    let mut num = 1;
    let mut left = text;
    while !left.is_empty() {
        let cut = read_cut::next_line(left, Bytes(0));
        let line = Line {
            num: Lines(num),
            text: &left[..cut.end.0],
        };
        next = read_line::read_line(next, line, cut.plain, &mut row, block)?;
        // Kept: `num` is no index: it counts the lines beside a rest that shrinks, and no iterator lends them.
        num += 1;
        left = left.split_at(cut.next.0).1;
    }
    at_end(next, Lines(num))
}
