// Reads a line of a text, by what is to come of a record, and puts its words into a block as far as that has room.
#![tactic(auto)]

ghost use Rattle.std.specs.Prelude.{◌≡◌, [], ◌∷◌, ◌++◌, ◌≤◌, ◌<◌, min, length, take, MatchOption};
ghost use Rattle.words.specs.Words.{words_of};
ghost use Rattle.words.specs.Scans.{plain_in};
ghost use Rattle.line_plan.specs.Plan.{part};
ghost use Rattle.field.specs.Reading.{columns};
ghost use Rattle.read_columns.specs.Cases.{tested_of};
ghost use Rattle.read_first_line.specs.FirstLine.{card, fields};
ghost use Rattle.read_first_line.specs.State.{lines_of, to_come, Moved, put, Lent};
ghost use Rattle.read_line.specs.Lines.{later_fields, in_state, read_line};
ghost use Rattle.read_line.specs.State.{Settled, FieldsNext};

use read_columns::{Flaw, Line};
use read_first_line::{Next, Parts, Rest};
use units::{Bytes, Lines, Words};

// The parts behind the next one that has fields, if one has.
#[tactic(auto, unfolding(line_plan::specs::Plan::times, line_plan::specs::Plan::part))]
fn begun(parts: Parts) -> Option<Parts>
    ensures { MatchOption result (lines_of parts ≡ []) (λ more. (lines_of parts ≡ part more.width.0 ++ lines_of more) × (0 < more.width.0)) }
{
    if 0 < parts.count && 0 < parts.width.0 {
        return Some(Parts {
            count: parts.count - 1,
            ..parts
        });
    }
    None
}

// Where the present part is used up, the next one that has fields.
pub fn settled(p: Rest) -> Rest
    ensures { (to_come result ≡ to_come p) × Settled result }
{
    if 0 < p.left.0 {
        return p;
    }
    if let Some(singles) = begun(p.singles) {
        return Rest {
            left: singles.width,
            singles,
            ..p
        };
    }
    if let Some(rows) = begun(p.rows) {
        return Rest {
            left: rows.width,
            rows,
            ..p
        };
    }
    p
}

// Puts the 80 columns of a card: those that the line lacks are blank.
// Kept: one copy of `text.len().min(80)` bytes, with or without the test, took a tenth more instructions to write a text of cards.
fn put_card(text: &[u8], held: Words, block: &mut [u8])
    requires { Lent held.0 }
    ensures { block.new ≡ put held.0 block.old (words_of (columns 80 text.now 0)) }
{
    let first = held.0 + 1;
    let at = units::bytes_of_words(Words(first)).0;
    if 80 <= text.len() {
        read_store::store_bytes(&text[..80], block, Bytes(at));
        return;
    }
    let size = text.len();
    read_store::store_bytes(text, block, Bytes(at));
    read_store::store_filling(b' ', Bytes(80 - size), block, Bytes(at + size));
}

// A card.
#[tactic(auto, using(crate::proofs::ToCome::card_less, crate::proofs::Later::card_size), unfolding(crate::specs::Lines::in_state))]
fn card_line(at: Next, line: Line, block: &mut [u8]) -> Result<Next, Flaw>
    requires { (0 < at.rest.cards.0) × Lent at.held.0 }
    ensures { Moved at.held.0 block.old (in_state line.entry.num.0 at.held.0 (to_come at.rest) line.entry.text.now) block.new result }
{
    line.blank_after(Bytes(80))?;
    put_card(line.text, at.held, block);
    Ok(Next {
        rest: one_card_less(at.rest),
        held: Words(at.held.0 + 40),
    })
}

// What is to come after a card.
#[tactic(auto, unfolding(read_first_line::specs::State::lines_left, read_first_line::specs::State::to_come))]
fn one_card_less(p: Rest) -> Rest
    requires { 0 < p.cards.0 }
    ensures { to_come p ≡ card ∷ to_come result }
{
    Rest {
        cards: Lines(p.cards.0 - 1),
        ..p
    }
}

// The fields of a later line of a Data record, and nothing behind them.
#[tactic(auto, unfolding(crate::specs::Lines::later_fields))]
fn later_fields(count: Words, line: Line, row: &mut [u16; 20]) -> Result<(), Flaw>
    requires { count.0 ≤ 20 }
    ensures { tested_of (take count.0 row.new) result ≡ later_fields line.entry.num.0 line.entry.text.now count.0 }
{
    line.read_numbers(Words(0), count, row)?;
    line.blank_after(units::columns_of_fields(count))
}

// A later line of a Data record.
#[tactic(auto, using(crate::proofs::ToCome::fields_less), unfolding(crate::specs::Lines::in_state))]
fn fields_line(at: Next, line: Line, row: &mut [u16; 20], block: &mut [u8]) -> Result<Next, Flaw>
    requires { FieldsNext at.rest × Lent at.held.0 }
    ensures { Moved at.held.0 block.old (in_state line.entry.num.0 at.held.0 (to_come at.rest) line.entry.text.now) block.new result }
{
    let count = line_plan::on_line(at.rest.left);
    later_fields(count, line, row)?;
    let first = at.held.0 + 1;
    read_store::store_words(row, Words(0), count, block, Words(first));
    Ok(Next {
        rest: one_line_less(at.rest, count),
        held: Words(at.held.0 + count.0),
    })
}

// What is to come after a line of the present part.
#[tactic(auto, using(crate::proofs::ToCome::fields_less), unfolding(read_first_line::specs::State::lines_left, read_first_line::specs::State::to_come))]
fn one_line_less(p: Rest, count: Words) -> Rest
    requires { FieldsNext p × (count.0 ≡ min p.left.0 20) }
    ensures { to_come p ≡ fields count.0 ∷ to_come result }
{
    Rest {
        left: Words(p.left.0 - count.0),
        ..p
    }
}

// A line where a record may begin: a blank one, or a record's first.
#[tactic(auto, unfolding(crate::specs::Lines::in_state, words::specs::Words::bytes_of))]
fn between(at: Next, line: Line, row: &mut [u16; 20], block: &mut [u8]) -> Result<Next, Flaw>
    requires { (to_come at.rest ≡ []) × Lent at.held.0 }
    ensures { Moved at.held.0 block.old (in_state line.entry.num.0 at.held.0 [] line.entry.text.now) block.new result }
{
    if line.blank_line() {
        return Ok(at);
    }
    read_first_line::first_line(line, at.held, row, block)
}

// Any line that row 20 accepts.
#[tactic(auto, using(crate::proofs::Later::nothing_left))]
fn by_rest(at: Next, line: Line, row: &mut [u16; 20], block: &mut [u8]) -> Result<Next, Flaw>
    requires { Lent at.held.0 }
    ensures { Moved at.held.0 block.old (in_state line.entry.num.0 at.held.0 (to_come at.rest) line.entry.text.now) block.new result }
{
    let rest = settled(at.rest);
    let here = Next { rest, ..at };
    if 0 < rest.cards.0 {
        return card_line(here, line, block);
    }
    if 0 < rest.left.0 {
        return fields_line(here, line, row, block);
    }
    between(here, line, row, block)
}

// Any line, which begins with `plain` plain bytes.
// Kept: `plain` is a parameter and no field of `Line`: that it counts the line's plain bytes may not become an invariant: the public `read_line` and `plain_to` ask it by `requires`.
// Kept: the test of `Line::blank_after` once more, for another refusal: one method for both would be handed a function that makes the refusal, and is longer than the test.
#[tactic(auto, unfolding(crate::specs::Lines::read_line, read_columns::specs::Columns::plain_line, read_columns::specs::Columns::right_to))]
pub fn read_line(
    at: Next,
    line: Line,
    plain: Bytes,
    row: &mut [u16; 20],
    block: &mut [u8],
) -> Result<Next, Flaw>
    requires { Lent at.held.0 × (plain.0 ≡ plain_in line.text.now) }
    ensures { Moved at.held.0 block.old (read_line line.entry.num.0 at.held.0 (to_come at.rest) line.entry.text.now) block.new result }
{
    let right = line.plain_to(plain).0;
    if right < line.text.len() {
        let column = right + 1;
        return Err(Flaw::Byte(line.num, Bytes(column)));
    }
    by_rest(at, line, row, block)
}
