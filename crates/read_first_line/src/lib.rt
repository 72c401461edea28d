// Reads a record's first line, which says what is to come of the record, and puts its words into a block as far as that has room.
#![tactic(auto)]

ghost use Rattle.std.specs.Prelude.{◌≡◌, ◌∷◌, ◌++◌, map, ◌-◌, ◌≤◌, ◌<◌, min, length, get_or, take, drop, replicate, Ok};
ghost use Rattle.words.specs.Words.{most_record_words};
ghost use Rattle.counts.specs.Counts.{counts_of, words_needed};
ghost use Rattle.record.specs.Kinds.{kind_word};
ghost use Rattle.line_plan.specs.Plan.{plan};
ghost use Rattle.read_columns.specs.Cases.{tested_of};
ghost use Rattle.read_first_line.specs.FirstLine.{card, fields, cards, counts, counts_in, count_fields, header_fields, prologue_fields, data_fields, kind_fields, first_fields, cards_room, data_room, cards_given, data_given, head_line, first_line};
ghost use Rattle.read_first_line.specs.State.{to_come, Moved, put, Lent, LentCards, LentData, CardLines, further_fields, head_in, headed_of};

use counts::Counts;
use read_columns::{Flaw, Line};
use record::Kind;
use units::{Lines, Words};

// Parts that are not begun: how many, and the fields of each.
#[derive(Clone, Copy)]
pub struct Parts {
    pub count: usize,
    pub width: Words,
}

// What is to come of a record: cards; or fields of the present part, then the 1-D parts, and the 2-D parts, codes and rows.
// Kept: counts, and no enum of cards or fields: nothing to come would have two forms, no cards and no fields, and `settled`, `by_rest` and `at_end` would still test the counts within each case.
#[derive(Clone, Copy)]
pub struct Rest {
    pub cards: Lines,
    pub left: Words,
    pub singles: Parts,
    pub rows: Parts,
}

// Between two lines: what is to come, and the record words so far.
// Kept: that `held` leaves its count in range (`Lent`) may not become an invariant: the public `first_line` and `read_line` ask it by `requires`, and `read_line` may give back more words held, of a record that has no room.
#[derive(Clone, Copy)]
pub struct Next {
    pub rest: Rest,
    pub held: Words,
}

// `cards` cards are to come.
#[tactic(auto, unfolding(crate::specs::State::lines_left, crate::specs::State::to_come, line_plan::specs::Plan::part, line_plan::specs::Plan::times))]
pub fn cards_only(cards: Lines) -> Rest
    ensures { to_come result ≡ replicate cards.0 card }
{
    let none = Parts {
        count: 0,
        width: Words(0),
    };
    Rest {
        cards,
        left: Words(0),
        singles: none,
        rows: none,
    }
}

// A Header's fields behind the first 12.
#[tactic(auto, unfolding(crate::specs::FirstLine::header_fields))]
fn header_fields(line: Line, row: &mut [u16; 20]) -> Result<(), Flaw>
    ensures { tested_of (cards 3002 (take 15 row.new)) result ≡ header_fields line.entry.num.0 line.entry.text.now (take 12 row.old) }
{
    line.read_numbers(Words(12), Words(3), row)?;
    line.zero_fields(Words(15), Words(5))
}

// The counts among the fields of a Data record's first line.
// Kept: `counts::counts_of` takes them from a record's bytes, and this from numbers: a function for both would take four words and do nothing.
fn row_counts(row: &[u16]) -> Counts
    requires { 16 ≤ length row.now }
    ensures { result ≡ counts_of row.now }
{
    Counts {
        lprol: row[12],
        jpar: row[13],
        mpar: row[14],
        nrow: row[15],
    }
}

// A Data record's four counts.
#[tactic(auto, unfolding(crate::specs::FirstLine::counts_in))]
fn counts_in(num: Lines, row: &[u16; 20]) -> Result<(), Flaw>
    ensures { tested_of (take 16 row.now) result ≡ counts_in num.0 (take 16 row.now) }
{
    counts::in_range(row_counts(row)).map_err(|count| {
        Flaw::Range(num, read_columns::column_of(Words(12 + count as usize)))
    })
}

// A Data record's four counts, read and tested.
#[tactic(auto, unfolding(crate::specs::FirstLine::count_fields))]
fn count_fields(line: Line, row: &mut [u16; 20]) -> Result<(), Flaw>
    ensures { tested_of (take 16 row.new) result ≡ count_fields line.entry.num.0 line.entry.text.now (take 12 row.old) }
{
    line.read_numbers(Words(12), Words(4), row)?;
    counts_in(line.num, row)
}

// A Data record's fields behind its counts, and nothing behind them.
#[tactic(auto, unfolding(crate::specs::FirstLine::prologue_fields))]
fn prologue_fields(line: Line, row: &mut [u16; 20]) -> Result<(), Flaw>
    requires { 16 ≤ get_or row.old 12 0 }
    ensures { tested_of (counts (take (min (get_or row.new 12 0) 20) row.new)) result ≡ prologue_fields line.entry.num.0 line.entry.text.now (take 16 row.old) }
{
    let used = line_plan::on_line(units::words_said(row[12]));
    let more = used.0 - 16;
    line.read_numbers(Words(16), Words(more), row)?;
    line.blank_after(units::columns_of_fields(used))
}

// A Data record's fields behind the first 12.
#[tactic(auto, unfolding(crate::specs::FirstLine::data_fields))]
fn data_fields(line: Line, row: &mut [u16; 20]) -> Result<(), Flaw>
    ensures { tested_of (counts (take (min (get_or row.new 12 0) 20) row.new)) result ≡ data_fields line.entry.num.0 line.entry.text.now (take 12 row.old) }
{
    count_fields(line, row)?;
    prologue_fields(line, row)
}

// The further fields that a kind always has.
#[tactic(auto, unfolding(crate::specs::FirstLine::catalogue_fields))]
fn further_fields(kind: Kind, line: Line, row: &mut [u16; 20]) -> Result<(), Flaw>
    ensures { tested_of (head_in kind row.new) result ≡ further_fields line.entry.num.0 line.entry.text.now (take 12 row.old) kind }
{
    match kind {
        Kind::Catalogue => line.zero_fields(Words(12), Words(8)),
        Kind::Header => header_fields(line, row),
        Kind::Data => data_fields(line, row),
    }
}

// A record's fields behind the first 12, which say its kind.
#[tactic(auto, unfolding(crate::specs::FirstLine::kind_fields))]
fn kind_fields(line: Line, row: &mut [u16; 20]) -> Result<Kind, Flaw>
    ensures { headed_of row.new result ≡ kind_fields line.entry.num.0 line.entry.text.now (take 12 row.old) }
{
    let kind = Kind::of_shown(row[1]).ok_or(Flaw::Kind(line.num))?;
    further_fields(kind, line, row)?;
    Ok(kind)
}

// The fields of a record's first line, into the row.
#[tactic(auto, unfolding(crate::specs::FirstLine::first_fields))]
fn first_fields(line: Line, row: &mut [u16; 20]) -> Result<Kind, Flaw>
    ensures { headed_of row.new result ≡ first_fields line.entry.num.0 line.entry.text.now }
{
    line.read_numbers(Words(0), Words(12), row)?;
    kind_fields(line, row)
}

// Puts a record's first words: LTOT, its kind, and the fields of its first line from field 3 on.
// Kept: `held`, `line`, `row` and `block` are parameters, here and in `read_line`, as the public `first_line` has them; a struct of lent slices is no plainer: each caller would make it and take them out again, as was found with a struct in report.
// Kept: that `total` fits a word is asked beside it: the public functions of units take and give `Words` of any count, and may not ask an invariant of it.
fn put_head(total: Words, kind: Kind, row: &[u16], block: &mut [u8], held: Words)
    requires { (total.0 < 65536) × (length row.now ≤ 20) × Lent held.0 }
    ensures { block.new ≡ put held.0 block.old (total.0 ∷ (kind_word kind ∷ drop 2 row.now)) }
{
    let first = held.0 + 1;
    let second = first + 1;
    let third = second + 1;
    let size = row.len();
    read_store::store_word(units::saying_words(total), block, Words(first));
    read_store::store_word(kind.word(), block, Words(second));
    read_store::store_words(row, Words(2), Words(size), block, Words(third));
}

// Puts the 40 words of a Catalogue's or a Header's first line: what its fields do not give is zero.
// Kept: `LentCards`, and `LentData` below, are asked of the fields that count, a part of the row: 12, 15 or LPROL of them, so that no array type says it.
fn put_cards_head(total: Words, kind: Kind, row: &[u16], block: &mut [u8], held: Words)
    requires { (total.0 < 65536) × LentCards row.now held.0 }
    ensures { block.new ≡ put held.0 block.old (total.0 ∷ (kind_word kind ∷ drop 2 row.now) ++ replicate (40 - length row.now) 0) }
{
    let left = 40 - row.len();
    let next = held.0 + 1 + row.len();
    put_head(total, kind, row, block, held);
    let at = units::bytes_of_words(Words(next));
    let size = units::bytes_of_words(Words(left));
    read_store::store_filling(0, size, block, at);
}

// A Catalogue's or a Header's stated line count may stand, and there is room for that many.
#[tactic(auto, unfolding(crate::specs::FirstLine::cards_room))]
fn cards_room(num: Lines, held: Words, stated: u16) -> Result<(), Flaw>
    requires { Lent held.0 }
    ensures { tested_of tt result ≡ cards_room num.0 held.0 stated }
{
    if !(1..=199).contains(&stated) {
        return Err(Flaw::Count(num));
    }
    let all = held.0 + units::words_of_cards(units::lines_said(stated)).0;
    if words::MOST_RECORD_WORDS < all {
        return Err(Flaw::Much(num));
    }
    Ok(())
}

// Puts the words of a Catalogue's or a Header's first line.
fn put_cards(kind: Kind, held: Words, row: &[u16], block: &mut [u8]) -> Next
    requires { LentCards row.now held.0 × CardLines (get_or row.now 0 0) }
    ensures { Moved held.0 block.old (cards_given (kind_word kind) row.now) block.new (Ok result) }
{
    let lines = units::lines_said(row[0]);
    let cards = lines.0 - 1;
    let behind = held.0 + 40;
    put_cards_head(units::words_of_cards(lines), kind, row, block, held);
    Next {
        rest: cards_only(Lines(cards)),
        held: Words(behind),
    }
}

// A Catalogue or a Header, of whose fields those in the row count.
#[tactic(auto, unfolding(crate::specs::FirstLine::cards_room))]
fn cards_line(
    num: Lines,
    held: Words,
    kind: Kind,
    row: &[u16],
    block: &mut [u8],
) -> Result<Next, Flaw>
    requires { LentCards row.now held.0 }
    ensures { Moved held.0 block.old (head_line num.0 held.0 (cards (kind_word kind) row.now)) block.new result }
{
    cards_room(num, held, row[0])?;
    Ok(put_cards(kind, held, row, block))
}

// There is room for a Data record with these counts, and its stated line count is what they need.
#[tactic(auto, unfolding(crate::specs::FirstLine::data_room))]
fn data_room(num: Lines, held: Words, lines: u16, c: Counts) -> Result<(), Flaw>
    requires { Lent held.0 }
    ensures { tested_of tt result ≡ data_room num.0 held.0 lines c }
{
    let all = held.0 + counts::words_needed(c).0;
    if words::MOST_RECORD_WORDS < all {
        return Err(Flaw::Much(num));
    }
    if units::lines_said(lines).0 != counts::lines_needed(c).0 {
        return Err(Flaw::Count(num));
    }
    Ok(())
}

// What is to come of a Data record after the fields of its first line.
#[tactic(auto, using(crate::proofs::Coming::plan_less), unfolding(crate::specs::State::lines_left, crate::specs::State::to_come))]
fn behind_first(used: usize, c: Counts) -> Rest
    requires { (used ≡ min c.lprol 20) × (0 < c.lprol) }
    ensures { to_come result ≡ map fields (drop 1 (plan c)) }
{
    // Kept: widened by `as`, as in `write_parts::write_tables`, where `usize::from` made each answer longer.
    let left = c.lprol as usize - used;
    let rows = c.nrow as usize + 1;
    Rest {
        cards: Lines(0),
        left: Words(left),
        singles: Parts {
            count: 2,
            width: units::words_said(c.jpar),
        },
        rows: Parts {
            count: rows,
            width: units::words_said(c.mpar),
        },
    }
}

// Puts the words of a Data record's first line.
fn put_data(held: Words, row: &[u16], block: &mut [u8]) -> Next
    requires { LentData row.now held.0 × (words_needed (counts_of row.now) ≤ most_record_words) }
    ensures { Moved held.0 block.old (data_given row.now) block.new (Ok result) }
{
    let c = row_counts(row);
    let behind = held.0 + row.len();
    put_head(counts::words_needed(c), Kind::Data, row, block, held);
    Next {
        rest: behind_first(row.len(), c),
        held: Words(behind),
    }
}

// A Data record whose counts are in range.
#[tactic(auto, unfolding(crate::specs::FirstLine::data_room))]
fn data_line(num: Lines, held: Words, row: &[u16], block: &mut [u8]) -> Result<Next, Flaw>
    requires { LentData row.now held.0 }
    ensures { Moved held.0 block.old (head_line num.0 held.0 (counts row.now)) block.new result }
{
    data_room(num, held, row[0], row_counts(row))?;
    Ok(put_data(held, row, block))
}

// A record's first line: its fields, then its counts.
#[tactic(auto, unfolding(crate::specs::FirstLine::first_line))]
pub fn first_line(
    line: Line,
    held: Words,
    row: &mut [u16; 20],
    block: &mut [u8],
) -> Result<Next, Flaw>
    requires { Lent held.0 }
    ensures { Moved held.0 block.old (first_line line.entry.num.0 held.0 line.entry.text.now) block.new result }
{
    let kind = first_fields(line, row)?;
    match kind {
        Kind::Catalogue => cards_line(line.num, held, kind, &row[..12], block),
        Kind::Header => cards_line(line.num, held, kind, &row[..15], block),
        Kind::Data => {
            let used = line_plan::on_line(units::words_said(row[12])).0;
            data_line(line.num, held, &row[..used], block)
        }
    }
}
