// The four counts of a Data record: which words they are, whether they are in range, and what they need.
#![tactic(auto)]

ghost use Rattle.std.specs.Prelude.{◌≡◌, ◌≤◌, length};
ghost use Rattle.words.specs.Words.{words_of};
ghost use Rattle.counts.specs.Counts.{counts_of, words_needed, lines_needed, under_least, in_range, range_of, among_values};

use units::{Lines, Words};

// The four counts of a Data record: its prologue, its 1-D parameters, its 2-D parameters, its rows.
#[derive(Clone, Copy)]
pub struct Counts {
    pub lprol: u16,
    pub jpar: u16,
    pub mpar: u16,
    pub nrow: u16,
}

// One of the four, in their order.
#[derive(Clone, Copy)]
pub enum Count {
    Lprol,
    Jpar,
    Mpar,
    Nrow,
}

// The four counts of a Data record.
// Kept: the clause of 16 words stands here and in `record`, as it stood: it may not change where a function is public.
pub fn counts_of(whole: &[u8]) -> Counts
    requires { 16 ≤ length (words_of whole.now) }
    ensures { result ≡ counts_of (words_of whole.now) }
{
    let lprol = words::word_at(whole, Words(12));
    let jpar = words::word_at(whole, Words(13));
    let mpar = words::word_at(whole, Words(14));
    let nrow = words::word_at(whole, Words(15));
    Counts {
        lprol,
        jpar,
        mpar,
        nrow,
    }
}

// The words that the counts need, in a width that holds them.
pub fn words_needed(c: Counts) -> Words
    ensures { result.0 ≡ words_needed c }
{
    let rows = usize::from(c.mpar) * (usize::from(c.nrow) + 1);
    let sum = usize::from(c.lprol) + 2 * usize::from(c.jpar) + rows;
    Words(sum)
}

// A count is under its least value: words are two's complement.
#[tactic(auto, unfolding(crate::specs::Counts::under_least))]
fn under(least: u16, w: u16) -> bool
    ensures { result ≡ under_least least w }
{
    w < least || 32768 <= w
}

// The first of the four counts that is under its least value.
#[tactic(auto, unfolding(crate::specs::Counts::in_range))]
pub fn in_range(c: Counts) -> Result<(), Count>
    ensures { range_of result ≡ in_range c }
{
    if under(16, c.lprol) {
        return Err(Count::Lprol);
    }
    if under(0, c.jpar) {
        return Err(Count::Jpar);
    }
    if under(0, c.mpar) {
        return Err(Count::Mpar);
    }
    if under(0, c.nrow) {
        return Err(Count::Nrow);
    }
    Ok(())
}

// The lines that the counts need.
pub fn lines_needed(c: Counts) -> Lines
    ensures { result.0 ≡ lines_needed c }
{
    let prologue = units::lines_of_fields(units::words_said(c.lprol)).0;
    let single = units::lines_of_fields(units::words_said(c.jpar)).0;
    let row = units::lines_of_fields(units::words_said(c.mpar)).0;
    let rows = row * (usize::from(c.nrow) + 1);
    Lines(prologue + 2 * single + rows)
}

// Word `word` of a Data record with these counts is a 1-D or a 2-D value.
pub fn among_values(word: Words, c: Counts) -> bool
    ensures { result ≡ among_values c word.0 }
{
    let w = word.0;
    let codes = usize::from(c.lprol) + usize::from(c.jpar);
    let values = codes + usize::from(c.jpar);
    let row_codes = values + usize::from(c.mpar);
    let last = words_needed(c).0;
    (codes + 1..=values).contains(&w) || (row_codes + 1..=last).contains(&w)
}
