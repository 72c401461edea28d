// One record: its kind, what must be zero, its cards, and its lines.
#![tactic(auto)]

ghost use Rattle.std.specs.Prelude.{◌≡◌, ◌+◌, ◌<◌, ◌≤◌, length};
ghost use Rattle.std.proofs.Common.{arith};
ghost use Rattle.std.proofs.Math.Seq.{slice};
ghost use Rattle.words.specs.Words.{words_of};
ghost use Rattle.words.specs.Scans.{passing, word_within};
ghost use Rattle.record.specs.Judging.{TotalRight, wrong_total, wrong_data_total, judge_content, judge_cards, judge_counts, judge_data, judge_record};
ghost use Rattle.record.specs.Cases.{fault_of, checked_of};
ghost use Rattle.record.specs.Lines.{line_count};
ghost use Rattle.record.specs.Values.{is_value};

use counts::Counts;
use units::{Answer, Lines, Numbered, Words};

mod kind;

pub use crate::kind::Kind;

// What is wrong with a record: the record's number, and the word's where it varies.
#[derive(Clone, Copy)]
pub enum Fault {
    Short(u16),
    Kind(u16),
    Total(u16),
    NotZero(u16, u16),
    Card(u16, u16),
    Counts(u16, u16),
}

impl Numbered for Fault {
    ghost numbers_of = { fault_of };

    ghost room = { 65536 };

    ghost packs = { Prim.omega arith };

    fn numbers(self) -> Answer {
        match self {
            Fault::Short(k) => units::row(4, k, 1, 0),
            Fault::Kind(k) => units::row(5, k, 2, 0),
            Fault::Total(k) => units::row(6, k, 1, 0),
            Fault::NotZero(k, w) => units::row(7, k, w, 0),
            Fault::Card(k, w) => units::row(8, k, w, 0),
            Fault::Counts(k, w) => units::row(9, k, w, 0),
        }
    }
}

// LTOT of a Catalogue or a Header is no multiple of 40 from 40 on, or more than is left.
#[tactic(auto, unfolding(crate::specs::Judging::wrong_total))]
fn wrong_total(total: Words, left: Words) -> bool
    ensures { result ≡ wrong_total total.0 left.0 }
{
    total.0 < 40 || total.0 % 40 != 0 || left.0 < total.0
}

// Of the words after `from` up to `upto`, those before the first that has a byte outside of `least` to `most`.
fn passing_in(rest: &[u8], from: Words, upto: Words, least: u16, most: u16) -> Words
    requires { (from.0 ≤ upto.0) × (upto.0 ≤ length (words_of rest.now)) }
    ensures { result.0 ≡ passing (word_within least most) (slice from.0 upto.0 (words_of rest.now)) }
{
    words::first_outside(words::span(rest, from, upto), least, most)
}

// Kept: `rest` and `number` are two parameters, here and below: a struct of them is no plainer, since each clause and each call would take both out of it
// again (`words_of here.rest.now`, `words::word_at(here.rest, ..)`), while `judge_counts` takes the number alone and the public `judge_record` makes the struct.

// The content of a Catalogue or a Header of `total` words: zeros from word `first` to 40, then cards.
fn judge_content(rest: &[u8], number: u16, first: Words, total: Words) -> Result<Words, Fault>
    requires { TotalRight total.0 (length (words_of rest.now)) × (total.0 < 65536) × (1 ≤ first.0) × (first.0 ≤ 40) }
    ensures { checked_of result ≡ judge_content number first.0 total.0 (words_of rest.now) }
{
    let z = first.0;
    let zeros = passing_in(rest, Words(z - 1), Words(40), 0, 0).0;
    if zeros < 41 - z {
        let word = z + zeros;
        return Err(Fault::NotZero(number, word as u16));
    }
    let cards = passing_in(rest, Words(40), total, 32, 126).0;
    if cards < total.0 - 40 {
        let word = 41 + cards;
        return Err(Fault::Card(number, word as u16));
    }
    Ok(total)
}

// Kept: the clause of 16 words is here and in `judge_data` as it is in the public `line_count`, `is_value` and `counts::counts_of`, whose clauses may not change.

// A Catalogue or a Header, whose words from `first` to 40 must be zero.
#[tactic(auto, unfolding(crate::specs::Judging::judge_cards))]
fn judge_cards(rest: &[u8], number: u16, first: Words) -> Result<Words, Fault>
    requires { (16 ≤ length (words_of rest.now)) × (1 ≤ first.0) × (first.0 ≤ 40) }
    ensures { checked_of result ≡ judge_cards number first.0 (words_of rest.now) }
{
    let total = units::words_said(words::word_at(rest, Words(0)));
    if wrong_total(total, words::count(rest)) {
        return Err(Fault::Total(number));
    }
    judge_content(rest, number, first, total)
}

// A Data record of `total` words, by its counts.
#[tactic(auto, unfolding(crate::specs::Judging::judge_counts))]
fn judge_counts(number: u16, total: Words, c: Counts) -> Result<Words, Fault>
    ensures { checked_of result ≡ judge_counts number total.0 c }
{
    counts::in_range(c).map_err(|count| Fault::Counts(number, 13 + count as u16))?;
    let needed = counts::words_needed(c).0;
    if total.0 != needed {
        return Err(Fault::Counts(number, 1));
    }
    Ok(total)
}

// LTOT of a Data record is under 16, or more than is left.
fn wrong_data_total(total: Words, left: Words) -> bool
    ensures { result ≡ wrong_data_total total.0 left.0 }
{
    total.0 < 16 || left.0 < total.0
}

// A Data record.
#[tactic(auto, unfolding(crate::specs::Judging::judge_data))]
fn judge_data(rest: &[u8], number: u16) -> Result<Words, Fault>
    requires { 16 ≤ length (words_of rest.now) }
    ensures { checked_of result ≡ judge_data number (words_of rest.now) }
{
    let total = units::words_said(words::word_at(rest, Words(0)));
    if wrong_data_total(total, words::count(rest)) {
        return Err(Fault::Total(number));
    }
    judge_counts(number, total, counts::counts_of(rest))
}

// The record that stands first in the rest of the record words.
#[tactic(auto, unfolding(crate::specs::Judging::judge_record))]
pub fn judge_record(rest: &[u8], number: u16) -> Result<Words, Fault>
    ensures { checked_of result ≡ judge_record number (words_of rest.now) }
{
    let left = words::count(rest).0;
    if left < 16 {
        return Err(Fault::Short(number));
    }
    match Kind::of_word(words::word_at(rest, Words(1))) {
        Some(Kind::Catalogue) => judge_cards(rest, number, Words(13)),
        Some(Kind::Header) => judge_cards(rest, number, Words(16)),
        Some(Kind::Data) => judge_data(rest, number),
        None => Err(Fault::Kind(number)),
    }
}

// The lines of a good record.
#[tactic(auto, unfolding(crate::specs::Lines::line_count))]
pub fn line_count(whole: &[u8]) -> Lines
    requires { 16 ≤ length (words_of whole.now) }
    ensures { result.0 ≡ line_count (words_of whole.now) }
{
    if Kind::of_word(words::word_at(whole, Words(1))) == Some(Kind::Data) {
        counts::lines_needed(counts::counts_of(whole))
    } else {
        units::lines_of_cards(words::count(whole))
    }
}

// Word `word` of a good record may be amended.
#[tactic(auto, unfolding(crate::specs::Values::is_value))]
pub fn is_value(whole: &[u8], word: Words) -> bool
    requires { 16 ≤ length (words_of whole.now) }
    ensures { result ≡ is_value (words_of whole.now) word.0 }
{
    Kind::of_word(words::word_at(whole, Words(1))) == Some(Kind::Data)
        && counts::among_values(word, counts::counts_of(whole))
}
