// What the listing program prints: a line for each record of a block, or the line of a refusal.
#![tactic(auto)]

ghost use Rattle.std.specs.Prelude.{[], ◌∷◌, ◌<◌};
ghost use Rattle.words.specs.Words.{words_of, most_words};
ghost use Rattle.words.specs.Writing.{Room, Put};
ghost use Rattle.block.specs.Rules.{BlockRecord};
ghost use Rattle.block.specs.Judging.{Accepted};
ghost use Rattle.block.specs.Records.{records_of};
ghost use Rattle.prefix.specs.Table.{prefix_of};
ghost use Rattle.report.specs.Text.{behind};
ghost use Rattle.listed.specs.Listing.{signed_of, letters_of, front_of, row_of, rows_of};
ghost use Rattle.listed.specs.Promises.{PrintsListing};

use units::{Bytes, Numbered, Words};

// Bytes that suffice for any listing.
pub const LISTING_BYTES: usize = 32768;

// Puts the number that a word stands for in two's complement.
// Kept: the sign is taken off here and in `field::split`: they share one test, and what follows it, a lead for a column or a text, differs.
// Kept: `out` and `at` are two parameters, here and below: a struct of the two was tried in `report`: it proves, no clause or proof gets shorter, and each caller makes the struct and takes its place out again.
fn write_signed(w: u16, out: &mut [u8], at: Bytes) -> Bytes
    requires { Room out.old at.0 (signed_of w) }
    ensures { Put out.old at.0 (signed_of w) out.new result.0 }
{
    let value = u32::from(w);
    if value < 32768 {
        return report::write_number(value, out, at);
    }
    let to = words::write_bytes(b"-", out, at);
    let size = u32::from(w.wrapping_neg());
    report::write_number(size, out, to)
}

// Puts the end of a record's line: the instrument and its prefix.
fn write_instrument(w: u16, out: &mut [u8], at: Bytes) -> Bytes
    requires { Room out.old at.0 (behind (signed_of w ∷ (letters_of (prefix_of w) ∷ []))) }
    ensures { Put out.old at.0 (behind (signed_of w ∷ (letters_of (prefix_of w) ∷ []))) out.new result.0 }
{
    let letters = prefix::prefix_of(w);
    let to = words::write_bytes(b" ", out, at);
    let to = write_signed(w, out, to);
    words::write_bytes(&[b' ', letters.0, letters.1, letters.2, b'\n'], out, to)
}

// Puts the line of a good record up to its count of lines.
// Kept: `Accepted` and `BlockRecord`, here and below, are asked of bytes, for the reasons that write_lines tells.
fn write_front(number: u32, before: Words, whole: &[u8], out: &mut [u8], at: Bytes) -> Bytes
    requires { (before.0 < most_words) × BlockRecord (words_of whole.now) × Room out.old at.0 (front_of number before.0 (words_of whole.now)) }
    ensures { Put out.old at.0 (front_of number before.0 (words_of whole.now)) out.new result.0 }
{
    let position = (before.0 + 1) as u32;
    let kind = u32::from(words::word_at(whole, Words(1)));
    let count = words::count(whole).0 as u32;
    let lines = record::line_count(whole).0 as u32;
    let to = report::write_number(number, out, at);
    report::write_spaced(&[position, kind, count, lines], out, to)
}

// Puts the line of a good record.
fn write_row(number: u32, before: Words, whole: &[u8], out: &mut [u8], at: Bytes) -> Bytes
    requires { (before.0 < most_words) × BlockRecord (words_of whole.now) × Room out.old at.0 (row_of number before.0 (words_of whole.now)) }
    ensures { Put out.old at.0 (row_of number before.0 (words_of whole.now)) out.new result.0 }
{
    let instrument = words::word_at(whole, Words(2));
    let to = write_front(number, before, whole, out, at);
    write_instrument(instrument, out, to)
}

// Puts the lines of an accepted block's records.
// Kept: the place is counted beside the walk, which lends each record as bytes, without its place: an iterator of places would be `step` again.
fn write_listing(block: &[u8], out: &mut [u8]) -> Bytes
    requires { Accepted block.now × Room out.old 0 (rows_of 1 1 (records_of block.now)) }
    ensures { Put out.old 0 (rows_of 1 1 (records_of block.now)) out.new result.0 }
{
    let mut at = 1;
    let mut to = Bytes(0);
    for (number, whole) in (1u32..).zip(block_steps::records(block)) {
        to = write_row(number, Words(at), whole, out, to);
        at += words::count(whole).0;
    }
    to
}

// Puts the listing of a block, or the line of its refusal.
pub fn print_listing(block: &[u8], out: &mut [u8; LISTING_BYTES]) -> Bytes
    ensures { PrintsListing block.now out.old result.0 out.new }
{
    match block::judge(block) {
        Ok(_) => write_listing(block, out),
        Err(refusal) => report::write_refusal(refusal.numbers(), out, Bytes(0)),
    }
}
