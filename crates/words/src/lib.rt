// 16-bit words in bytes, high byte first: read, put, sealed in a block; scans of them, and bytes put into a buffer.
#![tactic(auto)]

ghost use Rattle.std.specs.Prelude.{◌≡◌, ◌∷◌, [], ◌++◌, ◌+◌, ◌<◌, ◌≤◌, length, get_or, drop};
ghost use Rattle.std.specs.Int.{w16, from_be_bytes};
ghost use Rattle.std.proofs.lemmas.List.Edits.{sets};
ghost use Rattle.std.proofs.Math.Seq.{slice};
ghost use Rattle.units.specs.Units.{bytes_of_words};
ghost use Rattle.words.specs.Scans.{passing, word_within};
ghost use Rattle.words.specs.Writing.{Room, Put};
ghost use Rattle.words.specs.Words.{words_of, bytes_of, pair_words, xor_all, words, most_record_words, block_from, All, Below};

use units::{Bytes, Words};

// The most record words that a block has room for: all its words but the first and the last.
pub const MOST_RECORD_WORDS: usize = 7998;

// The whole words of a part of a block.
pub fn count(part: &[u8]) -> Words
    ensures { result.0 ≡ length (words_of part.now) }
{
    units::words_of_bytes(Bytes(part.len()))
}

// The words of a part, as their two bytes, high byte first.
pub fn pairs(part: &[u8]) -> &[[u8; 2]]
    ensures words { pair_words result.now ≡ words_of part.now }
    ensures bytes { All (Below 256) result.now }
{
    part.as_chunks().0
}

// The word with `at` words before it.
pub fn word_at(part: &[u8], at: Words) -> u16
    requires { at.0 < length (words_of part.now) }
    ensures { result ≡ get_or (words_of part.now) at.0 0 }
{
    u16::from_be_bytes(pairs(part)[at.0])
}

// The words after `from` up to `upto`, as a part of the bytes.
pub fn span(whole: &[u8], from: Words, upto: Words) -> &[u8]
    requires { (from.0 ≤ upto.0) × (upto.0 ≤ length (words_of whole.now)) }
    ensures { result.now ≡ slice (bytes_of_words from.0) (bytes_of_words upto.0) whole.now }
{
    let start = units::bytes_of_words(from).0;
    let end = units::bytes_of_words(upto).0;
    &whole[start..end]
}

// Puts a word after `at` words; all other bytes stay.
pub fn put_word(part: &mut [u8], at: Words, w: u16)
    requires { at.0 < length (words_of part.old) }
    ensures { part.new ≡ sets part.old (bytes_of_words at.0) (bytes_of (w ∷ [])) }
{
    write_bytes(&w.to_be_bytes(), part, units::bytes_of_words(at));
}

// The exclusive or of all words of a part: the fold takes them as the machine reads them, low byte first, and is swapped once.
pub fn exclusive_or(part: &[u8]) -> u16
    ensures { result ≡ xor_all (words_of part.now) }
{
    pairs(part)
        .iter()
        .fold(0, |x, pair| x ^ u16::from_le_bytes(*pair))
        .swap_bytes()
}

// Both bytes of a word lie from `least` to `most`.
fn word_within(pair: [u8; 2], least: u16, most: u16) -> bool
    ensures { result ≡ word_within least most (from_be_bytes w16 pair) }
{
    let [high, low] = pair;
    let within = least..=most;
    within.contains(&u16::from(high)) && within.contains(&u16::from(low))
}

// The words before the first of `part` that has a byte outside of `least` to `most`.
pub fn first_outside(part: &[u8], least: u16, most: u16) -> Words
    ensures { result.0 ≡ passing (word_within least most) (words_of part.now) }
{
    let words = pairs(part);
    let found = words
        .iter()
        .position(|pair| !word_within(*pair, least, most));
    Words(found.unwrap_or(words.len()))
}

// Puts all of `text` at a place; all other bytes stay.
// Kept: a loop and not `copy_from_slice`, which calls `memmove`: of the C library the archive may need `memset` alone (include/cedar.h).
pub fn write_bytes(text: &[u8], out: &mut [u8], at: Bytes) -> Bytes
    requires { Room out.old at.0 text.now }
    ensures { Put out.old at.0 text.now out.new result.0 }
{
    for (i, byte) in text.iter().enumerate() {
        out[at.0 + i] = *byte;
    }
    Bytes(at.0 + text.len())
}

// Puts the length word before `records` record words, and the checksum after them; all bytes past those stay.
pub fn seal(block: &mut [u8], records: Words)
    requires { (records.0 ≤ most_record_words) × (bytes_of_words (records.0 + 2) ≤ length block.old) }
    ensures { block.new ≡ block_from (words (words_of block.old) 2 (records.0 + 1)) ++ drop (bytes_of_words (records.0 + 2)) block.old }
{
    let n = records.0;
    let last = n + 1;
    let all = n + 2;
    put_word(block, Words(0), units::saying_words(Words(all)));
    let checksum = exclusive_or(span(block, Words(0), Words(last)));
    put_word(block, Words(last), checksum);
}
