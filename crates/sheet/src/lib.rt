// The amendment sheet: its layout, its entries, and starting one.
#![tactic(auto)]

ghost use Rattle.std.specs.Prelude.{◌≡◌, not, [], ◌∷◌, ◌++◌, ◌+◌, ◌*◌, ◌≤◌, ◌<◌, length, get_or, take, drop};
ghost use Rattle.std.proofs.Common.{arith};
ghost use Rattle.std.proofs.lemmas.List.Edits.{sets};
ghost use Rattle.units.specs.Units.{bytes_of_words};
ghost use Rattle.words.specs.Words.{bytes_of};
ghost use Rattle.sheet.specs.Sheets.{version1, sheet_bytes, sheet_of, number_at, numbers_in, entries_of, all_zero, broken};
ghost use Rattle.sheet.specs.Rules.{KeepsLayout, Holds};
ghost use Rattle.sheet.specs.Cases.{entry_of, broken_of};
ghost use Rattle.sheet.specs.Promises.{OpensSheet, StartsSheet};

use units::{Answer, Bytes, Numbered, Words};

const VERSION: u16 = 1;

// The bytes of a sheet.
const SIZE: usize = 520;

// The most entries.
pub const LIMIT: u16 = 64;

// The three letters that a sheet begins with.
const MARK: [u8; 3] = *b"AMD";

// The numbers of an entry: record number, word number in the record, old value, new value.
#[derive(Clone, Copy, Default)]
pub struct Amendment {
    pub number: u16,
    pub word: u16,
    pub old: u16,
    pub new: u16,
}

// The sheet does not keep its layout.
#[derive(Clone, Copy)]
pub struct Broken;

impl Numbered for Broken {
    ghost numbers_of = { broken_of };

    ghost room = { 65536 };

    ghost packs = { Prim.omega arith };

    fn numbers(self) -> Answer {
        units::row(40, 0, 0, 0)
    }
}

// The number behind `at` bytes.
fn number_at(sheet: &[u8], at: Bytes) -> u16
    requires { at.0 + 1 < length sheet.now }
    ensures { result ≡ number_at sheet.now at.0 }
{
    u16::from_be_bytes([sheet[at.0], sheet[at.0 + 1]])
}

// The words of a sheet before entry `i`, counted from 0: its first 8 bytes are 4 words.
fn before_entry(i: u16) -> Words
    ensures { result.0 ≡ 4 + i * version1.words }
{
    Words(4 + usize::from(i) * 4)
}

// Something stands past the first `count` entries.
// Kept: the size of a sheet is asked here, in `put_count` and in `put_numbers`, and is no `[u8; SIZE]`: tried, and the proof of `is_broken` behind its `try_from` did not close (the search for its tests stops at its limit); `add_entry` and `clear_last`, whose public signatures take slices, would turn theirs besides, with a failure that cannot be.
fn more_stands(sheet: &[u8], count: u16) -> bool
    requires { (length sheet.now ≡ sheet_bytes version1) × (count ≤ version1.limit) }
    ensures { result ≡ not (all_zero (drop (count * version1.words) (numbers_in sheet.now))) }
{
    let before = units::bytes_of_words(before_entry(count)).0;
    // Kept: or-ed to its end: `any` was tried, and takes a byte at a time: amend-undo-k of bench/run takes 5,801 instructions with it, 1,028 so, and 3,393 with the search by `first_outside` that stood here before.
    sheet[before..].iter().fold(0, |seen, byte| seen | *byte) != 0
}

// The sheet does not keep its layout.
fn is_broken(sheet: &[u8]) -> bool
    ensures { result ≡ broken version1 sheet.now }
{
    if sheet.len() != SIZE {
        return true;
    }
    let count = number_at(sheet, Bytes(5));
    !sheet.starts_with(&MARK)
        || number_at(sheet, Bytes(3)) != VERSION
        || LIMIT < count
        || sheet[7] != 0
        || more_stands(sheet, count)
}

// How many amendments stand in a sheet, if it keeps its layout.
pub fn open(sheet: &[u8]) -> Result<u16, Broken>
    ensures { OpensSheet sheet.now result }
{
    if is_broken(sheet) {
        return Err(Broken);
    }
    Ok(number_at(sheet, Bytes(5)))
}

// Starts a sheet: no amendment stands in it.
pub fn start(sheet: &mut [u8]) -> Result<u16, Broken>
    ensures { StartsSheet sheet.old result sheet.new }
{
    if sheet.len() != SIZE {
        return Err(Broken);
    }
    sheet.fill(0);
    sheet[..3].copy_from_slice(&MARK);
    sheet[3..5].copy_from_slice(&VERSION.to_be_bytes());
    Ok(0)
}

// Amendment `i`, counted from 0.
pub fn entry_at(sheet: &[u8], i: u16) -> Amendment
    requires { KeepsLayout version1 sheet.now × (i < length (entries_of version1 sheet.now)) }
    ensures { entry_of result ≡ get_or (entries_of version1 sheet.now) i [] }
{
    let at = before_entry(i).0;
    Amendment {
        number: words::word_at(sheet, Words(at)),
        word: words::word_at(sheet, Words(at + 1)),
        old: words::word_at(sheet, Words(at + 2)),
        new: words::word_at(sheet, Words(at + 3)),
    }
}

// Puts a number behind the mark and the version.
fn put_count(sheet: &mut [u8], count: u16)
    requires { length sheet.old ≡ sheet_bytes version1 }
    ensures { sheet.new ≡ sets sheet.old 5 (bytes_of (count ∷ [])) }
{
    sheet[5..7].copy_from_slice(&count.to_be_bytes());
}

// Puts the numbers of an amendment in place of entry `i`.
fn put_numbers(sheet: &mut [u8], i: u16, e: Amendment)
    requires { (i < version1.limit) × (length sheet.old ≡ sheet_bytes version1) }
    ensures { sheet.new ≡ sets sheet.old (8 + bytes_of_words (i * version1.words)) (bytes_of (entry_of e)) }
{
    let at = before_entry(i).0;
    let numbers = [e.number, e.word, e.old, e.new];
    // Kept: the index is added to the place, as `put_word` takes places: a zip with the lent pairs of bytes would store each number by hand, which `put_word` does.
    for (k, number) in numbers.iter().enumerate() {
        words::put_word(sheet, Words(at + k), *number);
    }
}

// Adds an entry after the `count` that stand.
pub fn add_entry(sheet: &mut [u8], count: u16, e: Amendment)
    requires { Holds version1 sheet.old count × (count < version1.limit) }
    ensures { sheet.new ≡ sheet_of version1 (entries_of version1 sheet.old ++ entry_of e ∷ []) }
{
    put_numbers(sheet, count, e);
    put_count(sheet, count + 1);
}

// Clears the last of the entries, with `left` before it.
pub fn clear_last(sheet: &mut [u8], left: u16)
    requires { Holds version1 sheet.old (left + 1) }
    ensures { sheet.new ≡ sheet_of version1 (take left (entries_of version1 sheet.old)) }
{
    put_numbers(sheet, left, Amendment::default());
    put_count(sheet, left);
}
