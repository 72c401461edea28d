// Puts bytes and words into a lent buffer as far as it has room: what lies past its end is left out. A buffer of no bytes takes nothing.
#![tactic(auto)]

ghost use Rattle.std.specs.Prelude.{◌≡◌, ◌∷◌, [], ◌+◌, ◌≤◌, ◌<◌, ◌^◌, length, replicate, slice_set};
ghost use Rattle.std.proofs.lemmas.List.Edits.{sets};
ghost use Rattle.std.proofs.Math.Seq.{slice};
ghost use Rattle.units.specs.Units.{bytes_of_words};
ghost use Rattle.words.specs.Words.{bytes_of};

use units::{Bytes, Words};

// Stores bytes from place `at` on.
// Kept: `out` and `at` are two parameters, here and below, as these public functions' clauses have them: the place may lie past the end of `out`, which a part of it may not.
// Kept: a call of its own for all of them, since with one call, of as many as there is room for, writing cards took a fifth more instructions.
pub fn store_bytes(bytes: &[u8], out: &mut [u8], at: Bytes)
    ensures { out.new ≡ sets out.old at.0 bytes.now }
{
    let Some(room) = out.len().checked_sub(at.0) else {
        return;
    };
    if room < bytes.len() {
        words::write_bytes(&bytes[..room], out, at);
        return;
    }
    words::write_bytes(bytes, out, at);
}

// Stores a byte `count` times.
pub fn store_filling(b: u8, count: Bytes, out: &mut [u8], at: Bytes)
    ensures { out.new ≡ sets out.old at.0 (replicate count.0 b) }
{
    if let Some(room) = out.len().checked_sub(at.0) {
        let end = at.0 + count.0.min(room);
        out[at.0..end].fill(b);
    }
}

// Stores one byte.
fn store_byte(b: u8, out: &mut [u8], at: usize)
    ensures { out.new ≡ slice_set out.old at b }
{
    if at < out.len() {
        out[at] = b;
    }
}

// Stores a word after `at` words.
// Kept: byte by byte, since writing took a fifth more instructions with `store_bytes` of the two.
pub fn store_word(w: u16, out: &mut [u8], at: Words)
    requires { at.0 < 2 ^ 32 }
    ensures { out.new ≡ sets out.old (bytes_of_words at.0) (bytes_of (w ∷ [])) }
{
    let first = units::bytes_of_words(at).0;
    let [high, low] = w.to_be_bytes();
    store_byte(high, out, first);
    store_byte(low, out, first + 1);
}

// Stores the words of a row after `from` up to `upto`, after `at` words.
// Kept: by index, since this public function's clause asks no order of `from` and `upto`: a part of the row from the one to the other is none where it is turned round.
// Kept: a buffer of no bytes takes nothing, so that one loop of reading judges and writes, as the definition `stored` of read_records does.
pub fn store_words(row: &[u16], from: Words, upto: Words, out: &mut [u8], at: Words)
    requires { (upto.0 ≤ length row.now) × (upto.0 ≤ 40) × (at.0 < 2 ^ 24) }
    ensures { out.new ≡ sets out.old (bytes_of_words at.0) (bytes_of (slice from.0 upto.0 row.now)) }
{
    if out.is_empty() {
        return;
    }
    for k in from.0..upto.0 {
        store_word(row[k], out, Words(at.0 + (k - from.0)));
    }
}
