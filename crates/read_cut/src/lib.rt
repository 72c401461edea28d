// The lines of a text. Only this crate knows how a line ends.
#![tactic(auto)]

ghost use Rattle.std.specs.Prelude.{◌≡◌, true, ◌+◌, ◌*◌, ◌/◌, ◌≤◌, ◌<◌, eqb, length, get_or, drop, MatchOption};
ghost use Rattle.words.specs.Scans.{within, plain_in};
ghost use Rattle.read_cut.specs.Lines.{end_length, PlainOn, CutAt};

use std::simd::prelude::*;
use units::Bytes;

// Where a line ends, where the next one begins, and how many of its bytes are plain, from 32 to 126, before the first that is not.
#[derive(Clone, Copy)]
pub struct Cut {
    pub end: Bytes,
    pub next: Bytes,
    pub plain: Bytes,
}

// The first plain byte.
const LEAST: u8 = b' ';

// The last plain byte.
const MOST: u8 = b'~';

fn is_plain(b: u8) -> bool
    ensures { result ≡ within 32 126 b }
{
    (LEAST..=MOST).contains(&b)
}

// How many plain bytes sixteen bytes begin with: a mask of all of them tells the first that is not, and none is gone over by itself.
fn plain_of(sixteen: &[u8; 16]) -> usize
    ensures { result ≡ plain_in sixteen.now }
{
    let bytes = Simd::from_array(*sixteen);
    let others = bytes.simd_lt(Simd::splat(LEAST)) | bytes.simd_gt(Simd::splat(MOST));
    let bits = others.to_bitmask();
    if bits == 0 {
        16
    } else {
        bits.trailing_zeros() as usize
    }
}

// How many plain bytes a text begins with, where they end in one of its sixteens; none is told where all sixteens are plain.
fn plain_sixteens(text: &[u8]) -> Option<usize>
    ensures { MatchOption result (PlainOn text.now 0 (16 * (length text.now / 16))) (λ n. n ≡ plain_in text.now) }
{
    let (sixteens, _) = text.as_chunks::<16>();
    for (i, sixteen) in sixteens.iter().enumerate() {
        let plain = plain_of(sixteen);
        if plain < 16 {
            return Some(16 * i + plain);
        }
    }
    None
}

// From place `at` on plain bytes, one by one, as far as they go.
// Kept: a text and a place, as `plain_end` has them. It goes over fewer than sixteen bytes, at the text's end.
fn plain_upto(text: &[u8], at: usize) -> usize
    requires { at ≤ length text.now }
    ensures { PlainOn text.now at result × (result ≤ length text.now) × (result < length text.now → plain_in (drop result text.now) ≡ 0) }
{
    for i in at..text.len() {
        if !is_plain(text[i]) {
            return i;
        }
    }
    text.len()
}

// The place before which the bytes from place `at` on are plain. A line whose first byte is not plain, as an empty one, needs no sixteen.
fn plain_end(text: &[u8], at: usize) -> usize
    requires { at ≤ length text.now }
    ensures { result ≡ at + plain_in (drop at text.now) }
{
    if at < text.len() && !is_plain(text[at]) {
        return at;
    }
    let here = &text[at..];
    match plain_sixteens(here) {
        Some(plain) => at + plain,
        None => plain_upto(text, at + 16 * (here.len() / 16)),
    }
}

// The bytes of the line end that a text begins with: 0 where there is none.
// Kept: 0 says none, as the definition `end_length` of specs/Lines.antt does.
#[tactic(auto, unfolding(crate::specs::Lines::end_length))]
fn end_length(text: &[u8]) -> usize
    ensures { (result ≡ end_length text.now) × (result ≤ length text.now) }
{
    match text {
        [b'\n', ..] => 1,
        [b'\r', b'\n', ..] => 2,
        _ => 0,
    }
}

// The line that begins at place `at`: its plain bytes end no line, so that its end is looked for behind them. Mostly an LF stands there.
// Kept: a text and a place, as this public function's clause `CutAt` has them. The loop is no search: `find_map` would give the whole `Cut` from a closure, and is no plainer.
pub fn next_line(text: &[u8], at: Bytes) -> Cut
    requires { at.0 < length text.now }
    ensures { CutAt text.now at.0 result }
{
    let first = at.0;
    let from = plain_end(text, first);
    let plain = from - first;
    let all = text.len();
    if from < all && text[from] == b'\n' {
        return Cut {
            end: Bytes(from),
            next: Bytes(from + 1),
            plain: Bytes(plain),
        };
    }
    for i in from..all {
        let size = end_length(&text[i..]);
        if 0 < size {
            return Cut {
                end: Bytes(i),
                next: Bytes(i + size),
                plain: Bytes(plain),
            };
        }
    }
    Cut {
        end: Bytes(all),
        next: Bytes(all),
        plain: Bytes(plain),
    }
}
