// Text put into a lent slice: numbers in decimal, and the line that says a refusal.
#![tactic(auto)]

ghost use Rattle.std.specs.Prelude.{[], ◌∷◌, ◌+◌, ◌<◌};
ghost use Rattle.words.specs.Writing.{Room, Put};
ghost use Rattle.report.specs.Decimal.{decimal_of, spaced};
ghost use Rattle.report.specs.Refusal.{refusal_line};

use units::{Answer, Bytes};

// Puts one digit.
// Kept: `out` and `at` are two parameters, here and below: a struct of the two was tried here: it proves, no clause or proof gets shorter, and each caller makes the struct and takes its place out again.
fn write_digit(d: u32, out: &mut [u8], at: Bytes) -> Bytes
    requires { (d < 10) × Room out.old at.0 ((48 + d) ∷ []) }
    ensures { Put out.old at.0 ((48 + d) ∷ []) out.new result.0 }
{
    out[at.0] = b'0' + d as u8;
    Bytes(at.0 + 1)
}

// Puts a number in decimal: the digits before its last are those of its tens.
// Kept: not by Display: `write!` to a lent slice promises none of its bytes (its `contents` are None), and all stands on std alone (README), not on itoa.
pub fn write_number(n: u32, out: &mut [u8], at: Bytes) -> Bytes
    requires { Room out.old at.0 (decimal_of n) }
    ensures { Put out.old at.0 (decimal_of n) out.new result.0 }
{
    if n < 10 {
        return write_digit(n, out, at);
    }
    let to = write_number(n / 10, out, at);
    write_digit(n % 10, out, to)
}

// Puts numbers, one space before each.
pub fn write_spaced(numbers: &[u32], out: &mut [u8], at: Bytes) -> Bytes
    requires { Room out.old at.0 (spaced numbers.now) }
    ensures { Put out.old at.0 (spaced numbers.now) out.new result.0 }
{
    let mut to = at.0;
    for n in numbers {
        out[to] = b' ';
        to = write_number(*n, out, Bytes(to + 1)).0;
    }
    Bytes(to)
}

// Puts the line that says a refusal.
pub fn write_refusal(r: Answer, out: &mut [u8], at: Bytes) -> Bytes
    requires { Room out.old at.0 (refusal_line r) }
    ensures { Put out.old at.0 (refusal_line r) out.new result.0 }
{
    let numbers = [u32::from(r.n), r.a, u32::from(r.b), u32::from(r.c)];
    let to = words::write_bytes(b"refused", out, at);
    let to = write_spaced(&numbers, out, to);
    words::write_bytes(b"\n", out, to)
}
