// What four numbers tell.
ghost use Rattle.std.specs.Prelude.{◌≡◌, ◌≤◌, ◌<◌, ◌^◌, ℕ, max};
ghost use Rattle.std.proofs.Common.{rules, arith};
ghost use Rattle.units.specs.declared.Answer.{Answer};
ghost use Rattle.units.specs.Answers.{answered, fitted, verdict_of, written_of};

use crate::{Answer, Bytes, Unwritten};

// An answer, or why there is none: what four numbers tell.
pub trait Numbered {
    // The four numbers.
    ghost numbers_of: { Self → Answer };

    // What `a` stays under.
    ghost room: { ℕ };

    fn numbers(self) -> Answer
        ensures { (result ≡ numbers_of self) × (result.a < room) };

    // The packing has room for them.
    ghost packs: { room ≤ 2 ^ 24 };
}

// A count, or the refusal.
impl<E: Numbered> Numbered for Result<u16, E> {
    ghost numbers_of = { λ r. answered (verdict_of (λ n. n) E.numbers_of r) };

    ghost room = { max 65536 E.room };

    ghost packs = { Prim.omega (arith, E.packs) };

    fn numbers(self) -> Answer {
        match self {
            Ok(n) => crate::row(0, n, 0, 0),
            Err(e) => e.numbers(),
        }
    }
}

// A size in bytes, as far as the packing has room for it, or the refusal.
impl<E: Numbered> Numbered for Result<Bytes, E> {
    ghost numbers_of = { λ r. fitted (answered (verdict_of (λ size. size.0) E.numbers_of r)) };

    ghost room = { 2 ^ 24 };

    ghost packs = { Prim.omega arith };

    fn numbers(self) -> Answer {
        match self {
            Ok(size) => crate::sized(0, size),
            Err(e) => e.numbers(),
        }
    }
}

// The four numbers of a conversion's answer: the bytes written, the refusal, or row `short` with the bytes needed.
pub fn written<R: Numbered>(short: u8, r: Result<Bytes, Unwritten<R>>) -> Answer
    ensures { (result ≡ fitted (written_of short R.numbers_of r)) × (result.a < 2 ^ 24) }
{
    match r {
        Ok(bytes) => crate::sized(0, bytes),
        Err(Unwritten::Refused(why)) => why.numbers(),
        Err(Unwritten::Short(bytes)) => crate::sized(short, bytes),
    }
}
