// Records packed into blocks, in their order: the current block, and which one the next record goes into.
#![tactic(auto)]

ghost use Rattle.std.specs.Prelude.{◌≡◌, ◌≤◌};
ghost use Rattle.words.specs.Words.{most_record_words};
ghost use Rattle.packing.specs.Current.{count_limit, sealed_bytes, room_for, with_record, bytes_to};

use units::{Bytes, Words};

// The current block: it begins behind `start` bytes of the output, and has `used` record words so far.
// Kept: that no method is asked past `most_record_words` words or `count_limit` bytes is said at each and is no invariant of the type, as the contract of `with_record` lets it count on past them, from any start.
#[derive(Clone, Copy)]
pub struct Current {
    pub start: Bytes,
    pub used: Words,
}

impl Current {
    // Before any record: it begins the output.
    pub const FIRST: Current = Current {
        start: Bytes(0),
        used: Words(0),
    };

    // The bytes of the output up to its end, its checksum among them.
    fn sealed_bytes(self) -> Bytes
        requires { (self.used.0 ≤ most_record_words) × (self.start.0 ≤ count_limit) }
        ensures { result.0 ≡ sealed_bytes self }
    {
        let all = Words(self.used.0 + 2);
        Bytes(self.start.0 + units::bytes_of_words(all).0)
    }

    // The block that a record of `k` words goes into: this one if it fits, else a new one.
    // Kept: the most that `k` may be is said here, in `with_record` and in repacking's `make_room`: the public `room_for` and `with_record` take it as `Words`, and no type of theirs may be narrower.
    #[tactic(auto, unfolding(crate::specs::Current::room_for))]
    pub fn room_for(self, k: Words) -> Current
        requires { (self.used.0 ≤ most_record_words) × (k.0 ≤ most_record_words) × (self.start.0 ≤ count_limit) }
        ensures { result ≡ room_for self k.0 }
    {
        let filled = self.used.0 + k.0;
        if filled <= words::MOST_RECORD_WORDS {
            return self;
        }
        Current {
            start: self.sealed_bytes(),
            used: Words(0),
        }
    }

    // This block with a record of `k` words more.
    pub fn with_record(self, k: Words) -> Current
        requires { (self.used.0 ≤ most_record_words) × (k.0 ≤ most_record_words) }
        ensures { result ≡ with_record self k.0 }
    {
        Current {
            used: Words(self.used.0 + k.0),
            ..self
        }
    }

    // The bytes of all blocks so far; a current block without a record has none.
    #[tactic(auto, unfolding(crate::specs::Current::bytes_to))]
    pub fn bytes_to(self) -> Bytes
        requires { (self.used.0 ≤ most_record_words) × (self.start.0 ≤ count_limit) }
        ensures { result.0 ≡ bytes_to self }
    {
        if self.used.0 == 0 {
            return self.start;
        }
        self.sealed_bytes()
    }
}
