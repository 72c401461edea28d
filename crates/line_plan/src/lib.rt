// The plan of a record's lines: how many fields stand on each.
#![tactic(auto)]

ghost use Rattle.std.specs.Prelude.{◌≡◌, min};

use units::Words;

// Of `left` fields, those that stand on the next line.
pub fn on_line(left: Words) -> Words
    ensures { result.0 ≡ min left.0 20 }
{
    Words(left.0.min(20))
}
