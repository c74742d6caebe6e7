// The length of a merge without duplicates at equal widths.
ghost use Rattle.std.specs.Prelude.{◌+◌, ◌<◌, ◌≤◌};
ghost use Rattle.theory.specs.Shape.{slots};
ghost use Rattle.growth.specs.Union.{United};

use crate::adding::count_added;
use crate::source::Source;

// Each fingerprint held by either, once: what a adds to nothing, and what b adds to a.
#[tactic(auto, using(theory::specs::images::Sizes::slots_high))]
pub fn union_len(a: Source, b: Source) -> u64
    requires { (b.lent.shape.qbits + b.lent.shape.rbits ≤ a.lent.shape.qbits + a.lent.shape.rbits) × (a.len < slots a.lent.shape.qbits) × (b.len < slots b.lent.shape.qbits) }
    ensures { United a.entry b.entry result }
{
    let none = Source { len: 0, ..a };
    count_added(none, a, a.len) + count_added(a, b, b.len)
}
