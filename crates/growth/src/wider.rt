// Number 7 of a merge whose other side is wider.
ghost use Rattle.std.specs.Prelude.{◌≤◌};
ghost use Rattle.theory.specs.Shape.{capacity};
ghost use Rattle.growth.specs.WiderDue.{WiderDue};

use crate::adding::count_added;
use crate::source::Source;
use layout::refusal::Refusal;

// Number 7 if an added copy would pass capacity: nothing is counted where all of b fit, and no more than what passes.
#[tactic(auto, using(theory::specs::images::Sizes::slots_high))]
pub fn wider_due(a: Source, b: Source, keep: u64) -> Result<(), Refusal>
    requires { a.len ≤ capacity a.lent.shape.qbits }
    ensures { WiderDue a.entry b.entry keep result }
{
    let enough = a.lent.shape.capacity() - a.len + 1;
    if b.len < enough {
        return Ok(());
    }
    if keep != 0 {
        return Err(Refusal::NoRoom);
    }
    if count_added(a, b, enough) < enough {
        return Ok(());
    }
    Err(Refusal::NoRoom)
}
