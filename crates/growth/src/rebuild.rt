// A filter rebuilt in a lent destination: growth.
// Kept: a buffer and its record side by side, of which none of 1 to 5 is due, since the calls' promises speak of both by themselves.
ghost use Rattle.std.specs.Prelude.{◌≡◌};
ghost use Rattle.theory.specs.Shape.{Widths};
ghost use Rattle.theory.specs.Refusal.{max_due};
ghost use Rattle.layout.specs.Records.{lowest_due};
ghost use Rattle.growth.specs.Rebuilding.{Empties, CanHold, RebuildsInto, Grows, GrowWorked};

use crate::source::Source;
use crate::take::take_in;
use layout::check::check;
use layout::fresh::fresh;
use layout::numbers::Numbers;
use layout::refusal::Refusal;
use layout::shape::Shape;

// The destination is made empty; or number 12, and it stays as it was. The fresh filter's record, of family 0, is not used.
#[tactic(auto, using(crate::specs::Rebuilding::made_empties))]
pub fn empty_out(dest: &mut [u8], shape: Shape, max_qbits: u8) -> Result<(), Refusal>
    requires { (Widths shape.qbits shape.rbits) × (max_due shape.qbits shape.rbits max_qbits ≡ 0) }
    ensures { Empties shape.qbits shape.rbits dest.old result dest.new }
{
    fresh(dest, shape.qbits, shape.rbits, max_qbits, 0)?;
    Ok(())
}

// The list of a filter that passed 1 to 5, at other widths that have room for it, in the destination; or number 12. What it leaves is fixed where the buffer is sound.
pub fn rebuild_into(
    buf: &[u8],
    n: Numbers,
    shape: Shape,
    dest: &mut [u8],
) -> Result<Numbers, Refusal>
    requires { (lowest_due n buf.now ≡ 0) × (CanHold n shape) }
    ensures { RebuildsInto n buf.now shape dest.old result dest.new }
{
    empty_out(dest, shape, n.max_qbits)?;
    let len = take_in(Source::new(buf, n), dest, shape, 0, u64::MAX);
    Ok(n.with_shape(shape, len))
}

// Growth of a filter that passed 1 to 5: number 7, or the rebuild.
fn grow(buf: &[u8], n: Numbers, dest: &mut [u8]) -> Result<Numbers, Refusal>
    requires { lowest_due n buf.now ≡ 0 }
    ensures { GrowWorked n buf.now dest.old result dest.new }
{
    if n.max_qbits <= n.qbits {
        return Err(Refusal::NoRoom);
    }
    let grown = Shape {
        qbits: n.qbits + 1,
        rbits: n.rbits - 1,
    };
    rebuild_into(buf, n, grown, dest)
}

// The same holding with one more bit of quotient, in the destination; or number 1 to 6, 7, then 12.
pub fn rebuild_grown(buf: &[u8], n: Numbers, dest: &mut [u8]) -> Result<Numbers, Refusal>
    ensures { Grows n buf.now dest.old result dest.new }
{
    check(buf, n)?;
    grow(buf, n, dest)
}
