// The check: does the record pass numbers 1 to 5, and are its bytes those of some holding, of len fingerprints? It walks the blocks twice with a
// cursor by value and keeps nothing else.
ghost use Rattle.std.specs.Prelude.{◌≡◌, ◌*◌};
ghost use Rattle.theory.specs.Shape.{blocks, Widths};
ghost use Rattle.theory.specs.check.Buffer.{steps_on};
ghost use Rattle.layout.specs.Walk.{cur, Fits};
ghost use Rattle.layout.specs.Verdicts.{Answered, Judged, JudgedBoth};

use crate::blocks::Blocks;
use crate::check::step::Cursor;
use crate::numbers::{Numbers, number_due};
use crate::refusal::Refusal;
use crate::shape::Shape;

mod flag;
pub mod step;

// As many blocks as the budget says, or as are left.
#[tactic(auto, using(theory::specs::check::Loops::steps_next, theory::specs::check::Loops::steps_early), unfolding(theory::specs::check::Step::steps))]
fn go_on(lent: &Blocks, budget: u64, c: Cursor) -> Cursor
    requires { Fits (2 * blocks lent.now.shape.qbits) c }
    ensures { (cur result ≡ steps_on lent.now.shape.qbits lent.now.shape.rbits lent.now.buf.now budget (cur c)) × (Fits (2 * blocks lent.now.shape.qbits) result) }
{
    let mut at = c;
    for _ in 0..budget {
        if 2 * lent.shape.blocks() <= at.passed {
            return at;
        }
        at = step::step(lent, at);
    }
    at
}

// What the cursor says after two rounds.
fn answer(shape: Shape, len: u64, c: Cursor) -> Result<(), Refusal>
    requires { Widths shape.qbits shape.rbits }
    ensures { Answered (blocks shape.qbits) len (cur c) result }
{
    if c.passed != 2 * shape.blocks() {
        return Err(Refusal::NotSound);
    }
    if 0 < c.bad {
        return Err(Refusal::NotSound);
    }
    if c.pending != c.owed {
        return Err(Refusal::NotSound);
    }
    if c.used != len {
        return Err(Refusal::NotSound);
    }
    Ok(())
}

// Sound, or the lowest of numbers 1 to 6 that is due.
pub fn check(buf: &[u8], n: Numbers) -> Result<(), Refusal>
    ensures { Judged n buf.now result }
{
    number_due(buf.len(), n)?;
    let lent = Blocks::of(buf, n);
    let c = go_on(&lent, 2 * lent.shape.blocks(), Cursor::begin());
    answer(lent.shape, n.len, c)
}

// Both filters sound, or the lowest number that is due of the first, or of the second.
#[tactic(auto, using(crate::specs::Judging::judged_then))]
pub fn check_both(buf: &[u8], n: Numbers, other: &[u8], m: Numbers) -> Result<(), Refusal>
    ensures { JudgedBoth n buf.now m other.now result }
{
    check(buf, n)?;
    check(other, m)
}
