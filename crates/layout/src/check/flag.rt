// The tests of a slot, with 1 for one that fails and 0 for one that passes.
// Kept: the answers are numbers and no bool, as the theory's step has them, which counts what fails, and the cursor keeps the count.
ghost use Rattle.std.specs.Prelude.{◌≡◌, ◌+◌, ◌^◌, ◌<◌, min};
ghost use Rattle.theory.specs.check.Step.{fault, differ};
ghost use Rattle.theory.specs.check.Loops.{most};

use bits::compare::below;

// 1 if one of the two is not 0, else 0.
pub fn either(a: u64, b: u64) -> u64
    ensures { result ≡ min 1 (a + b) }
{
    u64::from(0 < a || 0 < b)
}

// 1 if the two are not equal, else 0.
#[tactic(auto, unfolding(theory::specs::check::Step::differ))]
pub fn differs(a: u64, b: u64) -> u64
    ensures { result ≡ min 1 (differ a b) }
{
    u64::from(a != b)
}

// The most that a slot's remainder may be, with p runs pending on it: 0 if it is unused, the next one's inside a run, and anything (below 2^64) at a
// run's end.
#[tactic(auto, using(theory::specs::tools::Choose::choose_yes, theory::specs::tools::Choose::choose_no), unfolding(theory::specs::check::Loops::most))]
fn highest(p: u64, e: u64, next: u64) -> u64
    ensures { result ≡ most p e next }
{
    if p < 1 {
        return 0;
    }
    if e < 1 { next } else { u64::MAX }
}

// 1 if a slot fails its tests, with p pending before it: its bits o and e, its remainder and the next slot's.
#[tactic(auto, using(theory::specs::check::Loops::fails))]
pub fn slot_fails(p: u64, o: u64, e: u64, remainder: u64, next: u64) -> u64
    requires { (p < 2 ^ 63) × (o < 2) × (e < 2) }
    ensures { result ≡ min 1 (fault p o e remainder next) }
{
    let runs = p + o;
    either(below(highest(runs, e, next), remainder), below(runs, e))
}
