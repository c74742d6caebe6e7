// Is a fingerprint held, and how often.
ghost use Rattle.std.specs.Prelude.{◌≡◌, ◌/◌, ◌%◌, ◌^◌, ◌<◌};
ghost use Rattle.theory.specs.Shape.{slots, fingerprint, Widths};
ghost use Rattle.layout.specs.Lent.{slots_of, views_of};
ghost use Rattle.filter.specs.Scan.{Sought, Counted};
ghost use Rattle.filter.specs.Lookup.{Seeks, Counts};

use crate::runs::run_start;
use bits::compare::equal;
use layout::blocks::Blocks;
use layout::shape::Shape;

// Is it held, and how many remainders of its run were compared: up to the first equal one; or all, if none is equal.
#[derive(Clone, Copy, Debug, PartialEq, Eq)]
pub enum Lookup {
    Held(u64),
    Absent(u64),
}

// The quotient of the fingerprint that a hash has.
#[tactic(auto, using(theory::specs::images::Sizes::fingerprint_quotient, theory::specs::images::Sizes::slots_pos))]
pub fn quotient(shape: Shape, hash: u64) -> u64
    requires { Widths shape.qbits shape.rbits }
    ensures { (result ≡ fingerprint shape.qbits shape.rbits hash / 2 ^ shape.rbits) × (result < slots shape.qbits) }
{
    (hash >> shape.rbits) % shape.slots()
}

// The remainder of the fingerprint that a hash has.
#[tactic(auto, using(theory::specs::images::Sizes::fingerprint_remainder))]
pub fn remainder(shape: Shape, hash: u64) -> u64
    requires { Widths shape.qbits shape.rbits }
    ensures { (result ≡ fingerprint shape.qbits shape.rbits hash % 2 ^ shape.rbits) × (result < 2 ^ shape.rbits) }
{
    hash % bits::bit::pow2(shape.rbits as u64)
}

// The first remainder equal to `rem` in the run that starts at slot `at`, left from inside once it or the run's end is met.
fn first_equal(lent: &Blocks, at: u64, rem: u64) -> Lookup
    requires { at < slots_of lent.now }
    ensures { Sought (slots_of lent.now) (views_of lent.now) at rem result }
{
    let slots = lent.shape.slots();
    let mut k = 0;
    // Kept: a scan of a run's slots is a loop left by break.
    loop {
        let s = (at + k) % slots;
        k += 1;
        if lent.get_remainder(s) == rem {
            break Lookup::Held(k);
        }
        if lent.is_runend(s) == 1 || k == slots {
            break Lookup::Absent(k);
        }
    }
}

// Where the fingerprint of a hash first stands in its run, or that it is absent. It is put in line, as are `count_hash` and `run_start`: else the lent
// buffer goes through memory on the way there, and a lookup waits for it.
#[tactic(auto, using(crate::specs::Lookup::seen_empty))]
#[inline(always)]
pub fn find_hash(lent: &Blocks, hash: u64) -> Lookup
    ensures { Seeks lent.now.shape lent.now.buf.now hash result }
{
    let x = quotient(lent.shape, hash);
    if lent.is_occupied(x) == 0 {
        return Lookup::Absent(0);
    }
    let at = run_start(lent, x);
    first_equal(lent, at, remainder(lent.shape, hash))
}

// How many remainders equal `rem` in the run that starts at slot `at`, from its place `from` on.
fn count_from(lent: &Blocks, at: u64, from: u64, rem: u64) -> u64
    requires { (at < slots_of lent.now) × (from < slots_of lent.now) }
    ensures { Counted (slots_of lent.now) (views_of lent.now) at from rem result }
{
    let slots = lent.shape.slots();
    let mut k = from;
    let mut count = 0;
    // Kept: a scan of a run's slots is a loop left by break.
    loop {
        let s = (at + k) % slots;
        k += 1;
        count += equal(lent.get_remainder(s), rem);
        if lent.is_runend(s) == 1 || k == slots {
            break count;
        }
    }
}

// How often the fingerprint of a hash is held.
#[tactic(auto, using(crate::specs::Lookup::count_empty))]
#[inline(always)]
pub fn count_hash(lent: &Blocks, hash: u64) -> u64
    ensures { Counts lent.now.shape lent.now.buf.now hash result }
{
    let x = quotient(lent.shape, hash);
    if lent.is_occupied(x) == 0 {
        return 0;
    }
    let at = run_start(lent, x);
    let rem = remainder(lent.shape, hash);
    let Lookup::Held(k) = first_equal(lent, at, rem) else {
        return 0;
    };
    count_from(lent, at, k - 1, rem)
}
