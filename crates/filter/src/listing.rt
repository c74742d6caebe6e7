// The listing: what is held in ascending order, copy by copy, and then the end. A place by value says how far it is, and a step moves it on.
ghost use Rattle.std.specs.Prelude.{◌≡◌, ◌+◌, ◌*◌, ◌%◌, ◌^◌, ◌<◌, ◌≤◌};
ghost use Rattle.theory.specs.Shape.{slots, Widths};
ghost use Rattle.layout.specs.Lent.{slots_of, views_of};
ghost use Rattle.filter.specs.Listing.{Begins, Listed};
ghost use Rattle.filter.specs.Occupied.{NextOccupied};
ghost use Rattle.filter.specs.Places.{nowhere, done, stepped, Ends, Moves, First, Steps};

use crate::runs::{run_start, unrolled};
use bits::compare::larger;
use bits::select::lowest_from;
use layout::blocks::Blocks;
use layout::check::check;
use layout::numbers::{Numbers, number_due};
use layout::refusal::Refusal;
use layout::shape::Shape;

// How far a listing is: quotient and slot of the fingerprint to come, and how many are to come; three zeros at the end.
#[repr(C)]
#[derive(Clone, Copy)]
pub struct Place {
    pub quotient: u64,
    pub slot: u64,
    pub remaining: u64,
}

// A step's answer, the next fingerprint, none where the listing is done, or refused; and the place after it.
#[derive(Clone, Copy)]
pub struct Stepped {
    pub step: Result<Option<u64>, Refusal>,
    pub place: Place,
}

// The place of a listing that is over.
fn none_left() -> Place
    ensures { result ≡ nowhere }
{
    Place {
        quotient: 0,
        slot: 0,
        remaining: 0,
    }
}

// The step from there: done, and it stays there.
fn finished() -> Stepped
    ensures { result ≡ done }
{
    Stepped {
        step: Ok(None),
        place: none_left(),
    }
}

// The first occupied quotient from `from` on, a word of occupieds at a time.
#[tactic(auto, using(theory::specs::images::Sizes::slots_blocks))]
fn next_occupied(lent: &Blocks, from: u64) -> Option<u64>
    requires { from ≤ slots_of lent.now }
    ensures { NextOccupied (slots_of lent.now) (views_of lent.now) from result }
{
    let mut skip = from % 64;
    for b in from / 64..lent.shape.blocks() {
        if let Some(p) = lowest_from(lent.occupieds(b), skip) {
            return Some(64 * b + p);
        }
        skip = 0;
    }
    None
}

// Slot t of at most two rounds, in the first.
fn wrapped(t: u64, slots: u64) -> u64
    requires { t < slots + slots }
    ensures { result ≡ t % slots }
{
    if t < slots { t } else { t - slots }
}

// The fingerprint of a quotient and a remainder.
#[tactic(auto, using(theory::specs::reading::ListingPlaces::join_high, theory::specs::reading::ListingPlaces::join_lt))]
fn joined(shape: Shape, x: u64, rem: u64) -> u64
    requires { (Widths shape.qbits shape.rbits) × (x < slots shape.qbits) × (rem < 2 ^ shape.rbits) }
    ensures { result ≡ x * 2 ^ shape.rbits + rem }
{
    (x << shape.rbits) + rem
}

// The place behind the last one of the run of x, which stands in slot s: where the next occupied quotient's run starts.
fn next_run(lent: &Blocks, x: u64, s: u64, left: u64) -> Place
    requires { (x < slots_of lent.now) × (s < slots_of lent.now) }
    ensures { Ends lent.now.shape lent.now.buf.now s → Moves lent.now.shape lent.now.buf.now x s left result }
{
    let slots = lent.shape.slots();
    let Some(y) = next_occupied(lent, x + 1) else {
        return none_left();
    };
    let end = unrolled(s, x, slots) + 1;
    Place {
        quotient: y,
        slot: wrapped(larger(end, y), slots),
        remaining: left,
    }
}

// The place behind that of quotient x and slot s.
#[tactic(auto, using(theory::specs::images::Sizes::slots_high))]
fn next_place(lent: &Blocks, x: u64, s: u64, left: u64) -> Place
    requires { (x < slots_of lent.now) × (s < slots_of lent.now) }
    ensures { Moves lent.now.shape lent.now.buf.now x s left result }
{
    if left == 0 {
        return none_left();
    }
    if lent.is_runend(s) == 1 {
        return next_run(lent, x, s, left);
    }
    Place {
        quotient: x,
        slot: wrapped(s + 1, lent.shape.slots()),
        remaining: left,
    }
}

// The place of the first of len fingerprints.
#[tactic(auto, using(crate::specs::Moving::none_first, crate::specs::Moving::missed_first))]
pub fn first_place(lent: &Blocks, len: u64) -> Place
    ensures { First lent.now.shape lent.now.buf.now len result }
{
    if len == 0 {
        return none_left();
    }
    let Some(x) = next_occupied(lent, 0) else {
        return none_left();
    };
    Place {
        quotient: x,
        slot: run_start(lent, x),
        remaining: len,
    }
}

// One step over numbers that passed 1 to 5: the fingerprint of the place, and the place behind it. A place that has no slot is the end. Put in line, as
// `find_hash` is.
#[tactic(auto, using(crate::specs::Moving::none_steps, crate::specs::Moving::outside_steps, crate::specs::Moving::some_steps))]
#[inline(always)]
pub fn step_core(lent: &Blocks, place: Place) -> Stepped
    ensures { Steps lent.now.shape lent.now.buf.now place result }
{
    let slots = lent.shape.slots();
    let x = place.quotient;
    let s = place.slot;
    if place.remaining == 0 || slots <= x || slots <= s {
        return finished();
    }
    let f = joined(lent.shape, x, lent.get_remainder(s));
    Stepped {
        step: Ok(Some(f)),
        place: next_place(lent, x, s, place.remaining - 1),
    }
}

// A listing's beginning: checked, then the place of the first fingerprint.
pub fn begin(buf: &[u8], n: Numbers) -> Result<Place, Refusal>
    ensures { Begins n buf.now result }
{
    check(buf, n)?;
    Ok(first_place(&Blocks::of(buf, n), n.len))
}

// One step: numbers 1 to 5 are asked first, and a refused step leaves the place as it was.
#[tactic(auto, using(crate::specs::Listing::listed_refused, crate::specs::Listing::listed_core))]
pub fn step_from(buf: &[u8], n: Numbers, place: Place) -> Stepped
    ensures { Listed n buf.now place result }
{
    if let Err(e) = number_due(buf.len(), n) {
        return Stepped {
            step: Err(e),
            place,
        };
    }
    step_core(&Blocks::of(buf, n), place)
}

// A place is lent, and moved on by one fingerprint.
pub fn step_on(buf: &[u8], n: Numbers, place: &mut Place) -> Result<Option<u64>, Refusal>
    ensures { Listed n buf.now place.old (stepped result place.new) }
{
    let stepped = step_from(buf, n, *place);
    *place = stepped.place;
    stepped.step
}
