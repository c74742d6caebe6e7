// Planning: the widths that serve a capacity and a rate, before there is a buffer.
ghost use Rattle.std.specs.Prelude.{◌≡◌, ◌<◌, ◌≤◌};
ghost use Rattle.theory.specs.Shape.{capacity, Widths};
ghost use Rattle.theory.specs.Planning.{needed_qbits, rbits_for, half_pow, per_item};
ghost use Rattle.layout.specs.Plans.{NeededAs, SpecsOf, SpecifiedAs, PlannedAs};

use crate::refusal::Refusal;
use crate::shape::Shape;

// The capacity of 2 ^ 59 slots.
pub const MAX_CAPACITY: u64 = 547637714688252314;

// What a filter for a capacity and a rate comes to.
#[derive(Clone, Copy)]
pub struct FilterSpecs {
    pub max_capacity: u64,
    pub max_error_ratio: f64,
    pub bits_per_item: f64,
    pub memory_bytes_min: u64,
    pub memory_bytes_max: u64,
    pub fingerprint_bits: u8,
}

// The capacity, which hangs on qbits alone: any rbits that is allowed serves.
pub fn capacity_of(qbits: u8) -> u64
    requires { (6 ≤ qbits) × (qbits ≤ 59) }
    ensures { result ≡ capacity qbits }
{
    let shape = Shape { qbits, rbits: 1 };
    shape.capacity()
}

// The smallest width, 6 or more, whose capacity suffices.
#[tactic(auto, using(theory::specs::plan::Needed::width_here, theory::specs::plan::Needed::width_step, theory::specs::plan::Needed::width_end), unfolding(theory::specs::Planning::needed_qbits))]
fn width_for(capacity: u64) -> u8
    ensures { (result ≡ needed_qbits capacity) × (6 ≤ result) × (result ≤ 59) }
{
    for qbits in Shape::MIN_QBITS..Shape::MAX_QBITS {
        if capacity <= capacity_of(qbits) {
            return qbits;
        }
    }
    Shape::MAX_QBITS
}

// The width of the slots that a capacity needs, or number 10.
pub fn needed_qbits(capacity: u64) -> Result<u8, Refusal>
    ensures { NeededAs capacity result }
{
    if MAX_CAPACITY < capacity {
        return Err(Refusal::CapacityTooLarge);
    }
    Ok(width_for(capacity))
}

// The first k from 1 to 64 for which 2 ^ -k is not above the rate. What is not a number is below nothing.
#[tactic(auto, using(theory::specs::plan::Rates::halve, theory::specs::plan::Rates::half_bits, theory::specs::plan::Rates::halvings_here, theory::specs::plan::Rates::halvings_step, theory::specs::plan::Rates::halvings_end), unfolding(theory::specs::Planning::rbits_for))]
pub fn rbits_for(rate: f64) -> u8
    ensures { (result ≡ rbits_for rate) × (1 ≤ result) × (result ≤ 64) }
{
    let mut h = 0.5;
    for k in 1..64 {
        if rate < h {
            h *= 0.5;
        } else {
            return k;
        }
    }
    64
}

// 2 ^ -rbits, exactly.
#[tactic(auto, using(theory::specs::plan::Rates::halve, theory::specs::plan::Rates::half_bits, theory::specs::plan::Rates::one_bits))]
fn max_error_ratio(rbits: u8) -> f64
    requires { rbits ≤ 64 }
    ensures { result ≡ half_pow rbits }
{
    let mut h = 1.0;
    for _ in 0..rbits {
        h *= 0.5;
    }
    h
}

// rbits + 2.125, exactly.
#[tactic(auto, using(theory::specs::plan::Rates::per_item_lem))]
fn bits_per_item(rbits: u8) -> f64
    requires { rbits < 64 }
    ensures { result ≡ per_item rbits }
{
    f64::from(rbits) + 2.125
}

// What a filter of these widths comes to.
fn specs_of(qbits: u8, rbits: u8) -> FilterSpecs
    requires { Widths qbits rbits }
    ensures { SpecsOf qbits rbits result }
{
    let shape = Shape { qbits, rbits };
    let least = Shape {
        qbits: Shape::MIN_QBITS,
        rbits: qbits + rbits - Shape::MIN_QBITS,
    };
    FilterSpecs {
        max_capacity: shape.capacity(),
        max_error_ratio: max_error_ratio(rbits),
        bits_per_item: bits_per_item(rbits),
        memory_bytes_min: least.buffer_len() as u64,
        memory_bytes_max: shape.buffer_len() as u64,
        fingerprint_bits: qbits + rbits,
    }
}

// What a filter for this capacity and rate comes to; or number 10, then 9.
#[tactic(auto, using(theory::specs::refusals::PlanRefused::specs_ten))]
pub fn filter_specs(capacity: u64, rate: f64) -> Result<FilterSpecs, Refusal>
    ensures { SpecifiedAs capacity rate result }
{
    let qbits = needed_qbits(capacity)?;
    let rbits = rbits_for(rate);
    if 64 < qbits + rbits {
        return Err(Refusal::TooWide);
    }
    Ok(specs_of(qbits, rbits))
}

// 0, for none, where there is nothing to grow.
fn max_for(qbits: u8, most: u8) -> u8
    ensures { (qbits ≡ most → result ≡ 0) × ((qbits ≡ most → ⊥) → result ≡ most) }
{
    if qbits == most { 0 } else { most }
}

// The widths of a filter that starts with room for one capacity and can grow to another, which the rate is for; or number 11, 10, then 9.
pub fn plan_resizeable(initial: u64, most: u64, rate: f64) -> Result<(Shape, u8), Refusal>
    ensures { PlannedAs initial most rate result }
{
    if most < initial {
        return Err(Refusal::MaximumBelowInitial);
    }
    let widest = needed_qbits(most)?;
    let qbits = width_for(initial);
    let rbits = rbits_for(rate) + (widest - qbits);
    if 64 < qbits + rbits {
        return Err(Refusal::TooWide);
    }
    Ok((Shape { qbits, rbits }, max_for(qbits, widest)))
}
