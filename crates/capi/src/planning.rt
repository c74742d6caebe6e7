// Select, planning, lengths and fresh filters.
ghost use Rattle.std.specs.Prelude.{◌≡◌};
ghost use Rattle.layout.specs.Refusals.{number};
ghost use Rattle.capi.specs.Planning.{specs_of, plan_of, PositionOf, NeededOutcome, SpecsOutcome, PlanOutcome, LengthOutcome, FreshOutcome};
ghost use Rattle.capi.specs.Reading.{counted_of};

use crate::growing::as_rebuilt;
use bits::bit::pow2;
use bits::select::select;
use layout::fresh::fresh;
use layout::numbers::Numbers;
use layout::planning::{FilterSpecs, filter_specs, needed_qbits, plan_resizeable};
use layout::refusal::Refusal;
use layout::shape::Shape;

// A refusal's number, or 0 and a value.
#[repr(C)]
#[derive(Clone, Copy)]
pub struct Outcome {
    pub number: u64,
    pub value: u64,
}

// A refusal's number, or 0 and what a filter for a capacity and a rate comes to.
#[repr(C)]
#[derive(Clone, Copy)]
pub struct Specs {
    pub number: u64,
    pub max_capacity: u64,
    pub max_error_ratio: f64,
    pub bits_per_item: f64,
    pub memory_bytes_min: u64,
    pub memory_bytes_max: u64,
    pub fingerprint_bits: u64,
}

// A refusal's number, or 0 and the widths planned.
#[repr(C)]
#[derive(Clone, Copy)]
pub struct Plan {
    pub number: u64,
    pub qbits: u8,
    pub rbits: u8,
    pub max_qbits: u8,
}

// A writer's answer with the record afterwards.
#[repr(C)]
#[derive(Clone, Copy)]
pub struct Changed {
    pub number: u64,
    pub answer: u64,
    pub numbers: Numbers,
}

// The rules' number of a refusal.
pub fn number_of(refusal: Refusal) -> u64
    ensures { result ≡ number refusal }
{
    u64::from(u8::from(refusal))
}

// The value, or the number.
impl From<Result<u64, Refusal>> for Outcome {
    ghost from_gives = { λ answer result. result ≡ counted_of answer };

    fn from(answer: Result<u64, Refusal>) -> Outcome {
        match answer {
            Ok(value) => Outcome { number: 0, value },
            Err(refusal) => Outcome {
                number: number_of(refusal),
                value: 0,
            },
        }
    }
}

// What a filter comes to, or the number.
impl From<Result<FilterSpecs, Refusal>> for Specs {
    ghost from_gives = { λ answer result. result ≡ specs_of answer };

    fn from(answer: Result<FilterSpecs, Refusal>) -> Specs {
        match answer {
            Ok(specs) => Specs {
                number: 0,
                max_capacity: specs.max_capacity,
                max_error_ratio: specs.max_error_ratio,
                bits_per_item: specs.bits_per_item,
                memory_bytes_min: specs.memory_bytes_min,
                memory_bytes_max: specs.memory_bytes_max,
                fingerprint_bits: u64::from(specs.fingerprint_bits),
            },
            Err(refusal) => Specs {
                number: number_of(refusal),
                max_capacity: 0,
                max_error_ratio: 0.0,
                bits_per_item: 0.0,
                memory_bytes_min: 0,
                memory_bytes_max: 0,
                fingerprint_bits: 0,
            },
        }
    }
}

// The widths planned, or the number.
impl From<Result<(Shape, u8), Refusal>> for Plan {
    ghost from_gives = { λ answer result. result ≡ plan_of answer };

    fn from(answer: Result<(Shape, u8), Refusal>) -> Plan {
        match answer {
            Ok((shape, max_qbits)) => Plan {
                number: 0,
                qbits: shape.qbits,
                rbits: shape.rbits,
                max_qbits,
            },
            Err(refusal) => Plan {
                number: number_of(refusal),
                qbits: 0,
                rbits: 0,
                max_qbits: 0,
            },
        }
    }
}

// The position of the n-th one, or 64 for none.
#[unsafe(no_mangle)]
pub extern "C" fn strumblay_select(x: u64, n: u64) -> u64
    ensures { PositionOf x n result }
{
    select(x, n).unwrap_or(64)
}

// The slots for a capacity.
#[tactic(auto, using(theory::specs::plan::Needed::needed_high))]
#[unsafe(no_mangle)]
pub extern "C" fn strumblay_slots_for(capacity: u64) -> Outcome
    ensures { NeededOutcome capacity result }
{
    needed_qbits(capacity)
        .map(|qbits| pow2(u64::from(qbits)))
        .into()
}

// What a filter for a capacity and a rate comes to.
#[unsafe(no_mangle)]
pub extern "C" fn strumblay_filter_specs(capacity: u64, rate: f64) -> Specs
    ensures { SpecsOutcome capacity rate result }
{
    filter_specs(capacity, rate).into()
}

// The widths for a filter that starts with one capacity and can grow to another.
#[unsafe(no_mangle)]
pub extern "C" fn strumblay_plan(initial: u64, most: u64, rate: f64) -> Plan
    ensures { PlanOutcome initial most rate result }
{
    plan_resizeable(initial, most, rate).into()
}

// The bytes of a buffer of these widths.
#[tactic(auto, using(theory::specs::refusals::ByNumber::none_widths))]
#[unsafe(no_mangle)]
pub extern "C" fn strumblay_buffer_len(qbits: u8, rbits: u8) -> Outcome
    ensures { LengthOutcome qbits rbits result }
{
    Shape::new(qbits, rbits)
        .map(|shape| shape.buffer_len() as u64)
        .into()
}

// An empty filter of these widths and this family in a lent buffer.
#[unsafe(no_mangle)]
pub extern "C" fn strumblay_fresh(
    qbits: u8,
    rbits: u8,
    max_qbits: u8,
    family: u64,
    buf: &mut [u8],
) -> Changed
    ensures { FreshOutcome buf.old qbits rbits max_qbits family result buf.new }
{
    as_rebuilt(
        fresh(buf, qbits, rbits, max_qbits, family),
        Numbers::empty(qbits, rbits, max_qbits, family),
    )
}
