// Select and planning: no buffer.
use crate::say;
use crate::script::Call;
use layout::planning::{FilterSpecs, filter_specs, needed_qbits, plan_resizeable};
use std::io;

// Select, or a plan: the slots, the specs, or the widths.
#[derive(Clone, Copy)]
pub enum Ask {
    Select,
    Slots,
    Specs,
    Plan,
}

// What is not a number has a larger pattern than infinity, but for the sign.
const INFINITY: u64 = 0x7ff0000000000000;

// The sign of a pattern.
const SIGN: u64 = 0x8000000000000000;

// The rate of a bit pattern.
fn rate_of(pattern: u64) -> f64 {
    if INFINITY < pattern % SIGN {
        f64::NAN
    } else {
        f64::from_bits(pattern)
    }
}

// The n-th one of a word, said.
fn select(rt: &impl Print, word: u64, n: u64) -> io::Result<()> {
    match bits::select::select(word, n) {
        Some(p) => print!(rt; "at {p}"),
        None => print!(rt; "nothing"),
    }
}

// The qbits for a capacity, said.
fn needed(rt: &impl Print, capacity: u64) -> io::Result<()> {
    match needed_qbits(capacity) {
        Ok(q) => print!(rt; "qbits {q}"),
        Err(refusal) => say::refused(rt, refusal),
    }
}

// What a filter comes to, said.
fn say_specs(rt: &impl Print, s: FilterSpecs) -> io::Result<()> {
    print!(rt; "specs {} {}", s.max_capacity, s.fingerprint_bits)?;
    print!(rt; " {} {}", s.memory_bytes_min, s.memory_bytes_max)?;
    say::float(rt, s.max_error_ratio)?;
    say::float(rt, s.bits_per_item)
}

// The specs for a capacity and a rate, said.
fn specs(rt: &impl Print, capacity: u64, pattern: u64) -> io::Result<()> {
    match filter_specs(capacity, rate_of(pattern)) {
        Ok(s) => say_specs(rt, s),
        Err(refusal) => say::refused(rt, refusal),
    }
}

// The plan for two capacities and a rate, said.
fn plan(rt: &impl Print, initial: u64, most: u64, pattern: u64) -> io::Result<()> {
    match plan_resizeable(initial, most, rate_of(pattern)) {
        Ok((shape, max_qbits)) => print!(rt; "widths {} {} {max_qbits}", shape.qbits, shape.rbits),
        Err(refusal) => say::refused(rt, refusal),
    }
}

// One question and what it is asked of.
pub fn answer(rt: &impl Print, ask: Ask, call: Call) -> io::Result<()> {
    match ask {
        Ask::Select => select(rt, call.x, call.y),
        Ask::Slots => needed(rt, call.x),
        Ask::Specs => specs(rt, call.x, call.y),
        Ask::Plan => plan(rt, call.x, call.y, call.z),
    }
}
