// A listing's beginning and its steps.
use crate::say;
use crate::state::{Lent, part};
use filter::listing::{Place, step_from};
use filter::reader::next_two;
use layout::numbers::Numbers;
use layout::refusal::Refusal;
use std::io;

// The beginning, a step by value, or two steps of a reader.
#[derive(Clone, Copy)]
pub enum Ask {
    Begin,
    Step,
    TwoSteps,
}

// A listing begun: its first place, or the one before.
fn begin(rt: &impl Print, buf: &[u8], n: Numbers, place: Place) -> io::Result<Place> {
    match filter::listing::begin(buf, n) {
        Ok(first) => {
            print!(rt; "at")?;
            say::place(rt, first)?;
            Ok(first)
        }
        Err(refusal) => {
            say::refused(rt, refusal)?;
            Ok(place)
        }
    }
}

// A step's answer said.
fn say_step(rt: &impl Print, step: Result<Option<u64>, Refusal>) -> io::Result<()> {
    match step {
        Ok(Some(f)) => print!(rt; "fingerprint {f:016x}"),
        Ok(None) => print!(rt; "done"),
        Err(refusal) => say::refused(rt, refusal),
    }
}

// One step by value: its answer said, and the place after it.
fn step(rt: &impl Print, buf: &[u8], n: Numbers, place: Place) -> io::Result<Place> {
    let stepped = step_from(buf, n, place);
    say_step(rt, stepped.step)?;
    say::place(rt, stepped.place)?;
    Ok(stepped.place)
}

// Two steps of a reader, which keeps buffer and place together.
fn two(rt: &impl Print, buf: &[u8], n: Numbers, place: Place) -> io::Result<Place> {
    let two = next_two(buf, n, place);
    say_step(rt, two.first)?;
    print!(rt; " ")?;
    say_step(rt, two.second)?;
    say::place(rt, two.place)?;
    Ok(two.place)
}

// One question to the part that is lent; the place afterwards.
pub fn answer(
    rt: &impl Print,
    ask: Ask,
    lent: Lent,
    room: &[u8],
    place: Place,
) -> io::Result<Place> {
    let n = lent.numbers;
    let buf = &room[..part(lent.size, room)];
    match ask {
        Ask::Begin => begin(rt, buf, n, place),
        Ask::Step => step(rt, buf, n, place),
        Ask::TwoSteps => two(rt, buf, n, place),
    }
}
