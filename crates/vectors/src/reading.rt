// The check, lookups and counts.
use crate::say;
use crate::script::Call;
use crate::state::{Lent, part};
use filter::contains::{
    contains_fingerprint, contains_fingerprint_quick, count_fingerprint, count_fingerprint_quick,
};
use filter::lookup::Lookup;
use layout::numbers::Numbers;
use layout::refusal::Refusal;
use std::io;

// The check, or a lookup or a count of a hash, which may be quick.
#[derive(Clone, Copy)]
pub enum Ask {
    Check,
    Contains,
    ContainsQuick,
    Count,
    CountQuick,
}

// The check's verdict, said.
fn check(rt: &impl Print, buf: &[u8], n: Numbers) -> io::Result<()> {
    match layout::check::check(buf, n) {
        Ok(()) => print!(rt; "sound"),
        Err(refusal) => say::refused(rt, refusal),
    }
}

// A lookup's answer said.
fn say_lookup(rt: &impl Print, lookup: Result<Lookup, Refusal>) -> io::Result<()> {
    match lookup {
        Ok(Lookup::Held(k)) => print!(rt; "held {k}"),
        Ok(Lookup::Absent(k)) => print!(rt; "absent {k}"),
        Err(refusal) => say::refused(rt, refusal),
    }
}

// A count's answer said.
fn say_count(rt: &impl Print, count: Result<u64, Refusal>) -> io::Result<()> {
    match count {
        Ok(m) => print!(rt; "copies {m}"),
        Err(refusal) => say::refused(rt, refusal),
    }
}

// One question to the part that is lent.
pub fn answer(rt: &impl Print, ask: Ask, call: Call, lent: Lent, room: &[u8]) -> io::Result<()> {
    let n = lent.numbers;
    let buf = &room[..part(lent.size, room)];
    match ask {
        Ask::Check => check(rt, buf, n),
        Ask::Contains => say_lookup(rt, contains_fingerprint(buf, n, call.x)),
        Ask::ContainsQuick => say_lookup(rt, contains_fingerprint_quick(buf, n, call.x)),
        Ask::Count => say_count(rt, count_fingerprint(buf, n, call.x)),
        Ask::CountQuick => say_count(rt, count_fingerprint_quick(buf, n, call.x)),
    }
}
