// Replays a list of calls from standard input and writes a line for each answer, so that the gate tests the compiled code. The file `stdout` has what
// the original answers, and to an insert with max_count 0 and a merge of two families what the model answers: compare/README.md says how it is made, and
// lists the calls. A test driver promises nothing of its own; it is proved safe, and that it ends.
#![tactic(auto)]

use script::{Call, Kind};
use state::{Lent, State};
use std::io;
use std::mem::swap;

mod changing;
mod listing;
mod planning;
mod reading;
mod rebuilding;
mod say;
mod script;
mod state;

// The bytes of each of the three buffers; 9/55 needs 3664.
pub const ROOM: usize = 4096;

// More lines than any list has.
const LINES: u64 = 100000;

// Two buffers change places, and their records with them.
fn exchange(
    rt: &impl Print,
    one: &mut Lent,
    first: &mut [u8; ROOM],
    other: &mut Lent,
    second: &mut [u8; ROOM],
) -> io::Result<()> {
    swap(one, other);
    swap(first, second);
    print!(rt; "swapped")
}

// One call and its line.
fn run(
    rt: &impl Print,
    call: Call,
    state: &mut State,
    own: &mut [u8; ROOM],
    other: &mut [u8; ROOM],
    dest: &mut [u8; ROOM],
) -> io::Result<()> {
    match call.kind {
        Kind::Planning(ask) => planning::answer(rt, ask, call)?,
        Kind::Reading(ask) => reading::answer(rt, ask, call, state.own, own)?,
        Kind::Listing(ask) => state.place = listing::answer(rt, ask, state.own, own, state.place)?,
        Kind::Changing(ask) => changing::answer(rt, ask, call, &mut state.own, own)?,
        Kind::Rebuilding(ask) => rebuilding::answer(rt, ask, call, state, own, other, dest)?,
        Kind::Record => state::record(rt, call, &mut state.own)?,
        Kind::OtherFirst => exchange(rt, &mut state.own, own, &mut state.other, other)?,
        Kind::DestFirst => exchange(rt, &mut state.own, own, &mut state.dest, dest)?,
        Kind::Unknown => {}
    }
    println!(rt)
}

// Call by call until the list ends.
fn main(rt: HostRuntime) -> io::Result<()> {
    let mut input = rt.stdin();
    let mut own = [0; ROOM];
    let mut other = [0; ROOM];
    let mut dest = [0; ROOM];
    let mut state = State::new();
    for _ in 0..LINES {
        let Some(call) = script::next(&mut input) else {
            break;
        };
        run(&rt, call, &mut state, &mut own, &mut other, &mut dest)?;
    }
    Ok(())
}
