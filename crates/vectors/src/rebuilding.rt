// Growth, insert with a spare, and merge: the destination is lent, and is the spare too.
use crate::say;
use crate::script::Call;
use crate::state::{Lent, State, part};
use growth::holder::holder;
use growth::merge::merge;
use growth::rebuild::rebuild_grown;
use growth::spare::{Placed, insert_with_spare, insert_with_spare_quick};
use layout::numbers::Numbers;
use layout::refusal::Refusal;
use std::io;

// Growth, an insert with a spare, which may be quick, or a merge.
#[derive(Clone, Copy)]
pub enum Ask {
    Grow,
    InsertSpare,
    InsertSpareQuick,
    Merge,
}

// What was rebuilt in the destination: its record, and the sum of its bytes; after a refusal, the record is the one before.
fn say_rebuilt(
    rt: &impl Print,
    rebuilt: Result<Numbers, Refusal>,
    lent: &mut Lent,
    dest: &[u8],
) -> io::Result<()> {
    match rebuilt {
        Ok(after) => {
            lent.numbers = after;
            print!(rt; "filter")?;
            say::record(rt, after)?;
        }
        Err(refusal) => say::refused(rt, refusal)?,
    }
    say::sum(rt, lent.size, dest)
}

// `g` size of the destination.
fn grow(
    rt: &impl Print,
    call: Call,
    state: &mut State,
    own: &[u8],
    dest: &mut [u8],
) -> io::Result<()> {
    let buf = &own[..part(state.own.size, own)];
    let end = part(call.x, dest);
    let rebuilt = rebuild_grown(buf, state.own.numbers, &mut dest[..end]);
    state.dest.size = call.x;
    say_rebuilt(rt, rebuilt, &mut state.dest, dest)
}

// Which buffer counts, and its record there.
fn say_placed(
    rt: &impl Print,
    placed: Result<Placed, Refusal>,
    state: &mut State,
) -> io::Result<()> {
    match placed {
        Ok(Placed::InOld(m, numbers)) => {
            state.own.numbers = numbers;
            print!(rt; "old {m}")?;
            say::record(rt, numbers)
        }
        Ok(Placed::InSpare(m, numbers)) => {
            state.dest.numbers = numbers;
            print!(rt; "spare {m}")?;
            say::record(rt, numbers)
        }
        Err(refusal) => say::refused(rt, refusal),
    }
}

// What stands in the buffer handed back: 1 in the old one, 2 in the spare.
fn say_holder(rt: &impl Print, placed: Result<Placed, Refusal>) -> io::Result<()> {
    let mut old = [1; 1];
    let mut spare = [2; 1];
    match holder(&mut old, &mut spare, placed) {
        [which, ..] => print!(rt; " {which}"),
        [] => Ok(()),
    }
}

// `p` hash, max_count, size of the spare. Then the sums of both buffers, and which of two the answer hands back.
fn spare(
    rt: &impl Print,
    ask: Ask,
    call: Call,
    state: &mut State,
    own: &mut [u8],
    dest: &mut [u8],
) -> io::Result<()> {
    let size = part(state.own.size, own);
    let end = part(call.z, dest);
    let (buf, room) = (&mut own[..size], &mut dest[..end]);
    let (n, hash, most) = (state.own.numbers, call.x, call.y);
    let placed = match ask {
        Ask::InsertSpareQuick => insert_with_spare_quick(buf, n, hash, most, room),
        _ => insert_with_spare(buf, n, hash, most, room),
    };
    state.dest.size = call.z;
    say_placed(rt, placed, state)?;
    say::sum(rt, state.own.size, own)?;
    say::sum(rt, state.dest.size, dest)?;
    say_holder(rt, placed)
}

// `j` size of the destination, whether duplicates are kept.
fn merged(
    rt: &impl Print,
    call: Call,
    state: &mut State,
    own: &[u8],
    other: &[u8],
    dest: &mut [u8],
) -> io::Result<()> {
    let first = &own[..part(state.own.size, own)];
    let second = &other[..part(state.other.size, other)];
    let end = part(call.x, dest);
    let rebuilt = merge(
        first,
        state.own.numbers,
        second,
        state.other.numbers,
        call.y,
        &mut dest[..end],
    );
    state.dest.size = call.x;
    say_rebuilt(rt, rebuilt, &mut state.dest, dest)
}

// One question, and its answer in the destination or beside it.
pub fn answer(
    rt: &impl Print,
    ask: Ask,
    call: Call,
    state: &mut State,
    own: &mut [u8],
    other: &[u8],
    dest: &mut [u8],
) -> io::Result<()> {
    match ask {
        Ask::Grow => grow(rt, call, state, own, dest),
        Ask::InsertSpare | Ask::InsertSpareQuick => spare(rt, ask, call, state, own, dest),
        Ask::Merge => merged(rt, call, state, own, other, dest),
    }
}
