// What alters the buffer: a fresh filter, insert and remove.
use crate::script::Call;
use crate::state::{Lent, low, numbers_of, part};
use crate::{ROOM, say};
use layout::numbers::Numbers;
use layout::refusal::Refusal;
use std::io;
use writing::writers::{
    insert_fingerprint_counting, insert_fingerprint_counting_quick, remove_fingerprint,
    remove_fingerprint_quick,
};

// A fresh filter, an insert, a remove, many of either, or nothing, after a byte was made another.
#[derive(Clone, Copy)]
pub enum Ask {
    Fresh,
    Insert,
    InsertQuick,
    InsertMany,
    Remove,
    RemoveQuick,
    RemoveMany,
    Damage,
}

// A fresh filter of these widths and this family.
fn fresh(rt: &impl Print, buf: &mut [u8], n: Numbers, asked: Numbers) -> io::Result<Numbers> {
    match layout::fresh::fresh(buf, asked.qbits, asked.rbits, asked.max_qbits, asked.family) {
        Ok(after) => {
            print!(rt; "fresh")?;
            Ok(after)
        }
        Err(refusal) => {
            say::refused(rt, refusal)?;
            Ok(n)
        }
    }
}

// An insert's answer said, and the record after it.
fn say_inserted(
    rt: &impl Print,
    n: Numbers,
    inserted: Result<(u64, Numbers), Refusal>,
) -> io::Result<Numbers> {
    match inserted {
        Ok((m, after)) => {
            print!(rt; "counted {m}")?;
            Ok(after)
        }
        Err(refusal) => {
            say::refused(rt, refusal)?;
            Ok(n)
        }
    }
}

// A remove's answer said, and the record after it.
fn say_removed(
    rt: &impl Print,
    n: Numbers,
    removed: Result<Option<Numbers>, Refusal>,
) -> io::Result<Numbers> {
    match removed {
        Ok(Some(after)) => {
            print!(rt; "gone")?;
            Ok(after)
        }
        Ok(None) => {
            print!(rt; "absent")?;
            Ok(n)
        }
        Err(refusal) => {
            say::refused(rt, refusal)?;
            Ok(n)
        }
    }
}

// One insert among many; the record after it, and after a refusal the one before.
fn insert_one(buf: &mut [u8], n: Numbers, hash: u64) -> Numbers {
    match insert_fingerprint_counting_quick(buf, n, hash, u64::MAX) {
        Ok((_, after)) => after,
        Err(_) => n,
    }
}

// The same of a remove.
fn remove_one(buf: &mut [u8], n: Numbers, hash: u64) -> Numbers {
    match remove_fingerprint_quick(buf, n, hash) {
        Ok(Some(after)) => after,
        Ok(None) | Err(_) => n,
    }
}

// As many as the call says, each hash a step on from the one before.
fn many<F: Fn(&mut [u8], Numbers, u64) -> Numbers>(
    rt: &impl Print,
    call: Call,
    buf: &mut [u8],
    n: Numbers,
    one: F,
) -> io::Result<Numbers>
    requires { F.IsAlwaysCallable one }
{
    let mut after = n;
    let mut hash = call.x;
    for _ in 0..call.z {
        after = one(buf, after, hash);
        hash = hash.wrapping_add(call.y);
    }
    print!(rt; "many")?;
    Ok(after)
}

// One question to the part that is lent; the record afterwards.
fn ask_part(
    rt: &impl Print,
    ask: Ask,
    call: Call,
    buf: &mut [u8],
    n: Numbers,
) -> io::Result<Numbers> {
    let (hash, most) = (call.x, call.y);
    match ask {
        Ask::Fresh => fresh(rt, buf, n, numbers_of(0, call.y, call.z)),
        Ask::Insert => say_inserted(rt, n, insert_fingerprint_counting(buf, n, hash, most)),
        Ask::InsertQuick => say_inserted(
            rt,
            n,
            insert_fingerprint_counting_quick(buf, n, hash, most),
        ),
        Ask::InsertMany => many(rt, call, buf, n, insert_one),
        Ask::Remove => say_removed(rt, n, remove_fingerprint(buf, n, hash)),
        Ask::RemoveQuick => say_removed(rt, n, remove_fingerprint_quick(buf, n, hash)),
        Ask::RemoveMany => many(rt, call, buf, n, remove_one),
        Ask::Damage => {
            print!(rt; "byte")?;
            Ok(n)
        }
    }
}

// What comes before the question: `f` says itself how much is lent, `b` makes a byte another.
fn prepare(ask: Ask, call: Call, lent: &mut Lent, room: &mut [u8; ROOM]) {
    match ask {
        Ask::Fresh => lent.size = call.x,
        Ask::Damage => room[(call.x % 4096) as usize] = low(call.y),
        _ => {}
    }
}

// The question's answer, and then len, the family and the sum of the bytes.
pub fn answer(
    rt: &impl Print,
    ask: Ask,
    call: Call,
    lent: &mut Lent,
    room: &mut [u8; ROOM],
) -> io::Result<()> {
    prepare(ask, call, lent, room);
    let end = part(lent.size, room);
    let after = ask_part(rt, ask, call, &mut room[..end], lent.numbers)?;
    lent.numbers = after;
    print!(rt; " {} {:016x}", after.len, after.family)?;
    say::sum(rt, lent.size, room)
}
