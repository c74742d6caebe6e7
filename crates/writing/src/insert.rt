// One copy more of a fingerprint.
// Kept: buffer and shape side by side where the buffer is written, since a struct around it would say each promise before and after twice.
ghost use Rattle.std.specs.Prelude.{◌+◌, ◌^◌, ◌<◌, ◌≤◌, length};
ghost use Rattle.theory.specs.Shape.{slots, blocks};
ghost use Rattle.theory.specs.number.Bytes.{le};
ghost use Rattle.theory.specs.writing.Inserting.{Wrote};
ghost use Rattle.layout.specs.Whole.{Whole};
ghost use Rattle.layout.specs.Lent.{slots_of, views_of};
ghost use Rattle.writing.specs.CopyIn.{Scanned, SpotFor};
ghost use Rattle.writing.specs.Insert.{InsertsCore};

use crate::shift;
use bits::compare::equal;
use filter::lookup::{quotient, remainder};
use filter::runs::{first_free, run_start, unrolled};
use layout::blocks::Blocks;
use layout::refusal::Refusal;
use layout::shape::Shape;
use layout::slot;

// Kept: neither case is a failure.
// Where a scan of a run stops: the place that one copy more takes, before a larger remainder or at the run's end, and the copies met.
#[derive(Clone, Copy)]
pub enum Stop {
    Inside(u64, u64),
    AtEnd(u64, u64),
}

// The slots, not taken round the end, of one copy more and of the runend bit that comes with it, that bit, and how many copies there are.
#[derive(Clone, Copy)]
pub struct Spot {
    pub slot: u64,
    pub bit_slot: u64,
    pub bit: u64,
    pub copies: u64,
}

// What the core of an insert says: nothing changed, or one copy more.
#[derive(Clone, Copy)]
pub enum Insertion {
    Enough(u64),
    Added(u64),
}

// The place that one copy more of `rem` takes in the run that starts at slot `at`, left from inside once a larger remainder or the run's end is met.
fn scan(lent: &Blocks, at: u64, rem: u64) -> Stop
    requires { at < slots_of lent.now }
    ensures { Scanned (slots_of lent.now) (views_of lent.now) at rem result }
{
    let slots = lent.shape.slots();
    let mut k = 0;
    let mut copies = 0;
    // Kept: a scan of a run's slots is a loop left by break.
    loop {
        let s = (at + k) % slots;
        let here = lent.get_remainder(s);
        if rem < here {
            break Stop::Inside(k, copies);
        }
        k += 1;
        copies += equal(here, rem);
        if lent.is_runend(s) == 1 || k == slots {
            break Stop::AtEnd(k, copies);
        }
    }
}

// Where one copy more goes: into a run that it makes, inside the run, or at its end.
fn find_spot(lent: &Blocks, x: u64, rem: u64) -> Spot
    requires { x < slots_of lent.now }
    ensures { SpotFor lent.now.shape lent.now.buf.now x rem result }
{
    let at = run_start(lent, x);
    let first = unrolled(at, x, lent.shape.slots());
    if lent.is_occupied(x) == 0 {
        return Spot {
            slot: first,
            bit_slot: first,
            bit: 1,
            copies: 0,
        };
    }
    match scan(lent, at, rem) {
        Stop::Inside(place, copies) => Spot {
            slot: first + place,
            bit_slot: first + place,
            bit: 0,
            copies,
        },
        Stop::AtEnd(place, copies) => Spot {
            slot: first + place,
            bit_slot: first + place - 1,
            bit: 0,
            copies,
        },
    }
}

// Everything between the spot and the free slot e moves on by one; the occupied bit is set; the carries between grow by one.
#[tactic(auto, using(theory::specs::images::Block::remainders, theory::specs::images::Block::runends, theory::specs::images::Sizes::slots_high))]
fn write_in(buf: &mut [u8], shape: Shape, x: u64, rem: u64, spot: Spot, e: u64)
    requires { (Whole shape (length buf.old)) × (x < slots shape.qbits) × (rem < 2 ^ shape.rbits) × (spot.bit < 2) × (x ≤ spot.bit_slot) × (spot.bit_slot ≤ spot.slot) × (spot.slot ≤ e) × (e < x + slots shape.qbits) }
    ensures { Wrote shape.rbits (slots shape.qbits) (blocks shape.qbits) x spot.slot spot.bit_slot e rem spot.bit (le buf.old) (le buf.new) }
{
    shift::put_in(
        buf,
        shape,
        slot::REMAINDERS,
        shape.rbits as u64,
        spot.slot,
        e,
        rem,
    );
    shift::put_in(buf, shape, slot::RUNENDS, 1, spot.bit_slot, e, spot.bit);
    slot::set_occupied(buf, shape, x, 1);
    shift::inc_offsets(buf, shape, x / 64, e / 64 - x / 64);
}

// The rule of insert: copies counted first, then capacity asked, then one copy more.
pub fn insert_core(
    buf: &mut [u8],
    shape: Shape,
    len: u64,
    hash: u64,
    max_count: u64,
) -> Result<Insertion, Refusal>
    requires { Whole shape (length buf.old) }
    ensures { InsertsCore shape len hash max_count buf.old result buf.new }
{
    let x = quotient(shape, hash);
    let rem = remainder(shape, hash);
    let lent = Blocks { buf, shape };
    let spot = find_spot(&lent, x, rem);
    if max_count <= spot.copies {
        return Ok(Insertion::Enough(max_count));
    }
    if shape.capacity() <= len {
        return Err(Refusal::NoRoom);
    }
    let Some(e) = first_free(&lent, x) else {
        return Err(Refusal::NotSound);
    };
    if e < spot.slot {
        return Err(Refusal::NotSound);
    }
    write_in(buf, shape, x, rem, spot, e);
    Ok(Insertion::Added(spot.copies))
}
