// One copy fewer of a fingerprint.
// Kept: buffer and shape side by side where the buffer is written, since a struct around it would say each promise before and after twice.
ghost use Rattle.std.specs.Prelude.{◌≡◌, ◌+◌, ◌-◌, ◌^◌, ◌<◌, ◌≤◌, min, length};
ghost use Rattle.theory.specs.Shape.{slots, blocks};
ghost use Rattle.theory.specs.number.Bytes.{le};
ghost use Rattle.theory.specs.carry.CarryMore.{upto};
ghost use Rattle.theory.specs.writing.Removing.{TookOut};
ghost use Rattle.layout.specs.Whole.{Whole};
ghost use Rattle.layout.specs.Lent.{slots_of, views_of};
ghost use Rattle.writing.specs.CopyOut.{LastSeen, GoingFor};
ghost use Rattle.writing.specs.Shifted.{ShiftedFrom, Renews};
ghost use Rattle.writing.specs.Remove.{WroteOut, RemovesCore};

use crate::shift;
use bits::compare::{lesser, over};
use filter::lookup::{quotient, remainder};
use filter::runs::{next_carry, offset, past_run, run_start, unrolled};
use layout::blocks::Blocks;
use layout::refusal::Refusal;
use layout::shape::Shape;
use layout::slot;

// The copy that goes: its slot and that of the runend bit that goes with it, not taken round the end, and what the occupied bit becomes.
#[derive(Clone, Copy)]
pub struct GoingCopy {
    pub slot: u64,
    pub bit_slot: u64,
    pub bit: u64,
}

// The last remainder equal to `rem` in the run that starts at slot `at`: its place, from 0, and how many places the run has; or none equal.
#[tactic(auto, using(crate::specs::CopyOut::looking_none))]
fn last_equal(lent: &Blocks, at: u64, rem: u64) -> Option<(u64, u64)>
    requires { at < slots_of lent.now }
    ensures { LastSeen (slots_of lent.now) (views_of lent.now) at rem result }
{
    let slots = lent.shape.slots();
    let mut k = 0;
    let mut last = None;
    // Kept: a scan of a run's slots is a loop left by break.
    loop {
        let s = (at + k) % slots;
        if lent.get_remainder(s) == rem {
            last = Some(k);
        }
        k += 1;
        if lent.is_runend(s) == 1 || k == slots {
            break Some((last?, k));
        }
    }
}

// The place of the runend bit that goes: in front of the run's last, which stays the last, or the only one.
fn bit_place(place: u64, size: u64) -> u64
    ensures { result ≡ min place (size - 2) }
{
    lesser(place, over(size, 2))
}

// Which copy goes: the last equal one of the run, or none.
fn find_copy(lent: &Blocks, x: u64, rem: u64) -> Option<GoingCopy>
    requires { x < slots_of lent.now }
    ensures { GoingFor lent.now.shape lent.now.buf.now x rem result }
{
    if lent.is_occupied(x) == 0 {
        return None;
    }
    let at = run_start(lent, x);
    // Kept: a miss of a scan is taken apart by let .. else and left at once.
    let Some((place, size)) = last_equal(lent, at, rem) else {
        return None;
    };
    let first = unrolled(at, x, lent.shape.slots());
    Some(GoingCopy {
        slot: first + place,
        bit_slot: first + bit_place(place, size),
        bit: lesser(1, size - 1),
    })
}

// The last slot that is shifted from slot x on, not taken round the end: from each slot on to the last that its run fills.
#[tactic(auto, using(crate::specs::Shifted::moving_none, crate::specs::Shifted::moving_missed, crate::specs::Shifted::moving_round))]
fn last_shifted(lent: &Blocks, x: u64) -> Option<u64>
    requires { x < slots_of lent.now }
    ensures { ShiftedFrom (slots_of lent.now) (views_of lent.now) x result }
{
    let slots = lent.shape.slots();
    let mut s = x;
    // Kept: it does not count, it jumps from run to run.
    while s < x + slots {
        let gap = past_run(lent, s)?;
        if gap == 1 {
            return Some(s);
        }
        s += gap - 1;
    }
    None
}

// The carry o before slot `first`, less one if the slot e that is cleared lies there or behind.
#[tactic(auto, unfolding(theory::specs::carry::CarryMore::upto))]
fn carry_without(o: u64, first: u64, e: u64) -> u64
    ensures { result ≡ o - upto e first }
{
    over(o, u64::from(first <= e))
}

// The copy and its runend bit taken out, what stands behind them up to e moved back by one, and the occupied bit as it becomes.
#[tactic(auto, using(theory::specs::images::Block::remainders, theory::specs::images::Block::runends, theory::specs::images::Sizes::slots_high))]
fn take(buf: &mut [u8], shape: Shape, x: u64, copy: GoingCopy, e: u64)
    requires { (Whole shape (length buf.old)) × (x < slots shape.qbits) × (copy.bit < 2) × (x ≤ copy.bit_slot) × (copy.bit_slot ≤ copy.slot) × (copy.slot ≤ e) × (e < x + slots shape.qbits) }
    ensures { TookOut shape.rbits (slots shape.qbits) (blocks shape.qbits) x copy.slot copy.bit_slot e copy.bit (le buf.old) (le buf.new) }
{
    shift::take_out(
        buf,
        shape,
        slot::REMAINDERS,
        shape.rbits as u64,
        copy.slot,
        e,
    );
    shift::take_out(buf, shape, slot::RUNENDS, 1, copy.bit_slot, e);
    slot::set_occupied(buf, shape, x, copy.bit);
}

// The offsets of the k blocks behind block a, told anew a block at a time from the carry o before block a: a stored 255 does not say whether it falls.
#[tactic(auto, using(crate::specs::Shifted::renewing_none, crate::specs::Shifted::renews_all))]
fn renew_offsets(buf: &mut [u8], shape: Shape, a: u64, k: u64, o: u64) -> Result<(), Refusal>
    requires { (Whole shape (length buf.old)) × (a < 2 ^ 60) × (k < 2 ^ 60) × (o ≤ 2 ^ 60) }
    ensures { Renews shape.rbits (slots shape.qbits) (blocks shape.qbits) a k o (le buf.old) result (le buf.new) }
{
    let blocks = shape.blocks();
    let mut carry = o;
    for j in 0..k {
        let Some(next) = next_carry(&Blocks { buf, shape }, (a + j) % blocks, carry) else {
            return Err(Refusal::NotSound);
        };
        slot::set_offset_byte(buf, shape, (a + j + 1) % blocks, lesser(next, 255));
        carry = next;
    }
    Ok(())
}

// One copy fewer, written: the carry before the block of x is told while its byte still tells it, the cells are moved, and the offsets behind told anew from it.
#[tactic(auto, using(theory::specs::images::Sizes::slot_block))]
fn write_out(buf: &mut [u8], shape: Shape, x: u64, copy: GoingCopy, e: u64) -> Result<(), Refusal>
    requires { (Whole shape (length buf.old)) × (x < slots shape.qbits) × (copy.bit < 2) × (x ≤ copy.bit_slot) × (copy.bit_slot ≤ copy.slot) × (copy.slot ≤ e) × (e < x + slots shape.qbits) }
    ensures { WroteOut shape.rbits (slots shape.qbits) (blocks shape.qbits) x copy e (le buf.old) result (le buf.new) }
{
    let b = x / 64;
    let o = carry_without(offset(&Blocks { buf, shape }, b), 64 * b + shape.slots(), e);
    take(buf, shape, x, copy, e);
    renew_offsets(buf, shape, b, e / 64 - b, o)
}

// The rule of remove: one copy fewer of what is held, true; of what is not, nothing, false.
pub fn remove_core(buf: &mut [u8], shape: Shape, hash: u64) -> Result<bool, Refusal>
    requires { Whole shape (length buf.old) }
    ensures { RemovesCore shape hash buf.old result buf.new }
{
    let x = quotient(shape, hash);
    let rem = remainder(shape, hash);
    let lent = Blocks { buf, shape };
    let Some(copy) = find_copy(&lent, x, rem) else {
        return Ok(false);
    };
    let Some(e) = last_shifted(&lent, x) else {
        return Err(Refusal::NotSound);
    };
    if e < copy.slot {
        return Err(Refusal::NotSound);
    }
    write_out(buf, shape, x, copy, e)?;
    Ok(true)
}
