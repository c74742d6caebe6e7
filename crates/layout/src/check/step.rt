// One step of the check: a cursor by value passes one block. The first round counts the runs that go past the last slot; the second, which knows
// how many are pending before each slot, tests every slot, the offset byte and the last eight bytes.
ghost use Rattle.std.specs.Prelude.{◌≡◌, ◌+◌, ◌*◌, ◌%◌, ◌^◌, ◌<◌, min};
ghost use Rattle.theory.specs.Shape.{slots, blocks, Widths};
ghost use Rattle.theory.specs.number.Bytes.{le};
ghost use Rattle.theory.specs.number.Field.{field};
ghost use Rattle.theory.specs.images.Block.{tail_at};
ghost use Rattle.theory.specs.check.Queue.{dist};
ghost use Rattle.theory.specs.check.Step.{begin, block_fault, first_round, second_round};
ghost use Rattle.theory.specs.check.Buffer.{step_on};
ghost use Rattle.layout.specs.Walk.{cur, sees, Fits};

use crate::blocks::Blocks;
use crate::check::flag::{differs, either, slot_fails};
use crate::shape::Shape;
use bits::compare::over;

// Where the check stands: the blocks passed in both rounds, the runends owed in the first, the runs pending, and in the second the used slots and
// whether a test failed.
#[derive(Clone, Copy)]
pub struct Cursor {
    pub passed: u64,
    pub owed: u64,
    pub pending: u64,
    pub used: u64,
    pub bad: u64,
}

impl Cursor {
    // Before the first block.
    pub fn begin() -> Cursor
        ensures { (cur result ≡ begin) × (Fits 0 result) }
    {
        Cursor {
            passed: 0,
            owed: 0,
            pending: 0,
            used: 0,
            bad: 0,
        }
    }
}

// One block of the first round, by its occupied and runend bits alone.
#[tactic(auto, using(theory::specs::check::Loops::first_begin, theory::specs::check::Loops::first_next, theory::specs::check::Loops::first_done))]
fn first(occupieds: u64, runends: u64, c: Cursor) -> Cursor
    requires { Fits (2 ^ 54) c }
    ensures { (cur result ≡ first_round (λ i. field occupieds i 1) (λ i. field runends i 1) (cur c)) × (Fits (c.passed + 1) result) }
{
    let mut pending = c.pending;
    let mut owed = c.owed;
    for i in 0..64 {
        let o = bits::bit::bit(occupieds, i);
        let e = bits::bit::bit(runends, i);
        owed += over(e, pending + o);
        pending = over(pending + o, e);
    }
    Cursor {
        passed: c.passed + 1,
        owed,
        pending,
        ..c
    }
}

// The slot i places on from the first of block b, round the end: in that block or one of the four after it.
#[tactic(auto, using(theory::specs::images::Sizes::slots_blocks, theory::specs::images::Sizes::blocks_high, theory::specs::images::Sizes::slots_pos))]
fn around(shape: Shape, b: u64, i: u64) -> u64
    requires { (Widths shape.qbits shape.rbits) × (b < blocks shape.qbits) × (i < 320) }
    ensures { (result ≡ (64 * b + i) % (64 * blocks shape.qbits)) × (result < slots shape.qbits) }
{
    (64 * b + i) % shape.slots()
}

// The runend bit that stands there.
// Kept: one function for this and the next would read a bit as a cell, which takes more than one load and one test, and could not promise the sight's
// views by their names.
#[tactic(auto, using(theory::specs::check::Buffer::sees_end))]
fn runend_on(lent: &Blocks, b: u64, i: u64) -> u64
    requires { (b < blocks lent.now.shape.qbits) × (i < 320) }
    ensures { (result ≡ (sees lent.now.shape lent.now.buf.now b).runend i) × (result < 2) }
{
    lent.is_runend(around(lent.shape, b, i))
}

// The remainder that stands there.
#[tactic(auto, using(theory::specs::check::Buffer::sees_remainder))]
fn remainder_on(lent: &Blocks, b: u64, i: u64) -> u64
    requires { (b < blocks lent.now.shape.qbits) × (i < 320) }
    ensures { result ≡ (sees lent.now.shape lent.now.buf.now b).remainder i }
{
    lent.get_remainder(around(lent.shape, b, i))
}

// How many slots from the first of block b on until p runends are met; 255 if they are not met in 255 slots.
#[tactic(auto, using(theory::specs::check::Loops::far_begin, theory::specs::check::Loops::far_step, theory::specs::check::Loops::far_met, theory::specs::check::Loops::far_end))]
fn distance(lent: &Blocks, b: u64, p: u64) -> u64
    requires { b < blocks lent.now.shape.qbits }
    ensures { result ≡ dist (sees lent.now.shape lent.now.buf.now b).runend 255 p 0 }
{
    let mut left = p;
    for d in 0..255 {
        if left < 1 {
            return d;
        }
        left -= runend_on(lent, b, d);
    }
    255
}

// The last eight bytes.
#[tactic(auto, unfolding(theory::specs::images::Block::tail_at, theory::specs::Shape::bytes))]
fn tail(lent: &Blocks) -> u64
    ensures { result ≡ tail_at lent.now.shape.rbits (blocks lent.now.shape.qbits) (le lent.now.buf.now) }
{
    bits::word::read64(lent.buf, lent.buf.len() - 8)
}

// 1 if block b's offset byte is not what p pending runs make it, or the last eight bytes are not zero.
// Kept: a number and no bool, as in check/flag.rt.
#[tactic(auto, using(theory::specs::check::Buffer::block_fails))]
fn block_fails(lent: &Blocks, b: u64, p: u64) -> u64
    requires { b < blocks lent.now.shape.qbits }
    ensures { result ≡ min 1 (block_fault (sees lent.now.shape lent.now.buf.now b) p) }
{
    either(
        differs(lent.offset_byte(b), distance(lent, b, p)),
        tail(lent),
    )
}

// One block of the second round.
#[tactic(auto, using(theory::specs::check::Loops::second_begin, theory::specs::check::Loops::second_next, theory::specs::check::Loops::second_done, theory::specs::check::Buffer::sees_occupied, theory::specs::check::Buffer::sees_runend))]
fn second(lent: &Blocks, b: u64, c: Cursor) -> Cursor
    requires { (b < blocks lent.now.shape.qbits) × (Fits (2 ^ 54) c) }
    ensures { (cur result ≡ second_round (sees lent.now.shape lent.now.buf.now b) (cur c)) × (Fits (c.passed + 1) result) }
{
    let occupieds = lent.occupieds(b);
    let runends = lent.runends(b);
    let mut pending = c.pending;
    let mut used = c.used;
    let mut bad = either(c.bad, block_fails(lent, b, pending));
    let mut here = remainder_on(lent, b, 0);
    for i in 0..64 {
        let o = bits::bit::bit(occupieds, i);
        let e = bits::bit::bit(runends, i);
        let next = remainder_on(lent, b, i + 1);
        bad = either(bad, slot_fails(pending, o, e, here, next));
        used += either(pending, o);
        pending = over(pending + o, e);
        here = next;
    }
    Cursor {
        passed: c.passed + 1,
        pending,
        used,
        bad,
        ..c
    }
}

// One block more; nothing after two rounds.
#[tactic(auto, using(theory::specs::check::Buffer::step_on_first, theory::specs::check::Buffer::step_on_second, theory::specs::check::Buffer::step_on_end))]
pub fn step(lent: &Blocks, c: Cursor) -> Cursor
    requires { Fits (2 * blocks lent.now.shape.qbits) c }
    ensures { (cur result ≡ step_on lent.now.shape.qbits lent.now.shape.rbits lent.now.buf.now (cur c)) × (Fits (2 * blocks lent.now.shape.qbits) result) }
{
    let blocks = lent.shape.blocks();
    if c.passed < blocks {
        return first(lent.occupieds(c.passed), lent.runends(c.passed), c);
    }
    if c.passed < 2 * blocks {
        return second(lent, c.passed - blocks, c);
    }
    c
}
