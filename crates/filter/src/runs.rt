// Where runs start and end: occupieds counted in a block, runends selected from its offset on.
ghost use Rattle.std.specs.Prelude.{◌^◌, ◌<◌, ◌≤◌};
ghost use Rattle.theory.specs.Shape.{slots, blocks};
ghost use Rattle.theory.specs.number.Bytes.{le};
ghost use Rattle.theory.specs.reading.Ring.{ring_at};
ghost use Rattle.layout.specs.Lent.{slots_of, views_of};
ghost use Rattle.theory.specs.reading.StartNear.{Pending};
ghost use Rattle.theory.specs.reading.Walks.{OffsetOf, RunStart, RunEnd, Unrolled};
ghost use Rattle.filter.specs.Runs.{InWord, NthRunend, NearestAt, Behind, NextCarry, PastRun, FreeFrom};

use bits::compare::larger;
use bits::select::select;
use layout::blocks::Blocks;

// What a word says of the runend looked for: its digit, or how many are left behind the word.
// Kept: neither case is a failure.
#[derive(Clone, Copy)]
pub enum InBlock {
    End(u64),
    On(u64),
}

// The runend looked for in the word w, from its digit `skip` on, with `left` to be passed.
#[tactic(auto, using(theory::specs::reading::Ring::high_one))]
fn runend_in(w: u64, skip: u64, left: u64) -> InBlock
    requires { skip < 64 }
    ensures { InWord w skip left result }
{
    let high = w >> skip;
    let Some(p) = select(high, left) else {
        return InBlock::On(left - bits::count::ones(high));
    };
    InBlock::End(skip + p)
}

// The n-th runend from slot `at` on, round the end.
#[tactic(auto, using(theory::specs::images::Sizes::slots_blocks, theory::specs::tools::Total::total_le))]
fn nth_runend(lent: &Blocks, at: u64, n: u64) -> Option<u64>
    requires { at < 2 ^ 61 }
    ensures { NthRunend (ring_at lent.now.shape.rbits 9 (slots_of lent.now) (le lent.now.buf.now)) (slots_of lent.now) at n result }
{
    let blocks = lent.shape.blocks();
    let mut skip = at % 64;
    let mut left = n;
    for k in at / 64..at / 64 + blocks + 1 {
        match runend_in(lent.runends(k % blocks), skip, left) {
            InBlock::End(p) => return Some(64 * k + p),
            InBlock::On(rest) => left = rest,
        }
        skip = 0;
    }
    None
}

// The slot behind the run of x, if o is the offset of its block.
#[tactic(auto, using(theory::specs::images::Sizes::slots_blocks, theory::specs::images::Sizes::slots_high, theory::specs::images::Sizes::slot_block))]
fn behind_run(lent: &Blocks, x: u64, o: u64) -> Option<u64>
    requires { (x < slots_of lent.now) × (o ≤ 2 ^ 60) }
    ensures { Behind (slots_of lent.now) (views_of lent.now) x o result }
{
    let b = x / 64;
    let k = bits::count::ones_through(lent.occupieds(b), x % 64);
    if k == 0 {
        return Some(larger(x + 1, 64 * b + o));
    }
    let p = nth_runend(lent, 64 * b + o, k - 1)?;
    Some(larger(x + 1, p + 1))
}

// The carry before the block behind block b, told by the carry o before b: that far the last run of b goes past its last slot.
#[tactic(auto, using(theory::specs::images::Sizes::slots_blocks, theory::specs::images::Sizes::blocks_high, crate::specs::Offsets::next_missed))]
pub fn next_carry(lent: &Blocks, b: u64, o: u64) -> Option<u64>
    requires { (b < blocks lent.now.shape.qbits) × (o ≤ 2 ^ 60) }
    ensures { NextCarry (slots_of lent.now) (views_of lent.now) b o result }
{
    let first = 64 * b;
    let s = behind_run(lent, first + 63, o)?;
    let next = s - (first + 64);
    if lent.shape.slots() < next {
        return None;
    }
    Some(next)
}

// How many blocks before b, round the end, the nearest one stands whose byte is below 255, if there is one.
fn blocks_back(lent: &Blocks, b: u64) -> Option<u64>
    requires { b < blocks lent.now.shape.qbits }
    ensures { NearestAt (blocks lent.now.shape.qbits) (views_of lent.now) b result }
{
    let blocks = lent.shape.blocks();
    for k in 1..blocks + 1 {
        if lent.offset_byte((b + blocks - k) % blocks) < 255 {
            return Some(k);
        }
    }
    None
}

// The true offset of block b where 255 stands there: from the nearest block before it that tells its own, a block at a time.
fn calc_offset(lent: &Blocks, b: u64) -> u64
    requires { b < blocks lent.now.shape.qbits }
    ensures { OffsetOf (slots_of lent.now) (views_of lent.now) b result }
{
    let blocks = lent.shape.blocks();
    let Some(back) = blocks_back(lent, b) else {
        return 0;
    };
    let from = b + blocks - back;
    let mut o = lent.offset_byte(from % blocks);
    for j in from..b + blocks {
        let Some(next) = next_carry(lent, j % blocks, o) else {
            return 0;
        };
        o = next;
    }
    o
}

// The carry before block b.
#[tactic(auto, using(theory::specs::images::Sizes::slots_blocks, theory::specs::reading::Walks::byte_offset))]
pub fn offset(lent: &Blocks, b: u64) -> u64
    requires { b < blocks lent.now.shape.qbits }
    ensures { OffsetOf (slots_of lent.now) (views_of lent.now) b result }
{
    let o = lent.offset_byte(b);
    if o < 255 {
        return o;
    }
    calc_offset(lent, b)
}

// How far behind slot s, which is not taken round the end, the slot behind its quotient's run is.
#[tactic(auto, using(theory::specs::images::Sizes::slot_block, crate::specs::Offsets::past_missed))]
pub fn past_run(lent: &Blocks, s: u64) -> Option<u64>
    ensures { PastRun (slots_of lent.now) (views_of lent.now) s result }
{
    let y = s % lent.shape.slots();
    let t = behind_run(lent, y, offset(lent, y / 64))?;
    Some(t - y)
}

// The last slot of the run of x; of an empty run, the slot before the next quotient's.
#[tactic(auto, using(theory::specs::images::Sizes::slots_high, crate::specs::Offsets::end_found, crate::specs::Offsets::end_missed))]
fn run_end(lent: &Blocks, x: u64) -> u64
    requires { x < slots_of lent.now }
    ensures { RunEnd (slots_of lent.now) (views_of lent.now) x result }
{
    let Some(gap) = past_run(lent, x) else {
        return x;
    };
    (x + gap - 1) % lent.shape.slots()
}

// The first slot of the run of x: the one behind the run of the quotient before.
fn start_behind(lent: &Blocks, x: u64) -> u64
    requires { x < slots_of lent.now }
    ensures { RunStart (slots_of lent.now) (views_of lent.now) x result }
{
    let slots = lent.shape.slots();
    (run_end(lent, (x + slots - 1) % slots) + 1) % slots
}

// The first slot of the run of x, if n runends stand from slot x on before it: the one behind the last of them.
#[tactic(auto, using(theory::specs::images::Sizes::slots_high))]
fn start_past(lent: &Blocks, x: u64, n: u64) -> u64
    requires { (x < slots_of lent.now) × (0 < n) × Pending (slots_of lent.now) (views_of lent.now) x n }
    ensures { RunStart (slots_of lent.now) (views_of lent.now) x result }
{
    let Some(p) = nth_runend(lent, x, n - 1) else {
        return x;
    };
    (p + 1) % lent.shape.slots()
}

// The first slot of the run of x. Where no run from before the block reaches slot x, it is the one behind the runends of those of the block's runs
// that are not over at x. They are few, and mostly in its word, which is shifted up by one from x on, with a one below for x itself. Put in line, as
// `find_hash` is.
#[tactic(auto, using(theory::specs::images::Sizes::slots_high, theory::specs::images::Sizes::slot_block))]
#[inline(always)]
pub fn run_start(lent: &Blocks, x: u64) -> u64
    requires { x < slots_of lent.now }
    ensures { RunStart (slots_of lent.now) (views_of lent.now) x result }
{
    let b = x / 64;
    let i = x % 64;
    let o = lent.offset_byte(b);
    if i < o {
        return start_behind(lent, x);
    }
    let word = lent.runends(b);
    let begun = bits::count::ones_below(lent.occupieds(b), i);
    let over = bits::count::ones_between(word, o, i);
    // On a damaged buffer only.
    if begun < over {
        return x;
    }
    let n = begun - over;
    let Some(p) = select(((word >> i) << 1) + 1, n) else {
        return start_past(lent, x, n);
    };
    (x + p) % lent.shape.slots()
}

// The slot `at`, or a round on from it, whichever is not before x.
pub fn unrolled(at: u64, x: u64, slots: u64) -> u64
    requires { (at < slots) × (x < slots) × (slots ≤ 2 ^ 59) }
    ensures { Unrolled slots at x result }
{
    if at < x { at + slots } else { at }
}

// The first free slot from slot x on, not taken round the end: from each slot that is used on to the one behind its run.
#[tactic(auto, using(crate::specs::Offsets::walked_none, crate::specs::Offsets::walked_missed, crate::specs::Offsets::walked_round))]
pub fn first_free(lent: &Blocks, x: u64) -> Option<u64>
    requires { x < slots_of lent.now }
    ensures { FreeFrom (slots_of lent.now) (views_of lent.now) x result }
{
    let slots = lent.shape.slots();
    let mut s = x;
    // Kept: it does not count, it jumps from run to run.
    while s < x + slots {
        let gap = past_run(lent, s)?;
        if gap + lent.is_runend(s % slots) == 1 {
            return Some(s);
        }
        s += gap;
    }
    None
}
