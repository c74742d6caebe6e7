// A lent buffer of whole blocks, and what is read of it: the occupied bit, the runend bit and the remainder of a slot, which are numbers of w digits,
// packed from byte d of their block on, and a block's words and its offset byte.
ghost use Rattle.std.specs.Prelude.{length};
ghost use Rattle.layout.specs.Whole.{Whole};

use crate::numbers::Numbers;
use crate::shape::Shape;
use crate::slot::{OCCUPIEDS, REMAINDERS, RUNENDS, block_start};

// A lent buffer of whole blocks: its shape is allowed, and its length is the formula's.
#[derive(Clone, Copy)]
pub struct Blocks<'a> {
    pub buf: &'a [u8],
    pub shape: Shape,
    pub ghost whole: { Whole shape (length buf.now) },
}

impl<'a> Blocks<'a> {
    ghost use Rattle.std.specs.Prelude.{◌≡◌, ◌^◌, ◌<◌, ◌≤◌};
    ghost use Rattle.theory.specs.Shape.{slots, blocks};
    ghost use Rattle.theory.specs.number.Bytes.{le};
    ghost use Rattle.theory.specs.images.Block.{Area, cell_at, word_at, offset_at};
    ghost use Rattle.layout.specs.Records.{shape_of, lowest_due};

    // The buffer that a record comes with, if none of numbers 1 to 5 is due.
    #[tactic(auto, using(crate::specs::Judging::clear_whole))]
    pub fn of(buf: &'a [u8], n: Numbers) -> Self
        requires { lowest_due n buf.now ≡ 0 }
        ensures { (result.buf ≡ buf.entry) × (result.shape ≡ shape_of n) }
    {
        Blocks {
            buf,
            shape: n.shape(),
        }
    }

    // The cell of slot s in the area from byte d on, of w digits.
    #[tactic(auto, using(theory::specs::images::Sizes::slot_block), unfolding(theory::specs::images::Block::cell_at, theory::specs::images::Block::spot))]
    pub fn get_cell(&self, d: usize, w: u64, s: u64) -> u64
        requires { (Area self.now.shape.rbits d w) × (w ≤ 58) × (s < slots self.now.shape.qbits) }
        ensures { (result ≡ cell_at self.now.shape.rbits d w (le self.now.buf.now) s) × (result < 2 ^ w) }
    {
        bits::remainder::get_remainder(self.buf, block_start(self.shape, s / 64) + d, s % 64, w)
    }

    // The 64 bits of block b in the area from byte d on.
    #[tactic(auto, unfolding(theory::specs::images::Block::word_at))]
    fn bits_of(&self, d: usize, b: u64) -> u64
        requires { (Area self.now.shape.rbits d 1) × (b < blocks self.now.shape.qbits) }
        ensures { result ≡ word_at self.now.shape.rbits d (le self.now.buf.now) b }
    {
        bits::word::read64(self.buf, block_start(self.shape, b) + d)
    }

    // Kept, here and in `is_occupied` and `is_runend`: a number and no bool, as the definition of a cell has it; a runend is added up, too.
    // The bit of slot s in the area from byte d on, 0 or 1: with one load and one test, which `get_cell` for one digit is not.
    #[tactic(auto, using(theory::specs::images::Sizes::slot_block, theory::specs::images::Block::word_bit))]
    fn bit_of(&self, d: usize, s: u64) -> u64
        requires { (Area self.now.shape.rbits d 1) × (s < slots self.now.shape.qbits) }
        ensures { (result ≡ cell_at self.now.shape.rbits d 1 (le self.now.buf.now) s) × (result < 2) }
    {
        bits::bit::bit(self.bits_of(d, s / 64), s % 64)
    }

    // The 64 occupied bits of block b.
    pub fn occupieds(&self, b: u64) -> u64
        requires { b < blocks self.now.shape.qbits }
        ensures { result ≡ word_at self.now.shape.rbits 1 (le self.now.buf.now) b }
    {
        self.bits_of(OCCUPIEDS, b)
    }

    // The 64 runend bits of block b.
    pub fn runends(&self, b: u64) -> u64
        requires { b < blocks self.now.shape.qbits }
        ensures { result ≡ word_at self.now.shape.rbits 9 (le self.now.buf.now) b }
    {
        self.bits_of(RUNENDS, b)
    }

    // The occupied bit of slot s, 0 or 1.
    pub fn is_occupied(&self, s: u64) -> u64
        requires { s < slots self.now.shape.qbits }
        ensures { (result ≡ cell_at self.now.shape.rbits 1 1 (le self.now.buf.now) s) × (result < 2) }
    {
        self.bit_of(OCCUPIEDS, s)
    }

    // The runend bit of slot s, 0 or 1.
    pub fn is_runend(&self, s: u64) -> u64
        requires { s < slots self.now.shape.qbits }
        ensures { (result ≡ cell_at self.now.shape.rbits 9 1 (le self.now.buf.now) s) × (result < 2) }
    {
        self.bit_of(RUNENDS, s)
    }

    // The remainder in slot s.
    pub fn get_remainder(&self, s: u64) -> u64
        requires { s < slots self.now.shape.qbits }
        ensures { (result ≡ cell_at self.now.shape.rbits 17 self.now.shape.rbits (le self.now.buf.now) s) × (result < 2 ^ self.now.shape.rbits) }
    {
        self.get_cell(REMAINDERS, u64::from(self.shape.rbits), s)
    }

    // The offset byte of block b.
    #[tactic(auto, unfolding(theory::specs::images::Block::offset_at))]
    pub fn offset_byte(&self, b: u64) -> u64
        requires { b < blocks self.now.shape.qbits }
        ensures { (result ≡ offset_at self.now.shape.rbits (le self.now.buf.now) b) × (result < 256) }
    {
        bits::word::read8(self.buf, block_start(self.shape, b))
    }
}
