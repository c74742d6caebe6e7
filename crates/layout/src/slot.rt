// Where a block lies, and a cell of a slot written: its occupied bit, its runend bit or its remainder. All three are numbers of w digits, packed from
// byte d of the block on. `Blocks` reads them.
ghost use Rattle.std.specs.Prelude.{◌≡◌, ◌+◌, ◌*◌, ◌^◌, ◌<◌, ◌≤◌, length};
ghost use Rattle.theory.specs.Shape.{slots, blocks, bytes, Widths};
ghost use Rattle.theory.specs.number.Bytes.{le};
ghost use Rattle.theory.specs.number.Field.{put};
ghost use Rattle.theory.specs.images.Block.{block, Area, put_cell};
ghost use Rattle.layout.specs.Whole.{Whole};

use crate::shape::Shape;

// The first byte of the occupieds in a block.
pub const OCCUPIEDS: usize = 1;

// The first byte of the runends in a block.
pub const RUNENDS: usize = 9;

// The first byte of the remainders in a block.
pub const REMAINDERS: usize = 17;

// The first byte of block b.
#[tactic(auto, using(theory::specs::images::Sizes::bytes_high, theory::specs::images::Sizes::block_in))]
pub fn block_start(shape: Shape, b: u64) -> usize
    requires { (Widths shape.qbits shape.rbits) × (b < blocks shape.qbits) }
    ensures { (result ≡ block shape.rbits b) × (result + 17 + 8 * shape.rbits + 8 ≤ bytes shape.qbits shape.rbits) }
{
    (b as usize) * shape.block_len()
}

// Kept: buffer and shape side by side where the buffer is written, since a struct around it would say each promise before and after twice.
// The cell of slot s in the area from byte d on becomes v.
#[tactic(auto, using(theory::specs::images::Sizes::slot_block), unfolding(theory::specs::images::Block::spot))]
pub fn set_cell(buf: &mut [u8], shape: Shape, d: usize, w: u64, s: u64, v: u64)
    requires { (Whole shape (length buf.old)) × (Area shape.rbits d w) × (w ≤ 58) × (s < slots shape.qbits) × (v < 2 ^ w) }
    ensures { le buf.new ≡ put_cell shape.rbits d w (le buf.old) s v }
{
    bits::remainder::set_remainder(buf, block_start(shape, s / 64) + d, s % 64, w, v);
}

// The occupied bit of slot s becomes v.
pub fn set_occupied(buf: &mut [u8], shape: Shape, s: u64, v: u64)
    requires { (Whole shape (length buf.old)) × (s < slots shape.qbits) × (v < 2) }
    ensures { le buf.new ≡ put_cell shape.rbits 1 1 (le buf.old) s v }
{
    set_cell(buf, shape, OCCUPIEDS, 1, s, v);
}

// The offset byte of block b becomes v.
pub fn set_offset_byte(buf: &mut [u8], shape: Shape, b: u64, v: u64)
    requires { (Whole shape (length buf.old)) × (b < blocks shape.qbits) × (v < 256) }
    ensures { le buf.new ≡ put (le buf.old) (8 * block shape.rbits b) 8 v }
{
    bits::word::write8(buf, block_start(shape, b), v);
}
