// Cells of an area moved by one slot, round the end; offset bytes counted up.
// Kept: buffer and shape side by side where the buffer is written, since a struct around it would say each promise before and after twice.
ghost use Rattle.std.specs.Prelude.{◌≡◌, ◌+◌, ◌^◌, ◌<◌, ◌≤◌, min, length};
ghost use Rattle.theory.specs.Shape.{slots, blocks};
ghost use Rattle.theory.specs.number.Bytes.{le};
ghost use Rattle.theory.specs.images.Block.{Area};
ghost use Rattle.theory.specs.writing.PutIn.{PutIn, TakenOut};
ghost use Rattle.theory.specs.writing.RaisedOffsets.{bump};
ghost use Rattle.layout.specs.Whole.{Whole};

use bits::compare::lesser;
use layout::blocks::Blocks;
use layout::shape::Shape;
use layout::slot;

// A cell more with v in it at slot a: those from a to before e move on by one.
#[tactic(auto, using(theory::specs::images::Sizes::slot_round))]
pub fn put_in(buf: &mut [u8], shape: Shape, d: usize, w: u64, a: u64, e: u64, v: u64)
    requires { (Whole shape (length buf.old)) × (Area shape.rbits d w) × (w ≤ 58) × (a ≤ e) × (e < a + slots shape.qbits) × (e < 2 ^ 62) × (v < 2 ^ w) }
    ensures { PutIn shape.rbits d w (slots shape.qbits) (blocks shape.qbits) a e v (le buf.old) (le buf.new) }
{
    let slots = shape.slots();
    for t in (a..e).rev() {
        let c = Blocks { buf, shape }.get_cell(d, w, t % slots);
        slot::set_cell(buf, shape, d, w, (t + 1) % slots, c);
    }
    slot::set_cell(buf, shape, d, w, a % slots, v);
}

// The cell at slot a taken out: those behind it up to e move back by one, and e is cleared.
#[tactic(auto, using(theory::specs::images::Sizes::slot_round))]
pub fn take_out(buf: &mut [u8], shape: Shape, d: usize, w: u64, a: u64, e: u64)
    requires { (Whole shape (length buf.old)) × (Area shape.rbits d w) × (w ≤ 58) × (a ≤ e) × (e < a + slots shape.qbits) × (e < 2 ^ 62) }
    ensures { TakenOut shape.rbits d w (slots shape.qbits) (blocks shape.qbits) a e (le buf.old) (le buf.new) }
{
    let slots = shape.slots();
    for t in a..e {
        let c = Blocks { buf, shape }.get_cell(d, w, (t + 1) % slots);
        slot::set_cell(buf, shape, d, w, t % slots, c);
    }
    slot::set_cell(buf, shape, d, w, e % slots, 0);
}

// One more, as far as a byte goes.
fn counted_up(byte: u64) -> u64
    requires { byte < 256 }
    ensures { (result ≡ min (byte + 1) 255) × (result < 256) }
{
    lesser(byte + 1, 255)
}

// The offsets of the k blocks behind block a, each one more.
pub fn inc_offsets(buf: &mut [u8], shape: Shape, a: u64, k: u64)
    requires { (Whole shape (length buf.old)) × (a < 2 ^ 60) × (k < 2 ^ 60) }
    ensures { le buf.new ≡ bump shape.rbits (blocks shape.qbits) a k (le buf.old) }
{
    let blocks = shape.blocks();
    for b in a..a + k {
        let byte = Blocks { buf, shape }.offset_byte((b + 1) % blocks);
        slot::set_offset_byte(buf, shape, (b + 1) % blocks, counted_up(byte));
    }
}
