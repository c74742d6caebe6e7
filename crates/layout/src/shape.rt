// A shape: qbits and rbits, with their limits.
ghost use Rattle.std.specs.Prelude.{◌≡◌, ◌+◌, ◌*◌, ◌^◌, ◌<◌, ◌≤◌};
ghost use Rattle.theory.specs.Shape.{slots, capacity, blocks, bytes, Widths};
ghost use Rattle.layout.specs.Shapes.{ShapedAs};

use crate::refusal::Refusal;

// The widths of a filter.
// Kept: that they are allowed is no invariant, so what needs it asks for it: a record that is refused has a shape too (`Numbers::shape`, `shape_of`).
#[derive(Clone, Copy)]
pub struct Shape {
    pub qbits: u8,
    pub rbits: u8,
}

impl Shape {
    // The least qbits: one block of slots.
    pub const MIN_QBITS: u8 = 6;

    // The largest qbits.
    pub const MAX_QBITS: u8 = 59;

    // The shape of these widths, or number 1.
    pub fn new(qbits: u8, rbits: u8) -> Result<Shape, Refusal>
        ensures { ShapedAs qbits rbits result }
    {
        if qbits < Self::MIN_QBITS {
            return Err(Refusal::Widths);
        }
        if Self::MAX_QBITS < qbits {
            return Err(Refusal::Widths);
        }
        if rbits < 1 {
            return Err(Refusal::Widths);
        }
        if 64 - qbits < rbits {
            return Err(Refusal::Widths);
        }
        Ok(Shape { qbits, rbits })
    }

    // How many slots there are.
    pub fn slots(self) -> u64
        requires { Widths self.qbits self.rbits }
        ensures { (result ≡ slots self.qbits) × (64 ≤ result) × (result ≤ 2 ^ 59) }
    {
        bits::bit::pow2(self.qbits as u64)
    }

    // 19 * slots / 20 rounded up is slots less a twentieth rounded down.
    pub fn capacity(self) -> u64
        requires { Widths self.qbits self.rbits }
        ensures { (result ≡ capacity self.qbits) × (result < slots self.qbits) }
    {
        let slots = self.slots();
        slots - slots / 20
    }

    // How many blocks of 64 slots there are.
    pub fn blocks(self) -> u64
        requires { Widths self.qbits self.rbits }
        ensures { (result ≡ blocks self.qbits) × (1 ≤ result) × (result ≤ 2 ^ 53) }
    {
        self.slots() / 64
    }

    // The bytes of a block.
    pub fn block_len(self) -> usize
        requires { Widths self.qbits self.rbits }
        ensures { (result ≡ 17 + 8 * self.rbits) × (result ≤ 481) }
    {
        17 + 8 * (self.rbits as usize)
    }

    // The bytes of a buffer.
    pub fn buffer_len(self) -> usize
        requires { Widths self.qbits self.rbits }
        ensures { (result ≡ bytes self.qbits self.rbits) × (result < 2 ^ 63) }
    {
        (self.blocks() as usize) * self.block_len() + 8
    }
}
