// The record of numbers that a filter comes with, and which of numbers 1 to 5 is due.
ghost use Rattle.std.specs.Prelude.{◌≡◌};
ghost use Rattle.theory.specs.Refusal.{max_due, due_of, due};
ghost use Rattle.theory.specs.Shape.{Widths};
ghost use Rattle.layout.specs.Refusals.{Asked};
ghost use Rattle.layout.specs.Records.{empty_record, shape_of, with_shape, with_len};

use crate::refusal::Refusal;
use crate::shape::Shape;

// max_qbits is 0 for none; the family says which hash made the fingerprints.
#[repr(C)]
#[derive(Clone, Copy)]
pub struct Numbers {
    pub len: u64,
    pub qbits: u8,
    pub rbits: u8,
    pub max_qbits: u8,
    pub family: u64,
}

impl Numbers {
    // The record of an empty filter.
    pub fn empty(qbits: u8, rbits: u8, max_qbits: u8, family: u64) -> Numbers
        ensures { result ≡ empty_record qbits rbits max_qbits family }
    {
        Numbers {
            len: 0,
            qbits,
            rbits,
            max_qbits,
            family,
        }
    }

    // The shape of the filter.
    pub fn shape(self) -> Shape
        ensures { result ≡ shape_of self }
    {
        Shape {
            qbits: self.qbits,
            rbits: self.rbits,
        }
    }

    // The record at other widths, with this len.
    pub fn with_shape(self, shape: Shape, len: u64) -> Numbers
        ensures { result ≡ with_shape self shape len }
    {
        Numbers {
            len,
            qbits: shape.qbits,
            rbits: shape.rbits,
            max_qbits: self.max_qbits,
            family: self.family,
        }
    }

    // The record with another len.
    pub fn with_len(self, len: u64) -> Numbers
        ensures { result ≡ with_len self len }
    {
        self.with_shape(self.shape(), len)
    }
}

// Is number 4 due?
pub fn max_due(shape: Shape, max_qbits: u8) -> Result<(), Refusal>
    requires { Widths shape.qbits shape.rbits }
    ensures { Asked (max_due shape.qbits shape.rbits max_qbits) result }
{
    if max_qbits == 0 {
        return Ok(());
    }
    if max_qbits < shape.qbits {
        return Err(Refusal::MaxQbits);
    }
    if Shape::MAX_QBITS < max_qbits {
        return Err(Refusal::MaxQbits);
    }
    if shape.qbits + shape.rbits - 1 < max_qbits {
        return Err(Refusal::MaxQbits);
    }
    Ok(())
}

// The lowest of numbers 2 to 5 that is due. Above capacity, fewer slots are free than a twentieth of all, rounded down: told without a division.
fn due_of(shape: Shape, size: usize, len: u64, max_qbits: u8) -> Result<(), Refusal>
    requires { Widths shape.qbits shape.rbits }
    ensures { Asked (due_of shape.qbits shape.rbits len max_qbits size) result }
{
    if size != shape.buffer_len() {
        return Err(Refusal::BufferLength);
    }
    let slots = shape.slots();
    if slots < len {
        return Err(Refusal::TooMany);
    }
    max_due(shape, max_qbits)?;
    if 20 * (slots - len + 1) <= slots {
        return Err(Refusal::TooFull);
    }
    Ok(())
}

// The lowest of numbers 1 to 5 that is due for a buffer of this length.
pub fn number_due(size: usize, n: Numbers) -> Result<(), Refusal>
    ensures { Asked (due n.qbits n.rbits n.len n.max_qbits size) result }
{
    let shape = Shape::new(n.qbits, n.rbits)?;
    due_of(shape, size, n.len, n.max_qbits)
}
