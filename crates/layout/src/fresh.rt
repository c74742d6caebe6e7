// A fresh filter: widths, a family and a lent buffer, which is cleared.
ghost use Rattle.std.specs.Prelude.{◌≡◌, length, replicate};
ghost use Rattle.layout.specs.Fresh.{MadeAs};

use crate::numbers::{Numbers, max_due};
use crate::refusal::Refusal;
use crate::shape::Shape;

// All bytes zero.
pub fn clear(buf: &mut [u8])
    ensures { buf.new ≡ replicate (length buf.old) 0 }
{
    buf.fill(0);
}

// An empty filter of these widths and this family in the buffer; or number 1, 4, then 12, and the buffer as it was.
pub fn fresh(
    buf: &mut [u8],
    qbits: u8,
    rbits: u8,
    max_qbits: u8,
    family: u64,
) -> Result<Numbers, Refusal>
    ensures { MadeAs buf.old qbits rbits max_qbits family result buf.new }
{
    let shape = Shape::new(qbits, rbits)?;
    max_due(shape, max_qbits)?;
    if buf.len() != shape.buffer_len() {
        return Err(Refusal::DestinationLength);
    }
    clear(buf);
    Ok(Numbers::empty(qbits, rbits, max_qbits, family))
}
