// The parts of an answer's line.
ghost use Rattle.std.specs.Prelude.{◌<◌};

use crate::state::part;
use filter::listing::Place;
use layout::numbers::Numbers;
use layout::refusal::Refusal;
use std::io;

// The largest prime below 2 ^ 32.
const MODULUS: u64 = 4294967291;

// A refusal and its number.
pub fn refused(rt: &impl Print, refusal: Refusal) -> io::Result<()> {
    print!(rt; "refused {refusal}")
}

// A record: len, widths and family.
pub fn record(rt: &impl Print, n: Numbers) -> io::Result<()> {
    print!(rt;
        " {} {} {} {} {:016x}",
        n.len, n.qbits, n.rbits, n.max_qbits, n.family
    )
}

// The place of a listing.
pub fn place(rt: &impl Print, p: Place) -> io::Result<()> {
    print!(rt; " {} {} {}", p.quotient, p.slot, p.remaining)
}

// The bit pattern of a float.
pub fn float(rt: &impl Print, x: f64) -> io::Result<()> {
    if x.is_nan() {
        print!(rt; " nan")
    } else {
        print!(rt; " {:016x}", x.to_bits())
    }
}

// The bytes as a number in base 257, modulo a prime: no byte changes alone without the sum.
fn sum_of(buf: &[u8]) -> u64
    ensures { result < 4294967291 }
{
    // Kept: a fold leaves the goal that the sum before each turn is small, which the loop has as its invariant.
    let mut sum = 1;
    for b in buf {
        sum = (sum * 257 + u64::from(*b)) % MODULUS;
    }
    sum
}

// The sum of the part that is lent.
pub fn sum(rt: &impl Print, size: u64, room: &[u8]) -> io::Result<()> {
    print!(rt; " {:08x}", sum_of(&room[..part(size, room)]))
}
