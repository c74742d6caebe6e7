// What the calls work on: three buffers, of which a part is lent, with a record each, and a place in the listing.
ghost use Rattle.std.specs.Prelude.{◌≡◌, ◌%◌, min, length};

use crate::script::Call;
use filter::listing::Place;
use layout::numbers::Numbers;
use std::io;

// A record, and how many bytes of the buffer are lent.
// Kept: a length beside a fixed buffer, since that parts of one are lent, too short and too long ones, is what is tested.
#[derive(Clone, Copy)]
pub struct Lent {
    pub numbers: Numbers,
    pub size: u64,
}

// The records of the three buffers, and the place that a listing has reached.
#[derive(Clone, Copy)]
pub struct State {
    pub own: Lent,
    pub other: Lent,
    pub dest: Lent,
    pub place: Place,
}

// The low eight bits.
pub fn low(x: u64) -> u8 {
    (x % 256) as u8
}

// Kept: it takes three numbers, and `From` has one argument.
// A record; the widths come as a number: qbits, rbits, max_qbits, a byte each.
pub fn numbers_of(len: u64, widths: u64, family: u64) -> Numbers {
    Numbers::empty(low(widths >> 16), low(widths >> 8), low(widths), family).with_len(len)
}

// As many bytes as are asked for and there.
pub fn part(size: u64, room: &[u8]) -> usize
    ensures { result ≡ min (size % 65536) (length room.now) }
{
    ((size % 65536) as usize).min(room.len())
}

// A record by itself, of the family before it: `r` len, widths, size.
pub fn record(rt: &impl Print, call: Call, lent: &mut Lent) -> io::Result<()> {
    lent.numbers = numbers_of(call.x, call.y, lent.numbers.family);
    lent.size = call.z;
    print!(rt; "record")
}

impl State {
    // Nothing lent, nothing listed.
    pub fn new() -> State {
        let none = Lent {
            numbers: Numbers::empty(0, 0, 0, 0),
            size: 0,
        };
        State {
            own: none,
            other: none,
            dest: none,
            place: Place {
                quotient: 0,
                slot: 0,
                remaining: 0,
            },
        }
    }
}
