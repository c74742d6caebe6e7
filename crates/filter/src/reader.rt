// A reader: a lent buffer, its record and how far the listing of it is.
ghost use Rattle.std.specs.Prelude.{◌≡◌};
ghost use Rattle.filter.specs.Reading.{Moved, TwoListed};

use crate::listing::{Place, step_from};
use layout::numbers::Numbers;
use layout::refusal::Refusal;

// A listing that has its buffer with it: the buffer, its numbers and the place of the next fingerprint.
#[derive(Clone, Copy)]
pub struct Reader<'a> {
    pub buf: &'a [u8],
    pub numbers: Numbers,
    pub place: Place,
}

// Two steps and the place after them.
#[derive(Clone, Copy)]
pub struct Two {
    pub first: Result<Option<u64>, Refusal>,
    pub second: Result<Option<u64>, Refusal>,
    pub place: Place,
}

// A reader of a lent buffer, at a place of its listing.
pub fn reader_new<'a>(buf: &'a [u8], numbers: Numbers, place: Place) -> Reader<'a>
    ensures { (result.buf ≡ buf.entry) × (result.numbers ≡ numbers) × (result.place ≡ place) }
{
    Reader {
        buf,
        numbers,
        place,
    }
}

// The reader is lent, and moved on by one fingerprint.
pub fn next<'s, 'a>(r: &'s mut Reader<'a>) -> Result<Option<u64>, Refusal>
    ensures { Moved r.old result r.new }
{
    let stepped = step_from(r.buf, r.numbers, r.place);
    r.place = stepped.place;
    stepped.step
}

// From plain parameters to a reader and back: whoever calls this needs no reader.
#[tactic(auto, using(crate::specs::Reading::two_told))]
pub fn next_two(buf: &[u8], numbers: Numbers, place: Place) -> Two
    ensures { TwoListed numbers buf.now place result }
{
    let mut r = reader_new(buf, numbers, place);
    let first = next(&mut r);
    let second = next(&mut r);
    Two {
        first,
        second,
        place: r.place,
    }
}
