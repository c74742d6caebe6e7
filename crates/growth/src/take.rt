// A list's fingerprints taken into another buffer, one insert for each.
// Kept: buffer and shape side by side where the buffer is written, since a struct around it would say each promise before and after twice.
ghost use Rattle.std.specs.Prelude.{◌+◌, ◌^◌, ◌<◌, length};
ghost use Rattle.layout.specs.Whole.{Whole};
ghost use Rattle.growth.specs.Take.{Puts, PutsStep, TakesIn};

use crate::source::Source;
use filter::listing::{first_place, step_core};
use layout::refusal::Refusal;
use layout::shape::Shape;
use writing::insert::{Insertion, insert_core};

// One insert; the answer is how many are held then.
#[tactic(auto, using(crate::specs::Take::put_done))]
fn put(dest: &mut [u8], shape: Shape, len: u64, f: u64, max_count: u64) -> u64
    requires { (Whole shape (length dest.old)) × (len + 1 < 2 ^ 64) }
    ensures { Puts shape len f max_count dest.old result dest.new }
{
    match insert_core(dest, shape, len, f, max_count) {
        Ok(Insertion::Added(_)) => len + 1,
        Ok(Insertion::Enough(_)) | Err(_) => len,
    }
}

// The same for what a step of a listing gave, if it gave one.
#[tactic(auto, using(crate::specs::Take::put_one, crate::specs::Take::put_at_done, crate::specs::Take::put_at_refused))]
fn put_step(
    dest: &mut [u8],
    shape: Shape,
    len: u64,
    step: Result<Option<u64>, Refusal>,
    max_count: u64,
) -> u64
    requires { (Whole shape (length dest.old)) × (len + 1 < 2 ^ 64) }
    ensures { PutsStep shape len step max_count dest.old result dest.new }
{
    match step {
        Ok(Some(f)) => put(dest, shape, len, f, max_count),
        Ok(None) | Err(_) => len,
    }
}

// All fingerprints of one list are inserted into the other, which held len; the answer is how many it holds then.
#[tactic(auto, using(crate::specs::Take::takes_first))]
pub fn take_in(list: Source, dest: &mut [u8], shape: Shape, len: u64, max_count: u64) -> u64
    requires { (Whole shape (length dest.old)) × (len + list.len < 2 ^ 64) }
    ensures { TakesIn list.entry.lent.shape list.entry.lent.buf.now list.entry.len shape dest.old len max_count result dest.new }
{
    let mut place = first_place(&list.lent, list.len);
    let mut held = len;
    for _step in 0..list.len {
        let stepped = step_core(&list.lent, place);
        held = put_step(dest, shape, held, stepped.step, max_count);
        place = stepped.place;
    }
    held
}
