// Growth, and insert with a spare.
ghost use Rattle.std.specs.Prelude.{◌≡◌};
ghost use Rattle.capi.specs.Growing.{rebuilt_of, GrowOutcome, placed_of, InsertSpareOutcome, InsertSpareQuickOutcome};

use crate::planning::{Changed, number_of};
use growth::rebuild::rebuild_grown;
use growth::spare::{Placed, insert_with_spare, insert_with_spare_quick};
use layout::numbers::Numbers;
use layout::refusal::Refusal;

// A writer's answer, whether the spare holds the filter from now on (1 or 0), and the record afterwards.
#[repr(C)]
#[derive(Clone, Copy)]
pub struct SpareAnswer {
    pub number: u64,
    pub answer: u64,
    pub in_spare: u64,
    pub numbers: Numbers,
}

// Kept: it takes the record given beside the answer, and `From` has one argument.
// The record of what was rebuilt, or the number with the record given.
pub fn as_rebuilt(rebuilt: Result<Numbers, Refusal>, n: Numbers) -> Changed
    ensures { result ≡ rebuilt_of n rebuilt }
{
    match rebuilt {
        Ok(numbers) => Changed {
            number: 0,
            answer: 0,
            numbers,
        },
        Err(refusal) => Changed {
            number: number_of(refusal),
            answer: 0,
            numbers: n,
        },
    }
}

// The same holding with one more bit of quotient, in the destination.
#[unsafe(no_mangle)]
pub extern "C" fn strumblay_grow(buf: &[u8], n: Numbers, dest: &mut [u8]) -> Changed
    ensures { GrowOutcome n buf.now dest.old result dest.new }
{
    as_rebuilt(rebuild_grown(buf, n, dest), n)
}

// Kept: it takes the record given beside the answer, and `From` has one argument.
// The answer, the buffer that holds the filter and the record from now on, or the number.
fn as_placed(placed: Result<Placed, Refusal>, n: Numbers) -> SpareAnswer
    ensures { result ≡ placed_of n placed }
{
    match placed {
        Ok(Placed::InOld(answer, numbers)) => SpareAnswer {
            number: 0,
            answer,
            in_spare: 0,
            numbers,
        },
        Ok(Placed::InSpare(answer, numbers)) => SpareAnswer {
            number: 0,
            answer,
            in_spare: 1,
            numbers,
        },
        Err(refusal) => SpareAnswer {
            number: number_of(refusal),
            answer: 0,
            in_spare: 0,
            numbers: n,
        },
    }
}

// An insert that, where a copy is due and the buffer is full, grows into the spare.
#[unsafe(no_mangle)]
pub extern "C" fn strumblay_insert_spare(
    buf: &mut [u8],
    n: Numbers,
    hash: u64,
    max_count: u64,
    spare: &mut [u8],
) -> SpareAnswer
    ensures { InsertSpareOutcome n hash max_count buf.old spare.old result buf.new spare.new }
{
    as_placed(insert_with_spare(buf, n, hash, max_count, spare), n)
}

// The same after asking 1 to 5 alone; growth, where it is due, is checked.
#[unsafe(no_mangle)]
pub extern "C" fn strumblay_insert_spare_quick(
    buf: &mut [u8],
    n: Numbers,
    hash: u64,
    max_count: u64,
    spare: &mut [u8],
) -> SpareAnswer
    ensures { InsertSpareQuickOutcome n hash max_count buf.old spare.old result buf.new spare.new }
{
    as_placed(insert_with_spare_quick(buf, n, hash, max_count, spare), n)
}
