// Insert with a spare: where a plain insert would refuse number 7, the filter grows into a second lent buffer.
// Kept: checked and quick stand side by side, since they promise differently and share all but the line that asks.
ghost use Rattle.growth.specs.Spare.{InsertSpare, InsertSpareQuick, MovesWorked, PutsInSpare, MovesIfFull};

use crate::rebuild::rebuild_grown;
use layout::numbers::Numbers;
use layout::refusal::Refusal;
use writing::writers::{insert_fingerprint_counting, insert_fingerprint_counting_quick};

// The answer of an insert with the record afterwards, by the buffer that holds the filter then.
#[derive(Clone, Copy)]
pub enum Placed {
    InOld(u64, Numbers),
    InSpare(u64, Numbers),
}

// The insert into a spare that has just been grown into, and so is sound.
#[tactic(auto, using(crate::specs::Spare::put_in_spare))]
fn put_in_spare(spare: &mut [u8], n: Numbers, hash: u64, max_count: u64) -> Result<Placed, Refusal>
    ensures { PutsInSpare n hash max_count spare.old result spare.new }
{
    let (answer, after) = insert_fingerprint_counting_quick(spare, n, hash, max_count)?;
    Ok(Placed::InSpare(answer, after))
}

// Growth into the spare and the insert there; the old buffer is only read.
fn move_to_spare(
    buf: &[u8],
    n: Numbers,
    hash: u64,
    max_count: u64,
    spare: &mut [u8],
) -> Result<Placed, Refusal>
    ensures { MovesWorked n hash max_count buf.now spare.old result spare.new }
{
    let grown = rebuild_grown(buf, n, spare)?;
    put_in_spare(spare, grown, hash, max_count)
}

// What a plain insert's answer leads to: only number 7 makes it look at the spare.
#[tactic(auto, using(crate::specs::Spare::if_full_counted, crate::specs::Spare::if_full_refused, crate::specs::Spare::if_full_moved))]
fn move_if_full(
    done: Result<(u64, Numbers), Refusal>,
    buf: &[u8],
    n: Numbers,
    hash: u64,
    max_count: u64,
    spare: &mut [u8],
) -> Result<Placed, Refusal>
    ensures { MovesIfFull n hash max_count buf.now spare.old done result spare.new }
{
    match done {
        Ok((answer, after)) => Ok(Placed::InOld(answer, after)),
        Err(Refusal::NoRoom) => move_to_spare(buf, n, hash, max_count, spare),
        Err(refusal) => Err(refusal),
    }
}

// One copy more, if fewer than max_count are held: in the old buffer, or, where it is full, in the spare that it grew into; or number 1 to 6, 7, then 12.
pub fn insert_with_spare(
    buf: &mut [u8],
    n: Numbers,
    hash: u64,
    max_count: u64,
    spare: &mut [u8],
) -> Result<Placed, Refusal>
    ensures { InsertSpare n hash max_count buf.old spare.old result buf.new spare.new }
{
    let done = insert_fingerprint_counting(buf, n, hash, max_count);
    move_if_full(done, buf, n, hash, max_count, spare)
}

// The same after asking 1 to 5 alone; growth, where it is due, is checked.
pub fn insert_with_spare_quick(
    buf: &mut [u8],
    n: Numbers,
    hash: u64,
    max_count: u64,
    spare: &mut [u8],
) -> Result<Placed, Refusal>
    ensures { InsertSpareQuick n hash max_count buf.old spare.old result buf.new spare.new }
{
    let done = insert_fingerprint_counting_quick(buf, n, hash, max_count);
    move_if_full(done, buf, n, hash, max_count, spare)
}
