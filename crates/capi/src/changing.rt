// Insert and remove.
ghost use Rattle.std.specs.Prelude.{◌≡◌};
ghost use Rattle.capi.specs.Writing.{inserted_of, InsertOutcome, InsertQuickOutcome, removed_of, RemoveOutcome, RemoveQuickOutcome};

use crate::planning::{Changed, number_of};
use layout::numbers::Numbers;
use layout::refusal::Refusal;
use writing::writers::{
    insert_fingerprint_counting, insert_fingerprint_counting_quick, remove_fingerprint,
    remove_fingerprint_quick,
};

// Kept: it takes the record given beside the answer, and `From` has one argument.
// The answer of an insert, or its number, with the record from now on.
fn as_inserted(inserted: Result<(u64, Numbers), Refusal>, n: Numbers) -> Changed
    ensures { result ≡ inserted_of n inserted }
{
    match inserted {
        Ok((answer, numbers)) => Changed {
            number: 0,
            answer,
            numbers,
        },
        Err(refusal) => Changed {
            number: number_of(refusal),
            answer: 0,
            numbers: n,
        },
    }
}

// One copy more, if fewer than max_count are held; the answer is the smaller of the two.
#[unsafe(no_mangle)]
pub extern "C" fn strumblay_insert(buf: &mut [u8], n: Numbers, hash: u64, max_count: u64) -> Changed
    ensures { InsertOutcome n hash max_count buf.old result buf.new }
{
    as_inserted(insert_fingerprint_counting(buf, n, hash, max_count), n)
}

// The same after asking 1 to 5 alone.
#[unsafe(no_mangle)]
pub extern "C" fn strumblay_insert_quick(
    buf: &mut [u8],
    n: Numbers,
    hash: u64,
    max_count: u64,
) -> Changed
    ensures { InsertQuickOutcome n hash max_count buf.old result buf.new }
{
    as_inserted(
        insert_fingerprint_counting_quick(buf, n, hash, max_count),
        n,
    )
}

// Kept: it takes the record given beside the answer, and `From` has one argument.
// 1 if a copy went, else 0, or the number, with the record from now on.
fn as_removed(removed: Result<Option<Numbers>, Refusal>, n: Numbers) -> Changed
    ensures { result ≡ removed_of n removed }
{
    match removed {
        Ok(Some(numbers)) => Changed {
            number: 0,
            answer: 1,
            numbers,
        },
        Ok(None) => Changed {
            number: 0,
            answer: 0,
            numbers: n,
        },
        Err(refusal) => Changed {
            number: number_of(refusal),
            answer: 0,
            numbers: n,
        },
    }
}

// One copy fewer, if it is held.
#[unsafe(no_mangle)]
pub extern "C" fn strumblay_remove(buf: &mut [u8], n: Numbers, hash: u64) -> Changed
    ensures { RemoveOutcome n hash buf.old result buf.new }
{
    as_removed(remove_fingerprint(buf, n, hash), n)
}

// The same after asking 1 to 5 alone.
#[unsafe(no_mangle)]
pub extern "C" fn strumblay_remove_quick(buf: &mut [u8], n: Numbers, hash: u64) -> Changed
    ensures { RemoveQuickOutcome n hash buf.old result buf.new }
{
    as_removed(remove_fingerprint_quick(buf, n, hash), n)
}
