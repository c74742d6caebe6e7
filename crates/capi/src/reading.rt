// The check, lookups and counts.
ghost use Rattle.std.specs.Prelude.{◌≡◌};
ghost use Rattle.capi.specs.Reading.{CheckOutcome, ContainsOutcome, ContainsQuickOutcome, CountOutcome, CountQuickOutcome};
ghost use Rattle.capi.specs.Reading.{record_of, OfAny, looked_of};

use crate::planning::{Outcome, number_of};
use filter::contains::{
    contains_fingerprint, contains_fingerprint_quick, count_fingerprint, count_fingerprint_quick,
};
use filter::lookup::Lookup;
use layout::check::check;
use layout::numbers::Numbers;
use layout::refusal::Refusal;

// A record without its family, which no reading asks for: small enough that C passes it in registers. In C it is strumblay_sizes, and Numbers are strumblay_numbers.
#[repr(C)]
#[derive(Clone, Copy)]
pub struct Sizes {
    pub len: u64,
    pub qbits: u8,
    pub rbits: u8,
    pub max_qbits: u8,
}

// The record of these sizes and family 0.
impl From<Sizes> for Numbers {
    ghost from_gives = { λ sizes result. result ≡ record_of sizes 0 };

    fn from(sizes: Sizes) -> Numbers {
        Numbers::empty(sizes.qbits, sizes.rbits, sizes.max_qbits, 0).with_len(sizes.len)
    }
}

// A refusal's number, or 0, whether held (1 or 0), and the remainders compared.
#[repr(C)]
#[derive(Clone, Copy)]
pub struct Looked {
    pub number: u64,
    pub held: u64,
    pub compared: u64,
}

// Held or absent with the remainders compared, or the number.
impl From<Result<Lookup, Refusal>> for Looked {
    ghost from_gives = { λ answer result. result ≡ looked_of answer };

    fn from(answer: Result<Lookup, Refusal>) -> Looked {
        match answer {
            Ok(Lookup::Held(compared)) => Looked {
                number: 0,
                held: 1,
                compared,
            },
            Ok(Lookup::Absent(compared)) => Looked {
                number: 0,
                held: 0,
                compared,
            },
            Err(refusal) => Looked {
                number: number_of(refusal),
                held: 0,
                compared: 0,
            },
        }
    }
}

// 0 if sound, else the lowest of 1 to 6 that is due.
#[tactic(auto, using(crate::specs::Reading::judged_any, crate::specs::Shown::shown_of))]
#[unsafe(no_mangle)]
pub extern "C" fn strumblay_check(buf: &[u8], n: Sizes) -> u64
    ensures { OfAny n (λ m. CheckOutcome m buf.now result) }
{
    match check(buf, n.into()) {
        Ok(()) => 0,
        Err(refusal) => number_of(refusal),
    }
}

// Is the fingerprint of the hash held?
#[unsafe(no_mangle)]
pub extern "C" fn strumblay_contains(buf: &[u8], n: Sizes, hash: u64) -> Looked
    ensures { OfAny n (λ m. ContainsOutcome m buf.now hash result) }
{
    contains_fingerprint(buf, n.into(), hash).into()
}

// The same after asking 1 to 5 alone.
#[unsafe(no_mangle)]
pub extern "C" fn strumblay_contains_quick(buf: &[u8], n: Sizes, hash: u64) -> Looked
    ensures { OfAny n (λ m. ContainsQuickOutcome m buf.now hash result) }
{
    contains_fingerprint_quick(buf, n.into(), hash).into()
}

// How often the fingerprint of the hash is held.
#[unsafe(no_mangle)]
pub extern "C" fn strumblay_count(buf: &[u8], n: Sizes, hash: u64) -> Outcome
    ensures { OfAny n (λ m. CountOutcome m buf.now hash result) }
{
    count_fingerprint(buf, n.into(), hash).into()
}

// The same after asking 1 to 5 alone.
#[unsafe(no_mangle)]
pub extern "C" fn strumblay_count_quick(buf: &[u8], n: Sizes, hash: u64) -> Outcome
    ensures { OfAny n (λ m. CountQuickOutcome m buf.now hash result) }
{
    count_fingerprint_quick(buf, n.into(), hash).into()
}
