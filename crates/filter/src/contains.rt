// Lookup and count, checked and quick: thin shells over one core.
// Kept: checked and quick stand side by side, since they promise differently and share all but the line that asks.
ghost use Rattle.filter.specs.Asking.{Contains, ContainsQuick, Count, CountQuick};

use crate::lookup::{Lookup, count_hash, find_hash};
use layout::blocks::Blocks;
use layout::check::check;
use layout::numbers::{Numbers, number_due};
use layout::refusal::Refusal;

// Is the fingerprint of a hash held: the whole buffer is checked first.
pub fn contains_fingerprint(buf: &[u8], n: Numbers, hash: u64) -> Result<Lookup, Refusal>
    ensures { Contains n buf.now hash result }
{
    check(buf, n)?;
    Ok(find_hash(&Blocks::of(buf, n), hash))
}

// The same without the check: only numbers 1 to 5 are asked first.
pub fn contains_fingerprint_quick(buf: &[u8], n: Numbers, hash: u64) -> Result<Lookup, Refusal>
    ensures { ContainsQuick n buf.now hash result }
{
    number_due(buf.len(), n)?;
    Ok(find_hash(&Blocks::of(buf, n), hash))
}

// How often the fingerprint of a hash is held: the whole buffer is checked first.
pub fn count_fingerprint(buf: &[u8], n: Numbers, hash: u64) -> Result<u64, Refusal>
    ensures { Count n buf.now hash result }
{
    check(buf, n)?;
    Ok(count_hash(&Blocks::of(buf, n), hash))
}

// The same without the check: only numbers 1 to 5 are asked first.
pub fn count_fingerprint_quick(buf: &[u8], n: Numbers, hash: u64) -> Result<u64, Refusal>
    ensures { CountQuick n buf.now hash result }
{
    number_due(buf.len(), n)?;
    Ok(count_hash(&Blocks::of(buf, n), hash))
}
