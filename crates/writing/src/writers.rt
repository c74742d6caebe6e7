// Insert and remove, checked and quick: thin shells over one core each.
// Kept: checked and quick stand side by side, since they promise differently and share all but the line that asks.
// Kept: a buffer and its record side by side, of which none of 1 to 5 is due, since the calls' promises speak of both by themselves.
ghost use Rattle.std.specs.Prelude.{◌≡◌};
ghost use Rattle.layout.specs.Records.{lowest_due};
ghost use Rattle.writing.specs.Writing.{Insert, InsertQuick, InsertWorked, Remove, RemoveQuick, RemoveWorked};

use crate::insert::{Insertion, insert_core};
use crate::remove::remove_core;
use bits::compare::over;
use layout::check::check;
use layout::numbers::{Numbers, number_due};
use layout::refusal::Refusal;

// The core of both inserts, on numbers that passed 1 to 5: the answer, and the record afterwards.
#[tactic(auto, using(layout::specs::Judging::clear_whole, theory::specs::images::Sizes::slots_high, theory::specs::refusals::ByNumber::none_due))]
fn insert_worked(
    buf: &mut [u8],
    n: Numbers,
    hash: u64,
    max_count: u64,
) -> Result<(u64, Numbers), Refusal>
    requires { lowest_due n buf.old ≡ 0 }
    ensures { InsertWorked n hash max_count buf.old result buf.new }
{
    match insert_core(buf, n.shape(), n.len, hash, max_count)? {
        Insertion::Enough(c) => Ok((c, n)),
        Insertion::Added(m) => Ok((m, n.with_len(n.len + 1))),
    }
}

// One copy more of the fingerprint of a hash, if fewer than max_count are held; the answer is the smaller of the two, beside it the record afterwards. The whole buffer is checked first.
pub fn insert_fingerprint_counting(
    buf: &mut [u8],
    n: Numbers,
    hash: u64,
    max_count: u64,
) -> Result<(u64, Numbers), Refusal>
    ensures { Insert n hash max_count buf.old result buf.new }
{
    check(buf, n)?;
    insert_worked(buf, n, hash, max_count)
}

// The same without the check: only numbers 1 to 5 are asked first.
#[tactic(auto, using(layout::specs::Judging::quick_refused, crate::specs::Writing::inside_same))]
pub fn insert_fingerprint_counting_quick(
    buf: &mut [u8],
    n: Numbers,
    hash: u64,
    max_count: u64,
) -> Result<(u64, Numbers), Refusal>
    ensures { InsertQuick n hash max_count buf.old result buf.new }
{
    number_due(buf.len(), n)?;
    insert_worked(buf, n, hash, max_count)
}

// The core of both removes, on numbers that passed 1 to 5: the record afterwards, if a copy went.
#[tactic(auto, using(layout::specs::Judging::clear_whole))]
fn remove_worked(buf: &mut [u8], n: Numbers, hash: u64) -> Result<Option<Numbers>, Refusal>
    requires { lowest_due n buf.old ≡ 0 }
    ensures { RemoveWorked n hash buf.old result buf.new }
{
    if !remove_core(buf, n.shape(), hash)? {
        return Ok(None);
    }
    Ok(Some(n.with_len(over(n.len, 1))))
}

// One copy fewer of the fingerprint of a hash, and the record afterwards, if it is held: the whole buffer is checked first.
pub fn remove_fingerprint(buf: &mut [u8], n: Numbers, hash: u64) -> Result<Option<Numbers>, Refusal>
    ensures { Remove n hash buf.old result buf.new }
{
    check(buf, n)?;
    remove_worked(buf, n, hash)
}

// The same without the check: only numbers 1 to 5 are asked first.
#[tactic(auto, using(layout::specs::Judging::quick_refused, crate::specs::Writing::inside_same))]
pub fn remove_fingerprint_quick(
    buf: &mut [u8],
    n: Numbers,
    hash: u64,
) -> Result<Option<Numbers>, Refusal>
    ensures { RemoveQuick n hash buf.old result buf.new }
{
    number_due(buf.len(), n)?;
    remove_worked(buf, n, hash)
}
