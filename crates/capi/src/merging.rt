// Merge.
ghost use Rattle.capi.specs.Merging.{MergeOutcome};

use crate::growing::as_rebuilt;
use crate::planning::Changed;
use growth::merge::merge;
use layout::numbers::Numbers;

// Both filters merged in the destination, with duplicates unless keep_duplicates is 0.
#[unsafe(no_mangle)]
pub extern "C" fn strumblay_merge(
    buf: &[u8],
    n: Numbers,
    other: &[u8],
    m: Numbers,
    keep_duplicates: u64,
    dest: &mut [u8],
) -> Changed
    ensures { MergeOutcome n buf.now m other.now keep_duplicates dest.old result dest.new }
{
    as_rebuilt(merge(buf, n, other, m, keep_duplicates, dest), n)
}
