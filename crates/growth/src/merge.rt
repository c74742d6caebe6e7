// Two filters merged in a lent destination.
// Kept: a buffer and its record side by side, of which none of 1 to 5 is due, since the calls' promises speak of both by themselves.
ghost use Rattle.std.specs.Prelude.{◌≡◌, ◌+◌, ◌≤◌, length};
ghost use Rattle.theory.specs.Joining.{limit};
ghost use Rattle.layout.specs.Records.{lowest_due};
ghost use Rattle.layout.specs.Whole.{Whole};
ghost use Rattle.growth.specs.Merging.{most_of, Wants, WidthUpTo, Joins, MergesEqual, MergesWider, MergesPair, Merges};

use crate::rebuild::empty_out;
use crate::source::Source;
use crate::take::take_in;
use crate::union::union_len;
use crate::wider::wider_due;
use bits::compare::larger;
use layout::check::check_both;
use layout::numbers::Numbers;
use layout::planning::capacity_of;
use layout::refusal::Refusal;
use layout::shape::Shape;

// The max_count that each insert of a merge gets.
#[tactic(auto, using(crate::specs::Merging::most_all))]
fn max_count_of(keep: u64) -> u64
    ensures { result ≡ most_of keep }
{
    if keep == 0 { 1 } else { u64::MAX }
}

// What the result needs capacity for, at equal widths.
#[tactic(auto, using(theory::specs::plan::Limits::few, layout::specs::Judging::clear_of))]
fn wanted_len(buf: &[u8], n: Numbers, other: &[u8], m: Numbers, keep: u64) -> u64
    requires { (lowest_due n buf.now ≡ 0) × (lowest_due m other.now ≡ 0) × (m.qbits + m.rbits ≡ n.qbits + n.rbits) }
    ensures { Wants n buf.now m other.now keep result }
{
    if keep != 0 {
        return n.len + m.len;
    }
    let either = union_len(Source::new(buf, n), Source::new(other, m));
    larger(either, larger(n.len, m.len))
}

// The smallest qbits from the first to the last that has the capacity, if one has.
#[tactic(auto, using(theory::specs::plan::Needed::width_here, theory::specs::plan::Needed::width_on, theory::specs::plan::Needed::width_past))]
fn joined_qbits(first: u8, last: u8, wanted: u64) -> Option<u8>
    requires { (6 ≤ first) × (first ≤ last) × (last ≤ 59) }
    ensures { WidthUpTo first last wanted result }
{
    for qbits in first..=last {
        if wanted <= capacity_of(qbits) {
            return Some(qbits);
        }
    }
    None
}

// The largest qbits that the result may have.
#[tactic(auto, using(theory::specs::plan::Limits::limit_own, theory::specs::plan::Limits::limit_max))]
fn limit_of(n: Numbers) -> u8
    ensures { result ≡ limit n.qbits n.max_qbits }
{
    if n.max_qbits == 0 {
        n.qbits
    } else {
        n.max_qbits
    }
}

// Both lists are taken into an empty destination.
#[tactic(auto, using(theory::specs::plan::Limits::few))]
fn join(
    buf: &[u8],
    n: Numbers,
    other: &[u8],
    m: Numbers,
    keep: u64,
    dest: &mut [u8],
    shape: Shape,
) -> u64
    requires { (lowest_due n buf.now ≡ 0) × (lowest_due m other.now ≡ 0) × (Whole shape (length dest.old)) }
    ensures { Joins n buf.now m other.now keep shape dest.old result dest.new }
{
    let most = max_count_of(keep);
    let own = take_in(Source::new(buf, n), dest, shape, 0, most);
    take_in(Source::new(other, m), dest, shape, own, most)
}

// As many bits of fingerprint on both sides: copies are added up, or, without duplicates, one of each is kept. Number 7, then 12.
#[tactic(auto, using(layout::specs::Judging::clear_of, theory::specs::plan::Limits::limit_fits))]
fn merge_sorted(
    buf: &[u8],
    n: Numbers,
    other: &[u8],
    m: Numbers,
    keep: u64,
    dest: &mut [u8],
) -> Result<Numbers, Refusal>
    requires { (lowest_due n buf.now ≡ 0) × (lowest_due m other.now ≡ 0) × (m.qbits + m.rbits ≡ n.qbits + n.rbits) }
    ensures { MergesEqual n buf.now m other.now keep dest.old result dest.new }
{
    let wanted = wanted_len(buf, n, other, m, keep);
    let Some(qbits) = joined_qbits(n.qbits, limit_of(n), wanted) else {
        return Err(Refusal::NoRoom);
    };
    let shape = Shape {
        qbits,
        rbits: n.qbits + n.rbits - qbits,
    };
    empty_out(dest, shape, n.max_qbits)?;
    let len = join(buf, n, other, m, keep, dest, shape);
    Ok(n.with_shape(shape, len))
}

// The destination gets what the buffer has.
// Kept: the slice's own copy is a call of `memmove`, which the archive for C would then need from outside.
fn copy(buf: &[u8], dest: &mut [u8])
    requires { length dest.old ≡ length buf.now }
    ensures { dest.new ≡ buf.now }
{
    for i in 0..buf.len() {
        dest[i] = buf[i];
    }
}

// Other wider: its fingerprints, cut to self's width, are added to self's; without duplicates only absent ones, once each. Number 7, then 12.
#[tactic(auto, using(layout::specs::Judging::clear_whole, layout::specs::Judging::clear_within, theory::specs::plan::Limits::few))]
fn merge_wider(
    buf: &[u8],
    n: Numbers,
    other: &[u8],
    m: Numbers,
    keep: u64,
    dest: &mut [u8],
) -> Result<Numbers, Refusal>
    requires { (lowest_due n buf.now ≡ 0) × (lowest_due m other.now ≡ 0) }
    ensures { MergesWider n buf.now m other.now keep dest.old result dest.new }
{
    let added = Source::new(other, m);
    wider_due(Source::new(buf, n), added, keep)?;
    if dest.len() != buf.len() {
        return Err(Refusal::DestinationLength);
    }
    copy(buf, dest);
    let most = max_count_of(keep);
    let len = take_in(added, dest, n.shape(), n.len, most);
    Ok(n.with_len(len))
}

// Number 19 if the families differ, then 8 if other's width is smaller; else the case that the widths tell.
#[tactic(auto, using(layout::specs::Judging::clear_of, crate::specs::Merging::pair_differ, crate::specs::Merging::pair_same, crate::specs::Merging::sound_narrower, crate::specs::Merging::sound_equal, crate::specs::Merging::sound_wider))]
fn merge_sound(
    buf: &[u8],
    n: Numbers,
    other: &[u8],
    m: Numbers,
    keep: u64,
    dest: &mut [u8],
) -> Result<Numbers, Refusal>
    requires { (lowest_due n buf.now ≡ 0) × (lowest_due m other.now ≡ 0) }
    ensures { MergesPair n buf.now m other.now keep dest.old result dest.new }
{
    let width = n.qbits + n.rbits;
    let other_width = m.qbits + m.rbits;
    let family = n.family;
    let other_family = m.family;
    if other_family != family {
        return Err(Refusal::TwoFamilies);
    }
    if other_width < width {
        return Err(Refusal::Narrower);
    }
    if other_width == width {
        return merge_sorted(buf, n, other, m, keep, dest);
    }
    merge_wider(buf, n, other, m, keep, dest)
}

// Self and other merged in the destination, with duplicates unless keep_duplicates is 0; or self's number 1 to 6, other's, 19, 8, 7, then 12.
pub fn merge(
    buf: &[u8],
    n: Numbers,
    other: &[u8],
    m: Numbers,
    keep_duplicates: u64,
    dest: &mut [u8],
) -> Result<Numbers, Refusal>
    ensures { Merges n buf.now m other.now keep_duplicates dest.old result dest.new }
{
    check_both(buf, n, other, m)?;
    merge_sound(buf, n, other, m, keep_duplicates, dest)
}
