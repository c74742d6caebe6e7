// How many fingerprints a merge without duplicates adds: those that self does not hold, once each.
ghost use Rattle.std.specs.Prelude.{◌≡◌};
ghost use Rattle.theory.specs.Shape.{fingerprint, Widths};
ghost use Rattle.growth.specs.Adding.{Lacks, Unmet, New, Adds};

use crate::source::Source;
use filter::listing::{first_place, step_core};
use filter::lookup::{Lookup, find_hash, quotient, remainder};
use layout::shape::Shape;

// Whether a does not hold the fingerprint of a hash.
fn absent(a: Source, hash: u64) -> bool
    ensures { Lacks a.entry hash result }
{
    match find_hash(&a.lent, hash) {
        Lookup::Held(_) => false,
        Lookup::Absent(_) => true,
    }
}

// A hash cut to the width of a shape.
#[tactic(auto, using(theory::specs::reading::ListingPlaces::join_high, theory::specs::reading::ListingPlaces::join_lt))]
fn cut(shape: Shape, hash: u64) -> u64
    requires { Widths shape.qbits shape.rbits }
    ensures { result ≡ fingerprint shape.qbits shape.rbits hash }
{
    (quotient(shape, hash) << shape.rbits) + remainder(shape, hash)
}

// Whether none of the first k fingerprints of b is cut to f. No memory is lent for those met, so b is listed anew.
#[tactic(auto, using(crate::specs::Counting::passing_none, crate::specs::Counting::unmet_other, crate::specs::Counting::unmet_hit, crate::specs::Counting::passing_on, crate::specs::Counting::unmet_end))]
fn unmet(b: Source, shape: Shape, k: u64, f: u64) -> bool
    requires { Widths shape.qbits shape.rbits }
    ensures { Unmet b.entry shape k f result }
{
    let mut place = first_place(&b.lent, b.len);
    for i in 0..k {
        let stepped = step_core(&b.lent, place);
        let Ok(Some(g)) = stepped.step else {
            return false;
        };
        if cut(shape, g) == f {
            return false;
        }
        place = stepped.place;
    }
    true
}

// Whether f, which stands behind k others in b, the last of them `before`, is the first with its cut and a does not hold that.
// At equal widths equal ones are neighbours; otherwise those before it are listed anew.
#[tactic(auto, using(crate::specs::Adding::new_repeat, crate::specs::Adding::new_held, crate::specs::Adding::new_narrow, crate::specs::Adding::new_unmet, crate::specs::Adding::free_none, crate::specs::Adding::free_lacks))]
fn is_new(a: Source, b: Source, k: u64, before: u64, f: u64) -> bool
    ensures { New a.entry b.entry k before f result }
{
    if 0 < k && f == before {
        return false;
    }
    if 0 < a.len && !absent(a, f) {
        return false;
    }
    if b.lent.shape.qbits + b.lent.shape.rbits <= a.lent.shape.qbits + a.lent.shape.rbits {
        return true;
    }
    unmet(b, a.lent.shape, k, cut(a.lent.shape, f))
}

// How many fingerprints of b, cut to the width of a, are added to a: `enough` at most. With len 0 nothing is held in a.
// Where b is wider this takes len * len / 2 steps at worst, of b's len.
pub fn count_added(a: Source, b: Source, enough: u64) -> u64
    ensures { Adds a.entry b.entry enough result }
{
    let mut place = first_place(&b.lent, b.len);
    let mut count = 0;
    let mut before = 0;
    for k in 0..b.len {
        if enough <= count {
            return count;
        }
        let stepped = step_core(&b.lent, place);
        let Ok(Some(f)) = stepped.step else {
            return count;
        };
        if is_new(a, b, k, before, f) {
            count += 1;
        }
        before = f;
        place = stepped.place;
    }
    count
}
