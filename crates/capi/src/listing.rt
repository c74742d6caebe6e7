// Listing, by value: a place goes in and the next one comes out.
ghost use Rattle.std.specs.Prelude.{◌≡◌};
ghost use Rattle.capi.specs.Reading.{OfAny};
ghost use Rattle.capi.specs.Listing.{begun_of, next_of, BeginOutcome, StepOutcome};

use crate::planning::number_of;
use crate::reading::Sizes;
use filter::listing::{Place, Stepped, begin, step_from};
use layout::refusal::Refusal;

// The place of the first fingerprint, all 0 if refused.
#[repr(C)]
#[derive(Clone, Copy)]
pub struct First {
    pub number: u64,
    pub place: Place,
}

// Whether a fingerprint was found (1 or 0), it, and the place after it.
#[repr(C)]
#[derive(Clone, Copy)]
pub struct Next {
    pub number: u64,
    pub found: u64,
    pub fingerprint: u64,
    pub place: Place,
}

// The first place, or the number.
impl From<Result<Place, Refusal>> for First {
    ghost from_gives = { λ answer result. result ≡ begun_of answer };

    fn from(answer: Result<Place, Refusal>) -> First {
        match answer {
            Ok(place) => First { number: 0, place },
            Err(refusal) => First {
                number: number_of(refusal),
                place: Place {
                    quotient: 0,
                    slot: 0,
                    remaining: 0,
                },
            },
        }
    }
}

// The fingerprint, done, or the number, with the place after it.
impl From<Stepped> for Next {
    ghost from_gives = { λ stepped result. result ≡ next_of stepped.place stepped.step };

    fn from(stepped: Stepped) -> Next {
        let place = stepped.place;
        match stepped.step {
            Ok(Some(fingerprint)) => Next {
                number: 0,
                found: 1,
                fingerprint,
                place,
            },
            Ok(None) => Next {
                number: 0,
                found: 0,
                fingerprint: 0,
                place,
            },
            Err(refusal) => Next {
                number: number_of(refusal),
                found: 0,
                fingerprint: 0,
                place,
            },
        }
    }
}

// The place of the first fingerprint, after the check.
#[unsafe(no_mangle)]
pub extern "C" fn strumblay_list_begin(buf: &[u8], n: Sizes) -> First
    ensures { OfAny n (λ m. BeginOutcome m buf.now result) }
{
    begin(buf, n.into()).into()
}

// One step from a place, after asking 1 to 5.
#[tactic(auto, using(crate::specs::Listing::listed_any, crate::specs::Shown::shown_also))]
#[unsafe(no_mangle)]
pub extern "C" fn strumblay_list_step(buf: &[u8], n: Sizes, place: Place) -> Next
    ensures { OfAny n (λ m. StepOutcome m buf.now place result) }
{
    step_from(buf, n.into(), place).into()
}
