// The library for Rust and C: the public calls, on numbers and slices, with plain structs for answers. Number 0 means not refused.
// Not exported: `step_on` and the reader, since a place goes in and comes back by value; `holder`, since a slice is no C value and `in_spare` says as
// much; and `Shape::new`, `number_due`, `rbits_for` and `clear`, which are parts of other calls.
#![tactic(auto)]

pub mod changing;
pub mod growing;
pub mod listing;
pub mod merging;
pub mod planning;
pub mod reading;
