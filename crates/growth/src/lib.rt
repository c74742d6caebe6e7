// Growth, merge and insert with a spare, over the filter's promises.
#![tactic(auto)]

pub mod adding;
pub mod holder;
pub mod merge;
pub mod rebuild;
pub mod source;
pub mod spare;
pub mod take;
pub mod union;
pub mod wider;
