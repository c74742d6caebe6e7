// The retired list read: lookup, count and listing over the layout crate's promises.
#![tactic(auto)]

pub mod contains;
pub mod listing;
pub mod lookup;
pub mod reader;
pub mod runs;
