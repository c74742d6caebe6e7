// The retired list written: insert and remove, over the filter's runs and lookups.
#![tactic(auto)]

pub mod insert;
pub mod remove;
pub mod shift;
pub mod writers;
