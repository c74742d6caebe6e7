// The buffer that a filter lies in: its shape, its numbers, planning, a fresh one, its fields, and the check.
#![tactic(auto)]

pub mod blocks;
pub mod check;
pub mod fresh;
pub mod numbers;
pub mod planning;
pub mod refusal;
pub mod shape;
pub mod slot;
