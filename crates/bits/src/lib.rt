// Bits of words and of byte slices: all that the layers above know of bytes, as promises on fields of numbers.
#![tactic(auto)]

pub mod bit;
pub mod compare;
pub mod count;
pub mod field;
pub mod remainder;
pub mod select;
pub mod word;
