// The rounded sum and difference of two words of a format, their carry row, and the bits of the exact result below the last.
#![tactic(auto)]

pub mod below_last;
pub mod carry_row;
pub mod result;
mod sum;
