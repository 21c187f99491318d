// Rounding a magnitude to a format: directions, significands aligned with a sticky bit, and the rounded word.
#![tactic(auto)]

pub mod addend;
pub mod alignment;
pub mod mode;
pub mod round;
pub mod width;

// Which neighbour a magnitude is rounded to; the nearest two differ where both are as near.
#[derive(Clone, Copy)]
pub enum Direction {
    NearestEven,
    NearestAway,
    TowardZero,
    Away,
}
