// The limits of the plain numbers, each in this one place.
pub const LEAST_EXPONENT_BITS: u64 = 2;

pub const MOST_EXPONENT_BITS: u64 = 11;

pub const LEAST_FRACTION_BITS: u64 = 2;

pub const MOST_FRACTION_BITS: u64 = 52;

pub const MOST_OPERATION: u64 = 1;

pub const MOST_MODE: u64 = 4;
// Whole numbers: their length.
pub const LEAST_LENGTH: u64 = 1;

pub const MOST_LENGTH: u64 = 32;
// The bits that rounding drops, the sticky bit not counted.
pub const MOST_DROPPED: u64 = 8;
