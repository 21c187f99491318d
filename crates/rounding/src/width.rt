// The widths of aligned significands, beyond the fraction's bits.

// Below a significand's last bit where a sum is rounded: guard, round and sticky bit.
pub const GUARD_BITS: u64 = 3;
// A significand with these bits.
pub const ALIGNED: u64 = 1 + GUARD_BITS;
// What two of them make.
pub const SUM: u64 = 2 + GUARD_BITS;
// The most bits that are rounded off: one more than the guard bits after a carry.
pub const MOST_ROUNDED: u64 = 1 + GUARD_BITS;
// A mask on aligned significands is one on so many bits, all of a word but the top one.
pub const MASK_BITS: u64 = 63;
