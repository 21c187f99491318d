// Masks on significands, and on their aligned forms.
#![tactic(auto)]

ghost use Rattle.std.specs.Prelude.{◌≡◌, ◌%◌, ◌^◌, ◌<◌, ◌≤◌, true};
ghost use Rattle.mask.specs.Mask.{WellFormed};
ghost use Rattle.rounding.specs.Width.{mask_bits};
ghost use Rattle.significand.specs.Significand.{significand_mask};
ghost use Rattle.significand.specs.Tail.{complement, greatest, spanned, aligned_mask, roomy, tail_mask};

use bits::power;
use mask::{Mask, fix, well_formed};
use rounding::alignment::aligned;
use rounding::width::MASK_BITS;
use std::num::wrapping_add_u64;
use word::Biased;

// The mask on the significand of a fraction and an exponent field; the fraction's as it is where f is 64 or more or bit f is fixed.
pub fn significand_mask(f: u64, fraction: Mask, exponent: Biased) -> Mask
    ensures { result ≡ significand_mask f fraction exponent }
{
    if exponent.0 == 0 {
        fix(fraction, f, 0)
    } else {
        fix(fraction, f, 1)
    }
}

// The k bits that x has not.
fn complement(k: u64, x: u64) -> u64
    requires { k < 64 }
    ensures { result ≡ complement k x }
{
    (power(k) - 1).saturating_sub(x)
}

// The greatest number of k bits that meets m; 0 where k is 64 or more, and what a word holds of it where m is not well formed for k bits.
pub fn greatest(k: u64, m: Mask) -> u64
    ensures { (k < 64 → result ≡ greatest k m % 2 ^ 64) × (64 ≤ k → result ≡ 0) }
{
    if 64 <= k {
        return 0;
    }
    wrapping_add_u64(m.value, complement(k, m.care))
}

// The mask from its least number and its greatest.
fn spanned(l: u64, g: u64) -> Mask
    requires { (l ≤ g) × (g < 2 ^ mask_bits) }
    ensures { result ≡ spanned mask_bits l g }
{
    Mask {
        care: complement(MASK_BITS, g - l),
        value: l,
    }
}

// Whether numbers of p bits have room for so many more.
fn roomy(below: u64, p: u64) -> bool
    ensures { result ≡ roomy below p }
{
    if MASK_BITS <= below {
        return false;
    }
    (0 < below) & (p <= MASK_BITS - below)
}

// The mask on the aligned forms, with so many bits below the larger operand's last one, of the significands of p bits that meet m.
fn aligned_mask(below: u64, p: u64, m: Mask, gap: u64) -> Mask
    requires { (roomy below p ≡ true) × WellFormed p m }
    ensures { result ≡ aligned_mask below p m gap }
{
    spanned(
        aligned(m.value, gap, below),
        aligned(greatest(p, m), gap, below),
    )
}

// That mask; m as it is where p bits leave no room for so many more or m is not well formed for p bits.
pub fn tail_mask(below: u64, p: u64, m: Mask, gap: u64) -> Mask
    ensures { result ≡ tail_mask below p m gap }
{
    if roomy(below, p) {
        if well_formed(p, m) {
            return aligned_mask(below, p, m, gap);
        }
    }
    m
}
