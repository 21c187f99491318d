// Rounding a magnitude to a format.
ghost use Rattle.std.specs.Prelude.{true, ◌↔◌, ◌≡◌, ℕ, ◌+◌, ◌-◌, ◌*◌, ◌^◌, ◌≤◌, ◌<◌};
ghost use Rattle.std.specs.Float.Ieee.{size};
ghost use Rattle.format.specs.Format.{Supported};
ghost use Rattle.rounding.specs.Rounding.{round_off, magnitude_word, overflow_word, rounded};
ghost use Rattle.rounding.specs.Width.{guard_bits, aligned_bits, sum_bits};
ghost use Rattle.rounding.specs.Sticky.{Held, Roundable, kept_part};

use crate::Direction;
use crate::addend::{carry, constant};
use crate::mode::direction;
use crate::width::{ALIGNED, GUARD_BITS, MOST_ROUNDED, SUM};
use bits::{bit_at, high, power};
use format::{Format, supported};
use word::Unit;
use word::pack::{infinity_word, signed};

// x with its low k bits rounded off.
fn round_off(direction: Direction, x: u64, k: u64) -> u64
    requires { (x < 2 ^ 62) × (k < 62) }
    ensures { result ≡ round_off direction x k }
{
    let last = bit_at(x, k);
    high(x + constant(direction, k) + carry(direction, k, last), k)
}

// The number of binary digits of x.
fn size(x: u64) -> u64
    ensures { result ≡ size x }
{
    (64 - u64::leading_zeros(x)) as u64
}

// How many bits of the magnitude that x stands for are dropped: x has the guard bits below the unit of 2^u steps.
fn dropped(format: Format, x: u64, u: Unit) -> u64
    requires { Supported format × (u.0 < 2 ^ format.w) }
    ensures { result ≡ size x + u.0 - aligned_bits guard_bits format.f }
{
    let top = size(x) + u.0;
    let kept = format.f + ALIGNED;
    if kept < top { top - kept } else { 0 }
}

// x shifted to have the guard bits, or one more after a carry, below the last kept one, and rounded.
fn kept_part(direction: Direction, x: u64, u: Unit, k: u64) -> u64
    requires { (x < 2 ^ 61) × (u.0 - k < 61) × (x * 2 ^ (u.0 - k) < 2 ^ 61) }
    ensures { (result ≡ kept_part guard_bits direction x u.0 k) × (result ≤ 2 ^ 61) }
{
    let unit = u.0;
    if unit < k {
        round_off(direction, x, MOST_ROUNDED)
    } else {
        round_off(direction, x << (unit - k), GUARD_BITS)
    }
}

// The word of the rounded magnitude that x stands for.
fn magnitude_word(format: Format, direction: Direction, x: u64, u: Unit) -> u64
    requires { Supported format × (u.0 < 2 ^ format.w) × (x < 2 ^ sum_bits guard_bits format.f) }
    ensures { (X : ℕ) → 0 < X → Held format guard_bits 1 X x u.0 → result ≡ magnitude_word format direction X }
{
    let k = dropped(format, x, u);
    k * power(format.f) + kept_part(direction, x, u, k)
}

// The word of the magnitude that stands for one past the largest finite number; 0 in a format that is not supported.
pub fn overflow_word(format: Format, direction: Direction) -> u64
    ensures { (Supported format → result ≡ overflow_word format direction) × ((Supported format → ⊥) → result ≡ 0) }
{
    let infinity = infinity_word(format);
    if infinity == 0 {
        return 0;
    }
    match direction {
        Direction::NearestEven => infinity,
        Direction::NearestAway => infinity,
        Direction::TowardZero => infinity - 1,
        Direction::Away => infinity,
    }
}

// Whether a sign, a number x with guard bits and its unit u are such as operands of the format give.
fn roundable(format: Format, sign: u64, x: u64, u: Unit) -> bool
    ensures { result ≡ true ↔ Roundable format sign x u.0 }
{
    if !supported(format) {
        return false;
    }
    (sign < 2) & (u.0 < power(format.w)) & (x < power(format.f + SUM))
}

// The word of a sign and the rounded magnitude that x stands for; 0 where x is not such as operands of the format give.
pub fn rounded(format: Format, mode: u64, sign: u64, x: u64, u: Unit) -> u64
    ensures { (Roundable format sign x u.0 → (X : ℕ) → Held format guard_bits 1 X x u.0 → result ≡ rounded format mode sign X)
        × ((Roundable format sign x u.0 → ⊥) → result ≡ 0) }
{
    if !roundable(format, sign, x, u) {
        return 0;
    }
    if x == 0 {
        return signed(format, sign, 0);
    }
    let direction = direction(mode, sign);
    let magnitude = magnitude_word(format, direction, x, u);
    if magnitude < infinity_word(format) {
        signed(format, sign, magnitude)
    } else {
        signed(format, sign, overflow_word(format, direction))
    }
}
