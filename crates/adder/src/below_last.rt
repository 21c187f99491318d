// The bits of an exact result below the last one that is kept.
ghost use Rattle.std.specs.Prelude.{◌≡◌, None, ℕ, ◌+◌, ◌^◌, ◌≤◌, ◌<◌};
ghost use Rattle.format.specs.Limits.{most_dropped};
ghost use Rattle.format.specs.Format.{Supported};
ghost use Rattle.word.specs.Operand.{magnitude, Canonical, Sound};
ghost use Rattle.rounding.specs.Dropped.{dropped_word};
ghost use Rattle.rounding.specs.Sticky.{Held};
ghost use Rattle.adder.specs.Below.{magnitude_below, finite_below, kind_below, below_of};

use crate::sum::smaller;
use bits::{high, low};
use format::limits::MOST_DROPPED;
use format::{Format, supported};
use rounding::alignment::{aligned, sticky};
use word::exponent::unit_of;
use word::unpack::operands;
use word::{Finite, Operand, Operands, Unit};

// Below the larger operand's last bit: the most dropped bits, one more that a difference may need, and the sticky bit.
const HELD_BITS: u64 = MOST_DROPPED + 2;

// The g dropped bits of x and their sticky bit. With its first digit moved up to the top of the word x has more than g bits after those
// that are kept.
fn dropped_word(format: Format, g: u64, x: u64) -> u64
    requires { Supported format × (g ≤ most_dropped) × (0 < x) }
    ensures { result ≡ dropped_word format g x }
{
    let top = x << (u64::leading_zeros(x) as u64);
    let k = 63 - format.f - g;
    low(high(top, k) * 2 + sticky(low(top, k)), g + 1)
}

// The same of the magnitude that x holds in units of 2^u steps, if that is at least the smallest normal one.
fn held_below(format: Format, g: u64, x: u64, u: Unit) -> Option<u64>
    requires { Supported format × (g ≤ most_dropped) × (u.0 < 2 ^ format.w) }
    ensures { (X : ℕ) → Held format (most_dropped + 2) most_dropped X x u.0 → result ≡ magnitude_below format g X }
{
    if x == 0 {
        return None;
    }
    let zeros = u64::leading_zeros(x) as u64;
    if 64 + u.0 < format.f + 1 + HELD_BITS + zeros {
        return None;
    }
    Some(dropped_word(format, g, x))
}

// The bits below the last one of two finite numbers' sum, the first not the smaller.
fn ordered_below(format: Format, g: u64, l: Finite, r: Finite) -> Option<u64>
    requires { Supported format × (g ≤ most_dropped) × Canonical format l × Canonical format r × (magnitude r ≤ magnitude l) }
    ensures { result ≡ finite_below format g l r }
{
    let u = unit_of(l.exponent);
    let v = unit_of(r.exponent);
    let head = aligned(l.significand, 0, HELD_BITS);
    let tail = aligned(r.significand, u.0 - v.0, HELD_BITS);
    if l.sign == r.sign {
        held_below(format, g, head + tail, u)
    } else {
        held_below(format, g, head - tail, u)
    }
}

// Those of two finite numbers.
fn finite_below(format: Format, g: u64, x: Finite, y: Finite) -> Option<u64>
    requires { Supported format × (g ≤ most_dropped) × Canonical format x × Canonical format y }
    ensures { result ≡ finite_below format g x y }
{
    if smaller(x, y, format) {
        ordered_below(format, g, y, x)
    } else {
        ordered_below(format, g, x, y)
    }
}

// Those of two operands of any kind; there are none where one is infinite or a NaN.
#[tactic(auto, unfolding(crate::specs::Below::kind_below))]
fn kind_below(format: Format, g: u64, operands: Operands) -> Option<u64>
    requires { Supported format × (g ≤ most_dropped) × Sound format operands.a × Sound format operands.b }
    ensures { result ≡ kind_below format g operands.a operands.b }
{
    let (Operand::Finite(x), Operand::Finite(y)) = (operands.a, operands.b) else {
        return None;
    };
    finite_below(format, g, x, y)
}

// The g dropped bits of the exact result of two words of a format and their sticky bit, or that there are none; none either in a format
// that is not supported, or for a g above its limit.
pub fn below_last(format: Format, operation: u64, g: u64, a: u64, b: u64) -> Option<u64>
    ensures { ((Supported format × (g ≤ most_dropped)) → result ≡ below_of format operation g a b) × (((Supported format × (g ≤ most_dropped)) → ⊥) → result ≡ None) }
{
    if !supported(format) {
        return None;
    }
    if MOST_DROPPED < g {
        return None;
    }
    let pair = operands(format, operation, a, b);
    kind_below(format, g, pair)
}
