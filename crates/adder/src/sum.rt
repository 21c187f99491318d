// The rounded sum of two operands by their kinds.
ghost use Rattle.std.specs.Prelude.{◌≡◌, ◌≤◌, ◌<◌, ltb};
ghost use Rattle.format.specs.Format.{Supported};
ghost use Rattle.word.specs.Operand.{magnitude, Canonical, Sound};
ghost use Rattle.adder.specs.Result.{nan, infinity, finite_sum, infinite_sum, kind_sum};

use bits::power;
use format::Format;
use rounding::alignment::aligned;
use rounding::mode::cancelled_sign;
use rounding::round::rounded;
use rounding::width::GUARD_BITS;
use word::exponent::unit_of;
use word::pack::{infinity_word, signed};
use word::{Finite, Operand, Operands};

// Whether x has the smaller magnitude: by the exponents, and where these are equal by the significands.
pub(crate) fn smaller(x: Finite, y: Finite, format: Format) -> bool
    requires { Canonical format x × Canonical format y }
    ensures { result ≡ ltb (magnitude x) (magnitude y) }
{
    let e = x.exponent;
    let g = y.exponent;
    if e.0 == g.0 {
        x.significand < y.significand
    } else {
        e.0 < g.0
    }
}

// The sum of two finite numbers, the first not the smaller.
fn ordered_sum(format: Format, mode: u64, l: Finite, r: Finite) -> u64
    requires { Supported format × Canonical format l × Canonical format r × (magnitude r ≤ magnitude l) }
    ensures { result ≡ finite_sum format mode l r }
{
    let u = unit_of(l.exponent);
    let v = unit_of(r.exponent);
    let head = aligned(l.significand, 0, GUARD_BITS);
    let tail = aligned(r.significand, u.0 - v.0, GUARD_BITS);
    if l.sign == r.sign {
        rounded(format, mode, l.sign, head + tail, u)
    } else if head == tail {
        signed(format, cancelled_sign(mode), 0)
    } else {
        rounded(format, mode, l.sign, head - tail, u)
    }
}

// The sum of two finite numbers.
fn finite_sum(format: Format, mode: u64, x: Finite, y: Finite) -> u64
    requires { Supported format × Canonical format x × Canonical format y }
    ensures { result ≡ finite_sum format mode x y }
{
    if smaller(x, y, format) {
        ordered_sum(format, mode, y, x)
    } else {
        ordered_sum(format, mode, x, y)
    }
}

// The one NaN.
fn nan(format: Format) -> u64
    requires { Supported format }
    ensures { result ≡ nan format }
{
    infinity_word(format) + power(format.f - 1)
}

// Infinity of a sign.
fn infinity(format: Format, sign: u64) -> u64
    requires { Supported format × (sign < 2) }
    ensures { result ≡ infinity format sign }
{
    signed(format, sign, infinity_word(format))
}

// The sum of an infinity and another operand.
fn infinite_sum(format: Format, sign: u64, other: Operand) -> u64
    requires { Supported format × (sign < 2) }
    ensures { result ≡ infinite_sum format sign other }
{
    match other {
        Operand::Finite(_) => infinity(format, sign),
        Operand::Infinite(t) => {
            if sign == t {
                infinity(format, sign)
            } else {
                nan(format)
            }
        }
        Operand::Nan => nan(format),
    }
}

// The sum of two operands of any kind.
pub(crate) fn kind_sum(format: Format, mode: u64, operands: Operands) -> u64
    requires { Supported format × Sound format operands.a × Sound format operands.b }
    ensures { result ≡ kind_sum format mode operands.a operands.b }
{
    let a = operands.a;
    let b = operands.b;
    match a {
        Operand::Finite(x) => match b {
            Operand::Finite(y) => finite_sum(format, mode, x, y),
            Operand::Infinite(t) => infinity(format, t),
            Operand::Nan => nan(format),
        },
        Operand::Infinite(s) => infinite_sum(format, s, b),
        Operand::Nan => nan(format),
    }
}
