// The carry row of two words.
ghost use Rattle.std.specs.Prelude.{◌≡◌, ◌^◌, ◌≤◌, ◌<◌};
ghost use Rattle.format.specs.Format.{Supported};
ghost use Rattle.word.specs.Operand.{Canonical, Sound};
ghost use Rattle.adder.specs.Row.{gather, ordered_row, finite_row, kind_row, row_cause, row_reply, carry_in};

use crate::result::{plain_cause, words_cause};
use bits::{high, low, power};
use format::{Cause, Format};
use rounding::alignment::sticky;
use word::exponent::unit_of;
use word::unpack::operands;
use word::{Finite, Operand, Operands};

// Whether position i of l and r carries, or borrows where the signs are unlike; s is the sticky bit of what r has below position 0.
fn carry_at(like: bool, l: u64, r: u64, s: u64, i: u64) -> bool
    requires { (l < 2 ^ 62) × (r < 2 ^ 62) × (s < 2) × (i < 62) }
    ensures { result ≡ carry_in like l r s i }
{
    let m = low(l, i + 1);
    let n = low(r, i + 1);
    if like {
        power(i + 1) <= m + n
    } else {
        m < n + s
    }
}

// The carries of n positions.
fn gathered(n: u64, like: bool, l: u64, r: u64, s: u64) -> u64
    requires { (n ≤ 62) × (l < 2 ^ 62) × (r < 2 ^ 62) × (s < 2) }
    ensures { result ≡ gather n (carry_in like l r s) }
{
    let mut row = 0;
    for i in 0..n {
        if carry_at(like, l, r, s, i) {
            row += power(i);
        }
    }
    row
}

// The row of two finite numbers, l being L: r's exponent is not the larger. Both are counted in l's unit.
fn ordered_row(format: Format, l: Finite, r: Finite) -> u64
    requires { Supported format × Canonical format l × Canonical format r × (r.exponent.0 ≤ l.exponent.0) }
    ensures { result ≡ ordered_row format l r }
{
    let u = unit_of(l.exponent);
    let v = unit_of(r.exponent);
    let gap = u.0 - v.0;
    let whole = high(r.significand, gap);
    let rest = sticky(low(r.significand, gap));
    gathered(format.f + 1, l.sign == r.sign, l.significand, whole, rest)
}

// The row of two finite numbers, x being a: the exponents alone tell which is L.
fn finite_row(format: Format, x: Finite, y: Finite) -> u64
    requires { Supported format × Canonical format x × Canonical format y }
    ensures { result ≡ finite_row format x y }
{
    if x.exponent.0 < y.exponent.0 {
        ordered_row(format, y, x)
    } else {
        ordered_row(format, x, y)
    }
}

// The row of two operands of any kind; there is none where one is infinite or a NaN.
#[tactic(auto, unfolding(crate::specs::Row::kind_row))]
fn kind_row(format: Format, operands: Operands) -> Option<u64>
    requires { Supported format × Sound format operands.a × Sound format operands.b }
    ensures { result ≡ kind_row format operands.a operands.b }
{
    let (Operand::Finite(x), Operand::Finite(y)) = (operands.a, operands.b) else {
        return None;
    };
    Some(finite_row(format, x, y))
}

// The first cause against a row.
#[tactic(auto, unfolding(crate::specs::Row::row_cause))]
fn row_cause(format: Format, operation: u64, a: u64, b: u64) -> Result<(), Cause>
    ensures { result ≡ row_cause format operation a b }
{
    plain_cause(format, operation)?;
    words_cause(format, a, b)
}

// The carry row of two words of a format, that there is none, or the refusal.
pub fn carry_row(format: Format, operation: u64, a: u64, b: u64) -> Result<Option<u64>, Cause>
    ensures { result ≡ row_reply format operation a b }
{
    row_cause(format, operation, a, b)?;
    let pair = operands(format, operation, a, b);
    Ok(kind_row(format, pair))
}
