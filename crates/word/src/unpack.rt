// From words to operand kinds.
ghost use Rattle.std.specs.Prelude.{◌≡◌, ◌^◌, ◌<◌};
ghost use Rattle.format.specs.Format.{Supported};
ghost use Rattle.word.specs.declared.Operand.TheVariants.{Nan};
ghost use Rattle.word.specs.Word.{significand, effective};
ghost use Rattle.word.specs.Operand.{operand_of};

use crate::pack::signed;
use crate::{Biased, Finite, Operand, Operands};
use bits::{bit_at, high, low, power};
use format::{Format, supported};

// The significand of a biased exponent and a fraction.
fn significand(f: u64, exponent: Biased, fraction: u64) -> u64
    requires { (f < 63) × (fraction < 2 ^ f) }
    ensures { result ≡ significand f exponent.0 fraction }
{
    if exponent.0 == 0 {
        fraction
    } else {
        power(f) + fraction
    }
}

// The kind of the operand x.
fn operand_of(format: Format, x: u64) -> Operand
    requires { Supported format }
    ensures { result ≡ operand_of format x }
{
    let fraction = low(x, format.f);
    let exponent = low(high(x, format.f), format.w);
    let sign = high(x, format.w + format.f) % 2;
    if exponent == power(format.w) - 1 {
        if fraction == 0 {
            Operand::Infinite(sign)
        } else {
            Operand::Nan
        }
    } else {
        Operand::Finite(Finite {
            sign,
            exponent: Biased(exponent),
            significand: significand(format.f, Biased(exponent), fraction),
        })
    }
}

// The word b, with its sign turned where the operation subtracts.
fn effective(format: Format, operation: u64, b: u64) -> u64
    requires { Supported format }
    ensures { result ≡ effective format operation b }
{
    let place = format.w + format.f;
    let sign = (bit_at(b, place) + operation % 2) % 2;
    signed(format, sign, low(b, place))
}

// The kinds of both operands of the effective addition; two NaNs in a format that is not supported.
pub fn operands(format: Format, operation: u64, a: u64, b: u64) -> Operands
    ensures { (Supported format → (result.a ≡ operand_of format a) × (result.b ≡ operand_of format (effective format operation b)))
        × ((Supported format → ⊥) → (result.a ≡ Nan) × (result.b ≡ Nan)) }
{
    if !supported(format) {
        return Operands {
            a: Operand::Nan,
            b: Operand::Nan,
        };
    }
    let turned = effective(format, operation, b);
    Operands {
        a: operand_of(format, a),
        b: operand_of(format, turned),
    }
}
