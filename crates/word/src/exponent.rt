// The two exponents of a number, which never stand for each other.
ghost use Rattle.std.specs.Prelude.{◌≡◌, ◌%◌, ◌^◌};
ghost use Rattle.word.specs.Word.{unit_of, field_of};

use crate::{Biased, Unit};

// The one place where a biased exponent becomes the exponent of a unit: field 0 has the unit of field 1.
pub fn unit_of(exponent: Biased) -> Unit
    ensures { result ≡ unit_of exponent }
{
    if exponent.0 == 0 {
        Unit(0)
    } else {
        Unit(exponent.0 - 1)
    }
}

// The one way back from the exponent of a unit to a biased exponent, as far as a word holds it: `above` is what stands above the fraction
// of a number that is counted in this unit.
pub fn field_of(unit: Unit, above: u64) -> Biased
    ensures { result.0 ≡ (field_of unit above).0 % 2 ^ 64 }
{
    Biased(std::num::wrapping_add_u64(unit.0, above))
}
