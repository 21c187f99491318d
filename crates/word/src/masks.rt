// The masks on the fields of a word.
ghost use Rattle.std.specs.Prelude.{◌≡◌};
ghost use Rattle.word.specs.Masks.{sign_mask, exponent_mask, fraction_mask};

use format::Format;
use mask::{Mask, high, low};

// The sign bit's. It lies above the fraction and the exponent field, whose widths together may be no number of a word.
pub fn sign_mask(format: Format, m: Mask) -> Mask
    ensures { result ≡ sign_mask format m }
{
    low(high(high(m, format.w), format.f), 1)
}

// The exponent field's.
pub fn exponent_mask(format: Format, m: Mask) -> Mask
    ensures { result ≡ exponent_mask format m }
{
    low(high(m, format.f), format.w)
}

// The fraction's.
pub fn fraction_mask(format: Format, m: Mask) -> Mask
    ensures { result ≡ fraction_mask format m }
{
    low(m, format.f)
}
