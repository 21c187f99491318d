// Words from their parts. Where a part has no place in a word of a supported format, each function gives 0.
ghost use Rattle.std.specs.Prelude.{◌≡◌};
ghost use Rattle.format.specs.Format.{Supported};
ghost use Rattle.word.specs.Word.{infinity_word, signed, word_of};
ghost use Rattle.word.specs.Parts.{SignedFits, FieldsFit};

use bits::power;
use format::{Format, supported};

// The word of infinity's magnitude.
pub fn infinity_word(format: Format) -> u64
    ensures { (Supported format → result ≡ infinity_word format) × ((Supported format → ⊥) → result ≡ 0) }
{
    if !supported(format) {
        return 0;
    }
    (power(format.w) - 1) * power(format.f)
}

// The word of a sign and the word of a magnitude.
pub fn signed(format: Format, sign: u64, magnitude: u64) -> u64
    ensures { (SignedFits format sign magnitude → result ≡ signed format sign magnitude) × ((SignedFits format sign magnitude → ⊥) → result ≡ 0) }
{
    if !supported(format) {
        return 0;
    }
    if 2 <= sign {
        return 0;
    }
    let place = power(format.w + format.f);
    if place <= magnitude {
        return 0;
    }
    sign * place + magnitude
}

// The word of a sign, an exponent field and a fraction.
pub fn word_of(format: Format, sign: u64, e: u64, t: u64) -> u64
    ensures { (FieldsFit format sign e t → result ≡ word_of format sign e t) × ((FieldsFit format sign e t → ⊥) → result ≡ 0) }
{
    if !supported(format) {
        return 0;
    }
    if power(format.w) <= e {
        return 0;
    }
    let place = power(format.f);
    if place <= t {
        return 0;
    }
    signed(format, sign, e * place + t)
}
