// The word c: what its mask leaves open for an exponent field.
ghost use Rattle.std.specs.Prelude.{◌<◌};
ghost use Rattle.format.specs.Format.{Supported};
ghost use Rattle.outcome.specs.Question.{Seeks};

use format::Format;
use mask::Mask;
use rounding::Direction;
use rounding::round::overflow_word;
use word::Biased;
use word::pack::signed;

// Which fractions make a word that meets c, with this exponent field: those that meet a mask, or none. Past the largest finite number the
// fraction is not asked.
pub(crate) fn sought(
    format: Format,
    direction: Direction,
    sign: u64,
    c: Mask,
    exponent: Biased,
) -> Option<Mask>
    requires { Supported format × (sign < 2) }
    ensures { Seeks format direction sign c exponent result }
{
    if exponent.0 < (1 << format.w) - 1 {
        let above = mask::high(c, format.f);
        let met = mask::meets(above, (sign << format.w) + exponent.0);
        return met.then_some(mask::low(c, format.f));
    }
    let met = mask::meets(c, signed(format, sign, overflow_word(format, direction)));
    met.then_some(Mask { care: 0, value: 0 })
}
