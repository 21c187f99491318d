// The numbers below the smallest normal one: where nothing is rounded off, one question serves for all of them.
ghost use Rattle.std.specs.Prelude.{true, ◌↔◌, ◌≡◌, ℕ, ◌+◌, ◌^◌, ◌≤◌, ◌<◌};
ghost use Rattle.mask.specs.Mask.{Meets};
ghost use Rattle.format.specs.Limits.{most_dropped};
ghost use Rattle.job.specs.Dropped.{ValidDropped};
ghost use Rattle.making.specs.Making.{Making, Room, Formed};
ghost use Rattle.outcome.specs.Outcome.{InFormat};
ghost use Rattle.outcome.specs.Question.{subnormal_word, Tells};

use crate::digits::{exact, fits};
use crate::sought::sought;
use crate::{Target, fewest, masks};
use format::Format;
use making::ask::rounds_at;
use making::{Aligned, columns};
use mask::Mask;
use rounding::Direction;
use word::{Biased, Unit};

// What is known of the numbers that serve: one is made, or they have so many digits at least.
#[derive(Clone, Copy)]
pub enum Known {
    Found,
    AtLeast(u64),
}

// Whether they make a number of at most `small` digits, those of a subnormal one, whose word meets c where nothing is rounded off. 0 is
// taken for a number of this sign.
fn subnormal(format: Format, sign: u64, unit: Unit, aligned: Aligned, c: Mask, small: u64) -> bool
    requires { InFormat format sign unit × Room format.f aligned × (small + unit.0 ≡ format.f + aligned.below) }
    ensures { Formed format.f aligned → (result ≡ true) ↔ Making format.f aligned (λ (x : ℕ). (x < 2 ^ small) × Meets (subnormal_word aligned.below format sign unit x) c) }
{
    let f = format.f;
    let Some(fraction) = sought(format, Direction::TowardZero, sign, c, Biased(0)) else {
        return false;
    };
    let x = masks::under_power(columns(aligned.like, aligned.below, f), small);
    rounds_at(
        aligned,
        f,
        Direction::TowardZero,
        unit,
        Unit(0),
        x,
        fraction,
    )
}

// What is known of the numbers other than 0, before they are asked about by their digits. Where dropped bits are fixed, none below the
// smallest normal number serves. Else, where no subnormal number is found, none serves. One that is found may be 0, and the word of a zero
// sum of unlike operands has a sign of its own; but 0 meets no mask that wants a bit of the fraction to be 1.
fn past_zero(
    format: Format,
    mode: u64,
    sign: u64,
    unit: Unit,
    aligned: Aligned,
    target: Target,
) -> Known
    requires { InFormat format sign unit × Room format.f aligned }
    ensures { Formed format.f aligned → Tells format mode sign unit aligned target 1 result }
{
    let place = format.f + aligned.below;
    if place <= unit.0 {
        return Known::AtLeast(1);
    }
    let small = place - unit.0;
    if target.dropped.mask.care != 0 {
        return Known::AtLeast(small + 1);
    }
    if !exact(aligned, aligned.below.saturating_sub(unit.0)) {
        return Known::AtLeast(1);
    }
    if !subnormal(format, sign, unit, aligned, target.c, small) {
        return Known::AtLeast(small + 1);
    }
    if aligned.like {
        return Known::Found;
    }
    if mask::low(target.c, format.f).value != 0 {
        return Known::Found;
    }
    Known::AtLeast(1)
}

// What is known before the numbers are asked about by their digits.
pub(crate) fn first_count(
    format: Format,
    mode: u64,
    sign: u64,
    unit: Unit,
    aligned: Aligned,
    target: Target,
) -> Known
    requires { InFormat format sign unit × Room format.f aligned × (target.dropped.g ≤ most_dropped) }
    ensures { Formed format.f aligned → ValidDropped target.dropped → Tells format mode sign unit aligned target 0 result }
{
    let few = fewest(aligned, format.f);
    if few != 0 {
        return Known::AtLeast(few);
    }
    if fits(format, mode, sign, unit, aligned, target, 0) {
        return Known::Found;
    }
    past_zero(format, mode, sign, unit, aligned, target)
}
