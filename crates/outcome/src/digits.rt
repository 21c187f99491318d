// Whether two aligned significands make a number of so many binary digits that serves.
ghost use Rattle.std.specs.Prelude.{true, false, ◌↔◌, ◌≡◌, ℕ, ◌/◌, ◌%◌, ◌^◌, ◌≤◌, ◌<◌};
ghost use Rattle.std.specs.Float.Ieee.{size};
ghost use Rattle.format.specs.Format.{Supported};
ghost use Rattle.format.specs.Limits.{most_dropped};
ghost use Rattle.mask.specs.Mask.{Meets};
ghost use Rattle.job.specs.Dropped.{ValidDropped};
ghost use Rattle.word.specs.declared.Unit.{Unit};
ghost use Rattle.word.specs.Word.{signed};
ghost use Rattle.rounding.specs.declared.Direction.TheVariants.{TowardZero};
ghost use Rattle.rounding.specs.Width.{aligned_bits, sum_bits};
ghost use Rattle.rounding.specs.Outcome.{rounded_unit, kept_of, bounded_held};
ghost use Rattle.making.specs.Making.{Made, Making, columns_of, Room, Formed};
ghost use Rattle.outcome.specs.Outcome.{Serves, InFormat};
ghost use Rattle.outcome.specs.Question.{least_quotient, NextQuotient, KeepAlike, Sized, OnlyDigits};

use crate::dropped::{numbers, ways_at};
use crate::sought::sought;
use crate::{Target, masks};
use format::Format;
use job::Dropped;
use making::ask::rounds_at;
use making::{Aligned, columns};
use mask::Mask;
use rounding::Direction;
use rounding::mode::{direction, zero_sign};
use word::Unit;
use word::exponent::field_of;
use word::pack::signed;

// The exponent of the unit of what they make, rounded, where that has so many digits.
fn rounded_unit(f: u64, below: u64, count: u64, unit: Unit) -> Unit
    requires { (aligned_bits below f < 64) × (unit.0 < 2 ^ 63) × (count ≤ sum_bits below f) }
    ensures { result ≡ rounded_unit below f count unit }
{
    Unit((count + unit.0).saturating_sub(f + (1 + below)))
}

// The smaller of the two numbers that can stand above the fraction.
fn least_quotient(f: u64, below: u64, unit: Unit, count: u64) -> u64
    requires { (aligned_bits below f < 64) × (unit.0 < 2 ^ 63) × (count ≤ sum_bits below f) }
    ensures { result ≡ least_quotient below f count unit }
{
    if count + unit.0 < f + (1 + below) {
        0
    } else {
        1
    }
}

// Whether the masks fix the low j bits of both to 0: what they make has these bits 0 too.
pub(crate) fn exact(aligned: Aligned, j: u64) -> bool
    requires { j < 64 }
    ensures { result ≡ true → (f : ℕ) → (x : ℕ) → Made f aligned x → x % 2 ^ j ≡ 0 }
{
    if !masks::zeros(aligned.head, j) {
        return false;
    }
    masks::zeros(aligned.tail, j)
}

// The direction in which numbers of so many digits are asked about: toward zero where only zeros are rounded off, since then all directions
// keep the same part. A reversed row is one of operands with one unit, whose difference has only zeros there.
fn asked_direction(
    f: u64,
    direction: Direction,
    unit: Unit,
    aligned: Aligned,
    count: u64,
) -> Direction
    requires { Room f aligned × (unit.0 < 2 ^ 63) × (0 < count) × (count ≤ columns_of f aligned) }
    ensures alike { Formed f aligned → KeepAlike f result direction unit aligned count }
    ensures reversed { aligned.reversed ≡ true → result ≡ TowardZero }
{
    if aligned.reversed {
        return Direction::TowardZero;
    }
    let unit_of_kept = rounded_unit(f, aligned.below, count, unit);
    let j = (unit_of_kept.0 + aligned.below).saturating_sub(unit.0);
    if exact(aligned, j) {
        Direction::TowardZero
    } else {
        direction
    }
}

// Whether they make a number that meets x, which asks for so many digits, whose kept part is `quotient` and below it a fraction
// that meets a mask.
fn rounds_to(
    aligned: Aligned,
    f: u64,
    direction: Direction,
    unit: Unit,
    count: u64,
    x: Mask,
    quotient: u64,
    fraction: Mask,
) -> bool
    requires { Room f aligned × (unit.0 < 2 ^ 63) × (0 < count) × (count ≤ columns_of f aligned) × (quotient < 4) × (fraction.care < 2 ^ f) × (fraction.value < 2 ^ f) × (aligned.reversed ≡ true → direction ≡ TowardZero) × OnlyDigits (columns_of f aligned) count x }
    ensures { Formed f aligned → (result ≡ true) ↔ Making f aligned (λ (n : ℕ). Meets n x × (kept_of aligned.below f direction n unit / 2 ^ f ≡ quotient) × Meets (kept_of aligned.below f direction n unit % 2 ^ f) fraction) }
{
    let rounded = rounded_unit(f, aligned.below, count, unit);
    let kept = masks::topped(2, f, quotient, fraction);
    rounds_at(aligned, f, direction, unit, rounded, x, kept)
}

// Whether they make a number of so many digits, with dropped bits of which some are fixed, whose kept part is `quotient` and below it a
// fraction that meets a mask: for each way in which it may have these bits.
fn some_way(
    format: Format,
    direction: Direction,
    unit: Unit,
    aligned: Aligned,
    dropped: Dropped,
    count: u64,
    quotient: u64,
    fraction: Mask,
) -> bool
    requires { Room format.f aligned × (unit.0 < 2 ^ 63) × (0 < count) × (count ≤ columns_of format.f aligned) × (quotient < 4) × (fraction.care < 2 ^ format.f) × (fraction.value < 2 ^ format.f) × (aligned.reversed ≡ true → direction ≡ TowardZero) × (dropped.g ≤ most_dropped) }
    ensures { Formed format.f aligned → ValidDropped dropped → (result ≡ true) ↔ Making format.f aligned (λ (n : ℕ). Sized format aligned.below unit dropped count n × (kept_of aligned.below format.f direction n unit / 2 ^ format.f ≡ quotient) × Meets (kept_of aligned.below format.f direction n unit % 2 ^ format.f) fraction) }
{
    let last = columns(aligned.like, aligned.below, format.f);
    let ways = ways_at(aligned.below, format.f, unit, dropped, count);
    for way in 0..ways {
        let x = numbers(last, format.f, dropped, count, way);
        if rounds_to(
            aligned, format.f, direction, unit, count, x, quotient, fraction,
        ) {
            return true;
        }
    }
    false
}

// Whether they make a number of so many digits, with dropped bits as they are wanted, whose kept part is `quotient` and below it a fraction
// that meets a mask.
fn rounds_as(
    format: Format,
    direction: Direction,
    unit: Unit,
    aligned: Aligned,
    dropped: Dropped,
    count: u64,
    quotient: u64,
    fraction: Mask,
) -> bool
    requires { Room format.f aligned × (unit.0 < 2 ^ 63) × (0 < count) × (count ≤ columns_of format.f aligned) × (quotient < 4) × (fraction.care < 2 ^ format.f) × (fraction.value < 2 ^ format.f) × (aligned.reversed ≡ true → direction ≡ TowardZero) × (dropped.g ≤ most_dropped) }
    ensures { Formed format.f aligned → ValidDropped dropped → (result ≡ true) ↔ Making format.f aligned (λ (n : ℕ). Sized format aligned.below unit dropped count n × (kept_of aligned.below format.f direction n unit / 2 ^ format.f ≡ quotient) × Meets (kept_of aligned.below format.f direction n unit % 2 ^ format.f) fraction) }
{
    let fixed = dropped.mask.care;
    if fixed != 0 {
        return some_way(
            format, direction, unit, aligned, dropped, count, quotient, fraction,
        );
    }
    let x = masks::digits(columns(aligned.like, aligned.below, format.f), count);
    rounds_to(
        aligned, format.f, direction, unit, count, x, quotient, fraction,
    )
}

// Whether they make a number of so many digits with `quotient` above the fraction that has dropped bits as they are wanted and a word that
// meets c. It is asked about in the direction `asked`, which keeps the same part of it.
fn at_quotient(
    format: Format,
    direction: Direction,
    asked: Direction,
    sign: u64,
    unit: Unit,
    aligned: Aligned,
    target: Target,
    count: u64,
    quotient: u64,
) -> bool
    requires { InFormat format sign unit × Room format.f aligned × (0 < count) × (count ≤ columns_of format.f aligned) × (quotient < 4) × (Formed format.f aligned → KeepAlike format.f asked direction unit aligned count) × (aligned.reversed ≡ true → asked ≡ TowardZero) × (target.dropped.g ≤ most_dropped) }
    ensures { Formed format.f aligned → ValidDropped target.dropped → (result ≡ true) ↔ Making format.f aligned (λ (n : ℕ). Sized format aligned.below unit target.dropped count n × (kept_of aligned.below format.f direction n unit / 2 ^ format.f ≡ quotient) × Meets (signed format sign (bounded_held aligned.below format direction n unit)) target.c) }
{
    let exponent = field_of(rounded_unit(format.f, aligned.below, count, unit), quotient);
    match sought(format, direction, sign, target.c, exponent) {
        None => false,
        Some(fraction) => rounds_as(
            format,
            asked,
            unit,
            aligned,
            target.dropped,
            count,
            quotient,
            fraction,
        ),
    }
}

// Whether rounding may carry into the next quotient. It never does toward zero, nor in the longest sum or difference: that is at most the
// largest significand with zeros below it, and so is rounded to no more than this significand.
fn may_carry(f: u64, direction: Direction, aligned: Aligned, count: u64) -> bool
    requires { Room f aligned × (0 < count) × (count ≤ columns_of f aligned) }
    ensures { result ≡ false → Formed f aligned → (unit : Unit) → NextQuotient f direction unit aligned count → ⊥ }
{
    match direction {
        Direction::TowardZero => false,
        Direction::NearestEven | Direction::NearestAway | Direction::Away => {
            count != columns(aligned.like, aligned.below, f)
        }
    }
}

// Whether they make a number of so many digits, not 0, that has dropped bits as they are wanted and a word that meets c.
fn at_count(
    format: Format,
    direction: Direction,
    sign: u64,
    unit: Unit,
    aligned: Aligned,
    target: Target,
    count: u64,
) -> bool
    requires { InFormat format sign unit × Room format.f aligned × (0 < count) × (count ≤ columns_of format.f aligned) × (target.dropped.g ≤ most_dropped) }
    ensures { Formed format.f aligned → ValidDropped target.dropped → (result ≡ true) ↔ Making format.f aligned (λ (n : ℕ). Sized format aligned.below unit target.dropped count n × Meets (signed format sign (bounded_held aligned.below format direction n unit)) target.c) }
{
    let f = format.f;
    let h = least_quotient(f, aligned.below, unit, count);
    let by = asked_direction(f, direction, unit, aligned, count);
    if at_quotient(format, direction, by, sign, unit, aligned, target, count, h) {
        return true;
    }
    if !may_carry(f, by, aligned, count) {
        return false;
    }
    let next = h + 1;
    at_quotient(
        format, direction, by, sign, unit, aligned, target, count, next,
    )
}

// Whether they make 0, and the word of a zero sum meets c. A zero has no dropped bits. It is asked for toward zero, where rounding adds
// nothing, and any part may be kept.
fn at_zero(format: Format, mode: u64, sign: u64, aligned: Aligned, target: Target) -> bool
    requires { Supported format × (sign < 2) × Room format.f aligned }
    ensures { Formed format.f aligned → (unit : Unit) → (result ≡ true) ↔ Making format.f aligned (λ (x : ℕ). (size x ≡ 0) × Serves format mode sign unit aligned target x) }
{
    if target.dropped.mask.care != 0 {
        return false;
    }
    if mask::meets(
        target.c,
        signed(format, zero_sign(mode, aligned.like, sign), 0),
    ) {
        let x = masks::digits(columns(aligned.like, aligned.below, format.f), 0);
        let any = Mask { care: 0, value: 0 };
        return rounds_at(
            aligned,
            format.f,
            Direction::TowardZero,
            Unit(0),
            Unit(0),
            x,
            any,
        );
    }
    false
}

// Whether a number of so many digits may have a word that meets c: for either quotient, by its exponent field. Where c fixes nothing above
// the fraction it may.
fn word_left(
    format: Format,
    direction: Direction,
    sign: u64,
    unit: Unit,
    below: u64,
    c: Mask,
    count: u64,
) -> bool
    requires { InFormat format sign unit × (aligned_bits below format.f < 64) × (0 < count) × (count ≤ sum_bits below format.f) × (count < 64) }
    ensures { result ≡ false → (x : ℕ) → size x ≡ count → Meets (signed format sign (bounded_held below format direction x unit)) c → ⊥ }
{
    let above = mask::high(c, format.f);
    if above.care == 0 {
        return true;
    }
    let least = least_quotient(format.f, below, unit, count);
    let rounded = rounded_unit(format.f, below, count, unit);
    let first = sought(format, direction, sign, c, field_of(rounded, least));
    if first.is_some() {
        return true;
    }
    let next = sought(format, direction, sign, c, field_of(rounded, least + 1));
    next.is_some()
}

// Whether they make a number of so many digits that serves.
pub(crate) fn fits(
    format: Format,
    mode: u64,
    sign: u64,
    unit: Unit,
    aligned: Aligned,
    target: Target,
    count: u64,
) -> bool
    requires { InFormat format sign unit × Room format.f aligned × (target.dropped.g ≤ most_dropped) × (count ≤ columns_of format.f aligned) }
    ensures { Formed format.f aligned → ValidDropped target.dropped → (result ≡ true) ↔ Making format.f aligned (λ (x : ℕ). (size x ≡ count) × Serves format mode sign unit aligned target x) }
{
    if count == 0 {
        return at_zero(format, mode, sign, aligned, target);
    }
    let direction = direction(mode, sign);
    if !word_left(
        format,
        direction,
        sign,
        unit,
        aligned.below,
        target.c,
        count,
    ) {
        return false;
    }
    at_count(format, direction, sign, unit, aligned, target, count)
}
