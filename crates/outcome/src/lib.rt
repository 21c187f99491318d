// Whether two aligned significands make a word that meets a mask, with dropped bits that meet another.
#![tactic(auto)]

use digits::fits;
use format::Format;
use format::limits::MOST_DROPPED;
use job::Dropped;
use making::{Aligned, columns, roomy};
use mask::Mask;
use subnormal::{Known, first_count};
use word::Unit;

mod digits;
mod dropped;
mod masks;
mod sought;
mod subnormal;

ghost use Rattle.std.specs.Prelude.{true, ◌↔◌, ◌≡◌, ℕ, ◌+◌, ◌-◌, ◌^◌, ◌≤◌, ◌<◌};
ghost use Rattle.std.specs.Float.Ieee.{size};
ghost use Rattle.mask.specs.Mask.{Meets};
ghost use Rattle.format.specs.Limits.{most_dropped};
ghost use Rattle.job.specs.Dropped.{ValidDropped};
ghost use Rattle.rounding.specs.Width.{aligned_bits};
ghost use Rattle.making.specs.Making.{Made, Making, Room, Formed};
ghost use Rattle.outcome.specs.Outcome.{Serves, Admits, InFormat};

// What is wanted of the result: of its word, and of the bits that rounding drops.
#[derive(Clone, Copy)]
pub struct Target {
    pub c: Mask,
    pub dropped: Dropped,
}

// Whether an aligned significand's mask keeps its two top bits 0.
fn small(m: Mask, f: u64, below: u64) -> bool
    requires { (0 < below) × (aligned_bits below f < 64) }
    ensures { result ≡ true → (n : ℕ) → n < 2 ^ aligned_bits below f → Meets n m → n < 2 ^ (f + below - 1) }
{
    let above = mask::high(m, f + below - 1);
    if mask::meets(above, 1) {
        return false;
    }
    if mask::meets(above, 2) {
        return false;
    }
    !mask::meets(above, 3)
}

// A number of digits that what they make has at least: nearly all of them where the larger significand has its top bit, and the other is
// added to it or is small.
pub(crate) fn fewest(aligned: Aligned, f: u64) -> u64
    requires { Room f aligned }
    ensures { (x : ℕ) → Made f aligned x → result ≤ size x }
{
    if mask::meets(mask::high(aligned.head, f + aligned.below), 0) {
        return 0;
    }
    if aligned.like {
        return f + (1 + aligned.below);
    }
    if small(aligned.tail, f, aligned.below) {
        return f + aligned.below;
    }
    0
}

// Whether they make a number of at least so many digits that serves.
fn some_from(
    format: Format,
    mode: u64,
    sign: u64,
    unit: Unit,
    aligned: Aligned,
    target: Target,
    first: u64,
) -> bool
    requires { InFormat format sign unit × Room format.f aligned × (target.dropped.g ≤ most_dropped) }
    ensures { Formed format.f aligned → ValidDropped target.dropped → (result ≡ true) ↔ Making format.f aligned (λ (x : ℕ). (first ≤ size x) × Serves format mode sign unit aligned target x) }
{
    let last = columns(aligned.like, aligned.below, format.f);
    for count in first..=last {
        if fits(format, mode, sign, unit, aligned, target, count) {
            return true;
        }
    }
    false
}

// Whether they make a number that serves.
fn some_count(
    format: Format,
    mode: u64,
    sign: u64,
    unit: Unit,
    aligned: Aligned,
    target: Target,
) -> bool
    requires { InFormat format sign unit × Room format.f aligned × (target.dropped.g ≤ most_dropped) }
    ensures { Formed format.f aligned → ValidDropped target.dropped → (result ≡ true) ↔ Admits format mode sign unit aligned target }
{
    let known = first_count(format, mode, sign, unit, aligned, target);
    match known {
        Known::Found => true,
        Known::AtLeast(first) => some_from(format, mode, sign, unit, aligned, target, first),
    }
}

// Whether two aligned significands that meet their masks make a word that meets c, with dropped bits as they are wanted, for the sign of the
// larger one and the exponent of its unit; false for a format that is not supported, a sign above 1, a unit that is too large and bits below
// that leave no room. Where the masks are not those of aligned significands, or that of the dropped bits is malformed, the answer is free: a
// caller forms them by crate significand, from masks that it has tested.
pub fn admits(
    format: Format,
    mode: u64,
    sign: u64,
    unit: Unit,
    aligned: Aligned,
    target: Target,
) -> bool
    ensures in_format { result ≡ true → InFormat format sign unit × Room format.f aligned }
    ensures exact { InFormat format sign unit → Formed format.f aligned → ValidDropped target.dropped → (result ≡ true) ↔ Admits format mode sign unit aligned target }
{
    if !format::supported(format) {
        return false;
    }
    if 1 < sign {
        return false;
    }
    if bits::power(format.w) <= unit.0 {
        return false;
    }
    if MOST_DROPPED < target.dropped.g {
        return false;
    }
    if !roomy(aligned.like, aligned.below, format.f) {
        return false;
    }
    some_count(format, mode, sign, unit, aligned, target)
}
