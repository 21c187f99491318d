// Bounds on a word, compared as numbers.
#![tactic(auto)]

ghost use Rattle.std.specs.Prelude.{◌≡◌, Some};
ghost use Rattle.format.specs.Format.{Supported};
ghost use Rattle.bounds.specs.Bounds.{is_nan, rank, within, ordered_ends, ends_cause, bounds_cause};

use bits::{bit_at, low, power};
use format::{Cause, Format, supported, unless, word_cause};
use word::pack::infinity_word;

// The ends of an interval of words, both included.
#[derive(Clone, Copy)]
pub struct Ends {
    pub low: u64,
    pub high: u64,
}

// The rank of a word among the numbers; 0 in a format that is not supported.
pub fn rank(format: Format, x: u64) -> u64
    ensures { (Supported format → result ≡ rank format x) × ((Supported format → ⊥) → result ≡ 0) }
{
    if !supported(format) {
        return 0;
    }
    let place = format.w + format.f;
    if bit_at(x, place) == 0 {
        power(place) + low(x, place)
    } else {
        power(place) - low(x, place)
    }
}

// Whether a word is a NaN.
fn is_nan(format: Format, x: u64) -> bool
    requires { Supported format }
    ensures { result ≡ is_nan format x }
{
    infinity_word(format) < low(x, format.w + format.f)
}

// Whether a word lies between two ends.
fn lies_between(format: Format, ends: Ends, x: u64) -> bool
    requires { Supported format }
    ensures { result ≡ within format x (Some ends) }
{
    let at = rank(format, x);
    !is_nan(format, x) & ((rank(format, ends.low) <= at) & (at <= rank(format, ends.high)))
}

// Whether a word lies within its bounds, if any are stated: no pair of ends says that there are none, for even the two infinities shut NaNs
// out. In a format that is not supported the answer is free.
pub fn within(format: Format, bounds: Option<Ends>, x: u64) -> bool
    ensures { Supported format → result ≡ within format x bounds }
{
    if !supported(format) {
        return false;
    }
    match bounds {
        None => true,
        Some(ends) => lies_between(format, ends, x),
    }
}

// 6 where an end has a bit above the word's. In a format that is not supported the answer is free.
#[tactic(auto, unfolding(crate::specs::Bounds::ends_cause))]
pub fn ends_cause(format: Format, bounds: Option<Ends>) -> Result<(), Cause>
    ensures { Supported format → result ≡ ends_cause format bounds }
{
    if !supported(format) {
        return Ok(());
    }
    let Some(ends) = bounds else {
        return Ok(());
    };
    let width = format.w + format.f + 1;
    word_cause(width, ends.low)?;
    word_cause(width, ends.high)
}

// Whether both ends are numbers, and the low one does not exceed the high one.
fn ordered_ends(format: Format, ends: Ends) -> bool
    requires { Supported format }
    ensures { result ≡ ordered_ends format ends }
{
    !is_nan(format, ends.low)
        & (!is_nan(format, ends.high) & (rank(format, ends.low) <= rank(format, ends.high)))
}

// 18 where an end is a NaN or the low one exceeds the high one. In a format that is not supported the answer is free.
#[tactic(auto, unfolding(crate::specs::Bounds::bounds_cause))]
pub fn bounds_cause(format: Format, bounds: Option<Ends>) -> Result<(), Cause>
    ensures { Supported format → result ≡ bounds_cause format bounds }
{
    if !supported(format) {
        return Ok(());
    }
    match bounds {
        None => Ok(()),
        Some(ends) => unless(ordered_ends(format, ends), Cause::Bounds),
    }
}
