// How the words that meet a mask stand to bounds, and masks narrowed to what bounds leave of them.
#![tactic(auto)]

ghost use Rattle.std.specs.Prelude.{Some, ◌≡◌, ◌-◌, ◌%◌, ◌^◌, ◌≤◌, ◌<◌, max, min};
ghost use Rattle.std.specs.Int.Count.{count_leading_zeros};
ghost use Rattle.format.specs.Format.{Supported, word_bits};
ghost use Rattle.mask.specs.Mask.{WellFormed};
ghost use Rattle.bounds.specs.Bounds.{ValidEnds};
ghost use Rattle.job.specs.Job.{ValidWanted};
ghost use Rattle.narrowing.specs.Range.{range_of, extent_of, Decided, Shares};
ghost use Rattle.narrowing.specs.Narrowing.{Stands, Narrows};

use bits::{bit_at, power};
use bounds::{Ends, rank};
use format::{Format, supported};
use job::Wanted;
use mask::{Mask, free, join, low};
use significand::greatest;

// Of the words of one sign those whose other bits, read as a number, go from `low` on and stay below `past`.
#[derive(Clone, Copy)]
pub struct Range {
    pub low: u64,
    pub past: u64,
}

// How the words that meet a mask stand to bounds: all of them lie within, none does, or a free bit of the mask is named, and the value of
// it to be tried first.
#[derive(Clone, Copy)]
pub enum Standing {
    Inside,
    Outside,
    Across(u64, u64),
}

// Of the words that meet a mask with a fixed sign, by their bits below it: which numbers lie within the bounds, and the least and the
// greatest that meet the mask.
#[derive(Clone, Copy)]
pub struct Extent {
    pub within: Range,
    pub least: u64,
    pub most: u64,
}

// The words of a sign that lie between two ends.
fn range_of(format: Format, ends: Ends, sign: u64) -> Range
    requires { Supported format }
    ensures { result ≡ range_of format ends sign }
{
    let zero = power(format.w + format.f);
    let from = rank(format, ends.low);
    let to = rank(format, ends.high);
    if sign == 0 {
        return Range {
            low: from.saturating_sub(zero),
            past: to.saturating_sub(zero.saturating_sub(1)),
        };
    }
    Range {
        low: zero.saturating_sub(to),
        past: (zero + 1).saturating_sub(from),
    }
}

// The extent of a mask, whose sign is fixed, beside two ends.
fn extent_of(format: Format, mask: Mask, ends: Ends) -> Extent
    requires { Supported format }
    ensures { WellFormed (word_bits format) mask → result ≡ extent_of format mask ends }
{
    let place = format.w + format.f;
    let within = range_of(format, ends, bit_at(mask.value, place));
    let below = low(mask, place);
    let most = greatest(place, below);
    Extent {
        within,
        least: below.value,
        most,
    }
}

// The position of the highest 1; 0 where there is none.
fn highest(x: u64) -> u64
    ensures { result ≡ 63 - count_leading_zeros 64 x }
{
    63u64.saturating_sub(u64::leading_zeros(x) as u64)
}

// How the numbers that meet a mask stand to those within: with the highest free bit, and 1 for it where none is too large.
fn decided(extent: Extent) -> Standing
    ensures { Decided extent result }
{
    let within = extent.within;
    if within.past <= within.low {
        return Standing::Outside;
    }
    if within.past <= extent.least {
        return Standing::Outside;
    }
    if extent.most < within.low {
        return Standing::Outside;
    }
    let bit = highest(extent.most.saturating_sub(extent.least));
    if within.past <= extent.most {
        return Standing::Across(bit, 0);
    }
    if within.low <= extent.least {
        return Standing::Inside;
    }
    Standing::Across(bit, 1)
}

// How the words that meet a mask stand to two ends. Where the sign is free, it is named.
fn stands_between(format: Format, mask: Mask, ends: Ends) -> Standing
    requires { Supported format }
    ensures { WellFormed (word_bits format) mask → ValidEnds format ends → Stands format (record { mask = mask; bounds = Some ends }) result }
{
    let place = format.w + format.f;
    if free(mask, place) {
        return Standing::Across(place, 0);
    }
    decided(extent_of(format, mask, ends))
}

// How the words that meet the mask stand to the bounds. In a format that is not supported, and for a malformed mask or bounds, the answer is
// free: a job is tested once, where the generator is asked.
pub fn stands(format: Format, w: Wanted) -> Standing
    ensures { Supported format → ValidWanted format w → Stands format w result }
{
    if !supported(format) {
        return Standing::Outside;
    }
    match w.bounds {
        None => Standing::Inside,
        Some(ends) => stands_between(format, w.mask, ends),
    }
}

// x with its low k bits 0.
fn without_low(x: u64, k: u64) -> u64
    ensures { result ≡ x - x % 2 ^ k }
{
    x.saturating_sub(bits::low(x, k))
}

// The mask with those bits below `place` also fixed that all numbers from l to h share: the ones above the highest at which l and h differ.
fn shared(mask: Mask, place: u64, l: u64, h: u64) -> Mask
    ensures { place < 64 → l ≤ h → h < 2 ^ place → Shares place mask l h result }
{
    let apart = 64u64.saturating_sub(u64::leading_zeros(l ^ h) as u64);
    let alike = Mask {
        care: without_low(power(place).saturating_sub(1), apart),
        value: without_low(l, apart),
    };
    match join(mask, alike) {
        Ok(m) => m,
        Err(_) => mask,
    }
}

// The mask with those bits also fixed that all words between two ends share; as it is where the sign is free or no word lies there.
fn narrowed_between(format: Format, mask: Mask, ends: Ends) -> Mask
    requires { Supported format }
    ensures { WellFormed (word_bits format) mask → ValidEnds format ends → Narrows format (record { mask = mask; bounds = Some ends }) result }
{
    let place = format.w + format.f;
    if free(mask, place) {
        return mask;
    }
    let extent = extent_of(format, mask, ends);
    let l = extent.within.low.max(extent.least);
    let h = extent.within.past.saturating_sub(1).min(extent.most);
    if h < l {
        return mask;
    }
    shared(mask, place, l, h)
}

// The mask with those bits also fixed that all words within the bounds share. In a format that is not supported, and for a malformed mask or
// bounds, the answer is free.
pub fn narrowed(format: Format, w: Wanted) -> Mask
    ensures { Supported format → ValidWanted format w → Narrows format w result }
{
    if !supported(format) {
        return w.mask;
    }
    match w.bounds {
        None => w.mask,
        Some(ends) => narrowed_between(format, w.mask, ends),
    }
}
