// The rounded sum in mode 0, held against the language's own addition: of f32 in single precision, of f64 in double.
ghost use Rattle.std.specs.Prelude.{◌≡◌, ◌%◌, ◌<◌, nat_lt};

use adder::result::rounded_result;
use bits::power;
use format::Format;
use std::fmt;
use word::pack::word_of;

// The precisions in which the language adds.
#[derive(Clone, Copy)]
pub enum Precision {
    Single,
    Double,
}

impl Precision {
    pub(crate) fn format(self) -> Format {
        match self {
            Precision::Single => Format { w: 8, f: 23 },
            Precision::Double => Format { w: 11, f: 52 },
        }
    }
}

impl fmt::Display for Precision {
    fn fmt<W: fmt::Write>(&self, f: &mut fmt::Formatter<W>) -> fmt::Result {
        f.write_str(match self {
            Precision::Single => "single",
            Precision::Double => "double",
        })
    }
}

// What a comparison found.
#[derive(Clone, Copy)]
pub enum Verdict {
    Equal,
    BothNan,
    Unlike,
}

// Whether a word is a NaN's: without its sign, whose weight is given, it lies above infinity's.
fn is_nan(x: u64, sign: u64, infinity: u64) -> bool
    requires { 0 < sign }
    ensures { result ≡ nat_lt infinity (x % sign) }
{
    infinity < x % sign
}

// The sum of the language's own, if it is no NaN, whose pattern is not fixed. A NaN's pattern is no float here, so it is told apart before.
fn single_sum(a: u32, b: u32) -> Option<u64> {
    if is_nan(u64::from(a), 0x80000000, 0x7F800000) {
        return None;
    }
    if is_nan(u64::from(b), 0x80000000, 0x7F800000) {
        return None;
    }
    let c = f32::from_bits(a) + f32::from_bits(b);
    if c == c {
        Some(u64::from(c.to_bits()))
    } else {
        None
    }
}

// The same of f64.
fn double_sum(a: u64, b: u64) -> Option<u64> {
    if is_nan(a, 0x8000000000000000, 0x7FF0000000000000) {
        return None;
    }
    if is_nan(b, 0x8000000000000000, 0x7FF0000000000000) {
        return None;
    }
    let c = f64::from_bits(a) + f64::from_bits(b);
    if c == c { Some(c.to_bits()) } else { None }
}

fn native_sum(precision: Precision, a: u64, b: u64) -> Option<u64> {
    match precision {
        Precision::Single => single_sum((a % 4294967296) as u32, (b % 4294967296) as u32),
        Precision::Double => double_sum(a, b),
    }
}

// The one NaN that the rounded result is: exponent all ones, top fraction bit 1.
fn nan(format: Format) -> u64 {
    word_of(
        format,
        0,
        power(format.w).saturating_sub(1),
        power(format.f.saturating_sub(1)),
    )
}

// Both sums of two words.
pub(crate) fn compared(precision: Precision, a: u64, b: u64) -> Verdict {
    let format = precision.format();
    let Ok(c) = rounded_result(format, 0, 0, a, b) else {
        return Verdict::Unlike;
    };
    match native_sum(precision, a, b) {
        Some(d) if c == d => Verdict::Equal,
        None if c == nan(format) => Verdict::BothNan,
        _ => Verdict::Unlike,
    }
}
