// Pairs of words of a format from a fixed generator, by classes in which adders go wrong.
use bits::{low, power};
use format::Format;
use std::fmt;
use word::pack::{signed, word_of};

// The words of a pair.
#[derive(Clone, Copy)]
pub struct Pair {
    pub a: u64,
    pub b: u64,
}

// Three numbers of the generator: one for the bits of each word, and the last for what the words have in common.
#[derive(Clone, Copy)]
pub struct Draw {
    pub a: u64,
    pub b: u64,
    pub common: u64,
}

// The fixed generator: Marsaglia's 64-bit xorshift, with the shifts 13, 7 and 17. Its state is the last number.
#[derive(Drop)]
pub struct Generator {
    state: u64,
}

impl Generator {
    pub(crate) fn new(state: u64) -> Generator {
        Generator { state }
    }

    // The next number.
    fn number(&mut self) -> u64 {
        self.state ^= self.state << 13;
        self.state ^= self.state >> 7;
        self.state ^= self.state << 17;
        self.state
    }

    // The next three.
    pub(crate) fn draw(&mut self) -> Draw {
        Draw {
            a: self.number(),
            b: self.number(),
            common: self.number(),
        }
    }
}

// The classes, each of which `Display` names.
#[derive(Clone, Copy)]
pub enum Class {
    Any,
    Near,
    Far,
    Tied,
    Cancelled,
    Small,
    Large,
    Special,
}

impl Class {
    pub const ALL: [Class; 8] = [
        Class::Any,
        Class::Near,
        Class::Far,
        Class::Tied,
        Class::Cancelled,
        Class::Small,
        Class::Large,
        Class::Special,
    ];

    // The pair that a draw gives.
    pub(crate) fn pair(self, format: Format, draw: Draw) -> Pair {
        match self {
            Class::Any => any(format, draw),
            Class::Near => apart(format, draw, 0),
            Class::Far => apart(format, draw, format.f.saturating_sub(3)),
            Class::Tied => tied(format, draw),
            Class::Cancelled => cancelled(format, draw),
            Class::Small => small(format, draw),
            Class::Large => large(format, draw),
            Class::Special => special(format, draw),
        }
    }
}

impl fmt::Display for Class {
    fn fmt<W: fmt::Write>(&self, f: &mut fmt::Formatter<W>) -> fmt::Result {
        f.write_str(match self {
            Class::Any => "any words",
            Class::Near => "exponents 0 to 7 apart",
            Class::Far => "exponents p - 4 to p + 3 apart",
            Class::Tied => "ties and near ties",
            Class::Cancelled => "cancellations",
            Class::Small => "subnormal and least normal",
            Class::Large => "largest and overflowing",
            Class::Special => "zeros, infinities and NaNs",
        })
    }
}

// A word of a sign, an exponent field and a fraction, each taken from the low bits of a number.
fn word(format: Format, sign: u64, exponent: u64, fraction: u64) -> u64 {
    word_of(
        format,
        sign % 2,
        low(exponent, format.w),
        low(fraction, format.f),
    )
}

// The word of an exponent field whose sign and fraction are the top bit and the low bits of a number.
fn drawn(format: Format, bits: u64, exponent: u64) -> u64 {
    word(format, bits >> 63, exponent, bits)
}

// Words with any bits.
fn any(format: Format, draw: Draw) -> Pair {
    Pair {
        a: drawn(format, draw.a, draw.a >> 52),
        b: drawn(format, draw.b, draw.b >> 52),
    }
}

// An exponent field from the middle half of all, which leaves room on either side.
fn middle(format: Format, chance: u64) -> u64 {
    power(format.w.saturating_sub(1 + chance % 2)) | low(chance >> 1, format.w.saturating_sub(2))
}

// Exponents that differ by `least` to `least + 7`, a's the larger.
fn apart(format: Format, draw: Draw, least: u64) -> Pair {
    let exponent = middle(format, draw.common >> 8);
    let highest = exponent.saturating_sub(least);
    Pair {
        a: drawn(format, draw.a, exponent),
        b: drawn(format, draw.b, highest.saturating_sub(draw.common % 8)),
    }
}

// A fraction, one time in four within 4 of a power of two on either side, where rounding and borrowing change the exponent: of a number below 0
// a word takes the low bits, which end in ones.
fn edged(chance: u64, fraction: u64) -> u64 {
    if chance % 4 == 0 {
        (fraction % 8).wrapping_sub(4)
    } else {
        fraction
    }
}

// An operand with a fraction of two bits, and perhaps the lowest one, that ends at the last place of the other or just below it: ties, and
// sums just off a tie.
fn tied(format: Format, draw: Draw) -> Pair {
    let exponent = middle(format, draw.common >> 8);
    let last_place = exponent.saturating_sub(format.f.saturating_sub(1));
    let two_bits = power(format.f.saturating_sub(1)) | power(format.f.saturating_sub(2));
    Pair {
        a: word(
            format,
            draw.a >> 63,
            exponent,
            edged(draw.common >> 2, draw.a),
        ),
        b: word(
            format,
            draw.b >> 63,
            last_place.saturating_sub(draw.common % 4),
            draw.b & (two_bits | 1),
        ),
    }
}

// Unlike signs, and magnitudes that differ by 7 at most in their words. The exponent field is one below a drawn one, so never all ones.
fn cancelled(format: Format, draw: Draw) -> Pair {
    let exponent = low(draw.a >> 52, format.w).saturating_sub(1);
    let magnitude = word(format, 0, exponent, draw.a);
    Pair {
        a: signed(format, draw.a >> 63, magnitude),
        b: signed(
            format,
            1 - (draw.a >> 63),
            magnitude.saturating_sub(draw.common % 8),
        ),
    }
}

// Exponent fields 0 to 3.
fn small(format: Format, draw: Draw) -> Pair {
    Pair {
        a: drawn(format, draw.a, draw.common % 4),
        b: drawn(format, draw.b, (draw.common >> 2) % 4),
    }
}

// One of the last four exponent fields below all ones.
fn last_fields(format: Format, chance: u64) -> u64 {
    power(format.w).saturating_sub(2 + chance % 4)
}

// The last four exponent fields, and mostly like signs.
fn large(format: Format, draw: Draw) -> Pair {
    let unlike = (draw.common >> 4) % 8 / 7;
    Pair {
        a: drawn(format, draw.a, last_fields(format, draw.common)),
        b: word(
            format,
            (draw.a >> 63) ^ unlike,
            last_fields(format, draw.common >> 2),
            draw.b,
        ),
    }
}

// Exponent field 0, 1 or, as one below 0, all ones.
fn end_fields(chance: u64) -> u64 {
    (chance % 2).wrapping_sub((chance >> 1) % 2)
}

// The number one time in four, else 0.
fn sometimes(chance: u64, x: u64) -> u64 {
    if chance % 4 == 0 { x } else { 0 }
}

// The first two exponent fields and the last, and mostly fractions of 0: zeros, infinities, NaNs.
fn special(format: Format, draw: Draw) -> Pair {
    Pair {
        a: word(
            format,
            draw.a >> 63,
            end_fields(draw.common),
            sometimes(draw.common >> 2, draw.a),
        ),
        b: word(
            format,
            draw.b >> 63,
            end_fields(draw.common >> 4),
            sometimes(draw.common >> 6, draw.b),
        ),
    }
}
