// The words of a format that the vectors are made of.
use format::Format;

// A format, and the hexadecimal digits of its words.
#[derive(Clone, Copy)]
pub struct Sized {
    pub format: Format,
    pub digits: usize,
}

#[derive(Clone, Copy)]
pub struct Words {
    pub sized: Sized,
    // the sign bit alone, -0
    pub sign: u64,
    // the least normal number
    pub normal: u64,
    // a quarter and a half of the last place of 1
    pub quarter: u64,
    pub half: u64,
    pub unity: u64,
    pub two: u64,
    // half of the last place of the largest finite number
    pub half_of_largest: u64,
    pub infinity: u64,
    pub nan: u64,
}

// The eight-bit format of source document 000.
pub const EIGHT: Sized = Sized {
    format: Format { w: 3, f: 4 },
    digits: 2,
};

// Single precision: words of 32 bits.
pub const SINGLE: Words = Words {
    sized: Sized {
        format: Format { w: 8, f: 23 },
        digits: 8,
    },
    sign: 0x80000000,
    normal: 0x00800000,
    quarter: 0x33000000,
    half: 0x33800000,
    unity: 0x3F800000,
    two: 0x40000000,
    half_of_largest: 0x73000000,
    infinity: 0x7F800000,
    nan: 0x7FC00000,
};

// One fraction bit more: words of 33 bits, the first that need eight bytes.
pub const WIDER: Words = Words {
    sized: Sized {
        format: Format { w: 8, f: 24 },
        digits: 16,
    },
    sign: 0x100000000,
    normal: 0x01000000,
    quarter: 0x65000000,
    half: 0x66000000,
    unity: 0x7F000000,
    two: 0x80000000,
    half_of_largest: 0xE5000000,
    infinity: 0xFF000000,
    nan: 0xFF800000,
};

// Double precision: words of 64 bits.
pub const DOUBLE: Words = Words {
    sized: Sized {
        format: Format { w: 11, f: 52 },
        digits: 16,
    },
    sign: 0x8000000000000000,
    normal: 0x0010000000000000,
    quarter: 0x3C90000000000000,
    half: 0x3CA0000000000000,
    unity: 0x3FF0000000000000,
    two: 0x4000000000000000,
    half_of_largest: 0x7C90000000000000,
    infinity: 0x7FF0000000000000,
    nan: 0x7FF8000000000000,
};

// The words before and after x, of a sign.
pub(crate) fn before(x: u64) -> u64 {
    x.wrapping_sub(1)
}

pub(crate) fn after(x: u64) -> u64 {
    x.wrapping_add(1)
}
