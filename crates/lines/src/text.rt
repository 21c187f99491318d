// A line of text, put together from the left.
ghost use Rattle.std.specs.Prelude.{◌≡◌, [], ◌∷◌, ◌+◌, ◌≤◌, ◌<◌, length};
ghost use Rattle.lines.specs.Text.{Empty, Room, Grown, glyph, digits, places, decimal, word_digits, word};

use format::Format;
use layout::word_bytes;

// The first `len` of the bytes.
#[derive(Clone, Copy)]
pub struct Line {
    pub bytes: [u8; 128],
    pub len: usize,
}

pub(crate) fn empty() -> Line
    ensures { Empty result }
{
    Line {
        bytes: [0; 128],
        len: 0,
    }
}

pub(crate) fn with_byte(line: Line, b: u8) -> Line
    requires { Room line 1 }
    ensures { Grown line result (b ∷ []) }
{
    let at = line.len;
    let mut next = line;
    next.bytes[at] = b;
    next.len = at + 1;
    next
}

pub(crate) fn with_text(line: Line, text: &[u8]) -> Line
    requires { Room line (length text.now) }
    ensures { Grown line result text.now }
{
    let mut next = line;
    for &b in text {
        next = with_byte(next, b);
    }
    next
}

// The ASCII code of a digit below 16.
fn glyph(d: u64) -> u8
    requires { d < 16 }
    ensures { result ≡ glyph d }
{
    if d < 10 {
        b'0' + d as u8
    } else {
        b'a' - 10 + d as u8
    }
}

// With the last k digits of n, the most significant first.
fn with_digits(line: Line, base: u64, k: u64, n: u64) -> Line
    requires { (1 < base) × (base ≤ 16) × Room line k }
    ensures { Grown line result (digits base k n) }
{
    if k == 0 {
        return line;
    }
    let upper = with_digits(line, base, k - 1, n / base);
    with_byte(upper, glyph(n % base))
}

// How many decimal digits n has.
fn places(n: u64) -> u64
    ensures { result ≡ places n n }
{
    if n < 10 {
        return 1;
    }
    places(n / 10) + 1
}

pub(crate) fn with_decimal(line: Line, n: u64) -> Line
    requires { Room line 20 }
    ensures { Grown line result (decimal n) × (result.len ≤ line.len + 20) }
{
    with_digits(line, 10, places(n), n)
}

// How many hexadecimal digits a word of a job's format has: two for each byte.
pub(crate) fn word_digits(format: Format) -> u64
    ensures { (result ≡ word_digits format) × (result ≤ 16) }
{
    2 * (word_bytes(format) as u64)
}

// With a space and a word of k hexadecimal digits.
pub(crate) fn with_word(line: Line, k: u64, x: u64) -> Line
    requires { (k ≤ 16) × Room line 17 }
    ensures { Grown line result (word k x) }
{
    with_digits(with_byte(line, b' '), 16, k, x)
}
