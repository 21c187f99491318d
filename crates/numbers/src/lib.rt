// Numbers as bytes, low byte first, of any count up to the eight of a u64: read from bytes, and put into a buffer.
#![tactic(auto)]

ghost use Rattle.std.specs.Prelude.{◌≡◌, ◌+◌, ◌≤◌, length, take, drop};
ghost use Rattle.numbers.specs.Number.{little_endian, number, number_within, put, put_within};

// The bytes of a u64.
const MOST_BYTES: usize = 8;

// A byte as a number.
pub fn wide(byte: u8) -> u64
    ensures { result ≡ byte }
{
    u64::from(byte)
}

// The number of the k bytes from `at` on; 0 where there is none.
fn number_at(s: &[u8], at: usize, k: usize) -> u64
    requires { (k ≤ 8) × (at + k ≤ length s.now) }
    ensures { result ≡ number (take k (drop at s.now)) }
{
    let mut n = 0;
    for i in (0..k).rev() {
        n = n * 256 + wide(s[at + i]);
    }
    n
}

// The number of the k bytes from `at` on where these are bytes of s and no more than a u64 has, else 0.
pub fn number_within(s: &[u8], at: usize, k: usize) -> u64
    ensures { result ≡ number_within s.now at k }
{
    if MOST_BYTES < k {
        return 0;
    }
    if at <= s.len() {
        if k <= s.len() - at {
            return number_at(s, at, k);
        }
    }
    0
}

// Puts k bytes of x from `at` on.
fn put_number(buffer: &mut [u8], at: usize, k: usize, x: u64)
    requires { at + k ≤ length buffer.old }
    ensures { buffer.new ≡ put buffer.old at (little_endian k x) }
{
    let mut left = x;
    for byte in buffer[at..at + k].iter_mut() {
        *byte = (left % 256) as u8;
        left /= 256;
    }
}

// Puts k bytes of x from `at` on where the buffer has room for them, else nothing.
pub fn put_within(buffer: &mut [u8], at: usize, k: usize, x: u64)
    ensures { buffer.new ≡ put_within buffer.old at (little_endian k x) }
{
    if at <= buffer.len() {
        if k <= buffer.len() - at {
            put_number(buffer, at, k, x);
        }
    }
}
