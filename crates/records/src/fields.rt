// The numbers of a record, one after the other, each of its own byte count.
ghost use Rattle.std.specs.Prelude.{◌≡◌, ℕ, ◌+◌, ◌≤◌, ◌<◌, ◌^◌, length, get_or};
ghost use Rattle.numbers.specs.Number.{put};
ghost use Rattle.numbers.specs.Numbers.{total, numbers, number_bytes};

use numbers::{number_within, put_within};

// How many bytes numbers of these byte counts have together.
pub(crate) fn total(sizes: &[usize]) -> usize
    requires { total sizes.now < 2 ^ 64 }
    ensures { result ≡ total sizes.now }
{
    sizes.iter().sum()
}

// Reads numbers of these byte counts, one after the other.
pub(crate) fn read_numbers(s: &[u8], sizes: &[usize], into: &mut [u64])
    requires { (total sizes.now ≤ length s.now) × (length into.old ≡ length sizes.now) × ((i : ℕ) → get_or sizes.now i 0 ≤ 8) }
    ensures { into.new ≡ numbers sizes.now s.now }
{
    let mut at: usize = 0;
    for (i, &k) in sizes.iter().enumerate() {
        into[i] = number_within(s, at, k);
        at += k;
    }
}

// Puts numbers of these byte counts from `at` on, one after the other.
pub(crate) fn put_numbers(buffer: &mut [u8], at: usize, sizes: &[usize], numbers: &[u64])
    requires { (at + total sizes.now ≤ length buffer.old) × (length numbers.now ≡ length sizes.now) }
    ensures { buffer.new ≡ put buffer.old at (number_bytes sizes.now numbers.now) }
{
    let mut next = at;
    for (&k, &number) in sizes.iter().zip(numbers) {
        put_within(buffer, next, k, number);
        next += k;
    }
}
