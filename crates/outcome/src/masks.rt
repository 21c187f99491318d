// The masks of numbers by their digits, and of low bits that are 0.
ghost use Rattle.std.specs.Prelude.{true, ◌≡◌, ℕ, ◌+◌, ◌%◌, ◌^◌, ◌≤◌, ◌<◌};
ghost use Rattle.mask.specs.Mask.{Meets};
ghost use Rattle.outcome.specs.Question.{topped, OfDigits, UnderPower};

use mask::Mask;

// The mask m on the low k bits, and the number h on r bits above them.
pub(crate) fn topped(r: u64, k: u64, h: u64, m: Mask) -> Mask
    requires { (r + k < 64) × (h < 2 ^ r) × (m.care < 2 ^ k) × (m.value < 2 ^ k) }
    ensures { result ≡ topped r k h m }
{
    Mask {
        care: (((1 << r) - 1) << k) + m.care,
        value: (h << k) + m.value,
    }
}

// The mask of the numbers of n bits that have so many binary digits.
pub(crate) fn digits(n: u64, count: u64) -> Mask
    requires { (n < 64) × (count ≤ n) }
    ensures { OfDigits n count result }
{
    if count == 0 {
        return Mask {
            care: (1 << n) - 1,
            value: 0,
        };
    }
    let low = Mask { care: 0, value: 0 };
    topped(n + 1 - count, count - 1, 1, low)
}

// The mask of the numbers of n bits that are below 2^k.
pub(crate) fn under_power(n: u64, k: u64) -> Mask
    requires { (n < 64) × (k ≤ n) }
    ensures { UnderPower n k result }
{
    let low = Mask { care: 0, value: 0 };
    topped(n - k, k, 0, low)
}

// Whether the mask fixes the low j bits to 0.
pub(crate) fn zeros(m: Mask, j: u64) -> bool
    requires { j < 64 }
    ensures { result ≡ true → (n : ℕ) → Meets n m → n % 2 ^ j ≡ 0 }
{
    let low = mask::low(m, j);
    if low.value != 0 {
        return false;
    }
    low.care == (1 << j) - 1
}
