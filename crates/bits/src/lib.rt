// Single bits, low parts and quotients of a 64-bit word, for any position.
#![tactic(auto)]

ghost use Rattle.std.specs.Prelude.{◌≡◌, ◌/◌, ◌%◌, ◌^◌};
ghost use Rattle.bits.specs.Bit.{bit};

// Bit i of x; 0 from position 64 on.
pub fn bit_at(x: u64, i: u64) -> u64
    ensures { result ≡ bit x i }
{
    if i < 64 { (x >> i) % 2 } else { 0 }
}

// 2^k, as far as a word holds it.
pub fn power(k: u64) -> u64
    ensures { result ≡ 2 ^ k % 2 ^ 64 }
{
    if k < 64 { 1 << k } else { 0 }
}

// x without its low k bits.
pub fn high(x: u64, k: u64) -> u64
    ensures { result ≡ x / 2 ^ k }
{
    if k < 64 { x >> k } else { 0 }
}

// The low k bits of x.
pub fn low(x: u64, k: u64) -> u64
    ensures { result ≡ x % 2 ^ k }
{
    if k < 64 { x % (1 << k) } else { x }
}
