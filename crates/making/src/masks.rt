// The masks that a question is made of.
ghost use Rattle.std.specs.Prelude.{◌↔◌, ◌≡◌, ℕ, ◌+◌, ◌%◌, ◌^◌, ◌≤◌, ◌<◌};
ghost use Rattle.mask.specs.Mask.{Meets, raised};
ghost use Rattle.making.specs.Question.{opposite, one_above};

use mask::Mask;

// The mask moved up by d places, where that loses no bit of it; else the answer is free.
pub fn raised(m: Mask, d: u64) -> Mask
    ensures { (k : ℕ) → k + d ≤ 64 → m.care < 2 ^ k → m.value < 2 ^ k → result ≡ raised d m }
{
    if 63 < d {
        return Mask { care: 0, value: 0 };
    }
    Mask {
        care: m.care << d,
        value: m.value << d,
    }
}

// The mask of the numbers that meet both masks; one that no number meets where they clash.
pub fn both(m: Mask, n: Mask) -> Mask
    ensures { (x : ℕ) → Meets x result ↔ (Meets x m × Meets x n) }
{
    match mask::join(m, n) {
        Ok(whole) => whole,
        Err(_) => Mask { care: 0, value: 1 },
    }
}

// The mask with each fixed bit turned over.
pub(crate) fn opposite(m: Mask) -> Mask
    ensures { result ≡ opposite m }
{
    Mask {
        care: m.care,
        value: m.care ^ m.value,
    }
}

// The mask of the numbers one above those that meet m, where m fixes the lowest bit to 0.
pub(crate) fn one_above(m: Mask) -> Mask
    ensures { m.value % 2 ≡ 0 → result ≡ one_above m }
{
    Mask {
        care: m.care,
        value: m.value | 1,
    }
}
