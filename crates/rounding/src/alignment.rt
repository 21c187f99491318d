// A significand aligned to a larger operand's unit, with its sticky bit.
ghost use Rattle.std.specs.Prelude.{◌≡◌};
ghost use Rattle.rounding.specs.Dropped.{sticky};
ghost use Rattle.rounding.specs.Sticky.{tail_at};
ghost use Rattle.rounding.specs.Width.{Short};

use crate::width::MASK_BITS;
use bits::{high, low, power};

// The sticky bit of what is dropped.
pub fn sticky(rest: u64) -> u64
    ensures { result ≡ sticky rest }
{
    if rest == 0 { 0 } else { 1 }
}

// A significand with `below` bits below it, moved down by `gap` places, where the lowest of these bits is the sticky bit; 0 for one that has
// no room for them.
pub fn aligned(significand: u64, gap: u64, below: u64) -> u64
    ensures { (Short below significand → result ≡ tail_at below significand gap) × ((Short below significand → ⊥) → result ≡ 0) }
{
    if below == 0 {
        return 0;
    }
    if MASK_BITS <= below {
        return 0;
    }
    if power(MASK_BITS - below) <= significand {
        return 0;
    }
    let guarded = significand << (below - 1);
    high(guarded, gap) * 2 + sticky(low(guarded, gap))
}
