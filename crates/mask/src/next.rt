// The next number that meets a mask.
ghost use Rattle.std.specs.Prelude.{◌^◌, ◌≤◌, ◌<◌};
ghost use Rattle.mask.specs.Mask.{WellFormed, Meets};
ghost use Rattle.mask.specs.Next.{MetFrom, StepAt};

use super::{Mask, meets, well_formed};

// The position from which on n, which does not meet the mask, gets one more: the highest at which it breaks the mask, if the mask has a 1 there;
// else the next above that is free and at which n has a 0.
fn step_at(m: Mask, n: u64) -> u64
    requires { WellFormed 63 m × (n < 2 ^ 63) × (Meets n m → ⊥) }
    ensures { (result < 64) × StepAt m n result }
{
    let top = (63 - u64::leading_zeros((n & m.care) ^ m.value)) as u64;
    if bits::bit_at(m.value, top) == 1 {
        return top;
    }
    let above = bits::high(n | m.care, top);
    top + u64::trailing_zeros(above + 1) as u64
}

// The first number from n on, of those of so many bits, that meets the mask; a number past them all where there is none. For a malformed
// mask, and for 64 bits or more, the answer is free but not below n.
pub fn met_from(width: u64, m: Mask, n: u64) -> u64
    ensures { (n ≤ result) × (width < 64 → WellFormed width m → MetFrom width m n result) }
{
    if meets(m, n) {
        return n;
    }
    if (width < 64) & well_formed(width, m) & (bits::high(n, width) == 0) {
        let at = step_at(m, n);
        return ((bits::high(n, at) + 1) << at) | bits::low(m.value, at);
    }
    n
}
