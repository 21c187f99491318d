// Questions about what two aligned significands make, put to the chain of two adders.
ghost use Rattle.std.specs.Prelude.{true, ◌↔◌, ◌≡◌, ℕ, ◌+◌, ◌-◌, ◌<◌};
ghost use Rattle.bits.specs.Bit.{bit};
ghost use Rattle.mask.specs.Mask.{Meets};
ghost use Rattle.rounding.specs.Rounding.{round_off};
ghost use Rattle.rounding.specs.Sticky.{kept_part};
ghost use Rattle.chain.specs.Chain.{Answered};
ghost use Rattle.making.specs.Making.{columns_of, Room, Formed, Making, Askable};
ghost use Rattle.making.specs.Question.{Added};

use crate::masks::{both, one_above, opposite, raised};
use crate::{Aligned, columns, roomy};
use chain::Wires;
use mask::Mask;
use rounding::Direction;
use rounding::addend::{carry, constant};
use word::Unit;

// The wires that ask whether they make a number that meets z, where the row is reversed. With T + 1 in T's place the first adder gives one
// less than they make, and its borrows are the other ones of the row's; the second adder adds the one again.
fn reversed_wires(aligned: Aligned, z: Mask) -> Wires
    requires { aligned.below < 63 }
    ensures { (f : ℕ) → aligned.reversed ≡ true → Formed f aligned → Answered result (columns_of f aligned) ↔ Making f aligned (λ (n : ℕ). Meets n z) }
{
    let head = aligned.head;
    let tail = one_above(aligned.tail);
    let carries = raised(opposite(aligned.carries), 1 + aligned.below);
    Wires {
        subtract: true,
        l: head,
        t: tail,
        x: Mask { care: 0, value: 0 },
        z,
        carries,
        constant: 0,
        carry: 1,
    }
}

// The wires that ask whether they make a number that meets x and, with a constant and a carry added, z; where the row is reversed nothing
// is added. The carry out of bit i of the larger significand is the one into column i + 1 above the bits below it.
fn wires_of(aligned: Aligned, x: Mask, z: Mask, constant: u64, carry: u64) -> Wires
    requires { (aligned.below < 63) × (carry < 2) }
    ensures { (f : ℕ) → Formed f aligned → (aligned.reversed ≡ true → constant + carry ≡ 0) → Answered result (columns_of f aligned) ↔ Making f aligned (Added f aligned x z constant carry) }
{
    if aligned.reversed {
        return reversed_wires(aligned, both(x, z));
    }
    let head = aligned.head;
    let tail = aligned.tail;
    let carries = raised(aligned.carries, 1 + aligned.below);
    Wires {
        subtract: !aligned.like,
        l: head,
        t: tail,
        x,
        z,
        carries,
        constant,
        carry,
    }
}

// Whether they make a number that meets x and, with a constant and a carry added, z; where the row is reversed nothing is added.
fn ask(aligned: Aligned, f: u64, x: Mask, z: Mask, constant: u64, carry: u64) -> bool
    requires { Room f aligned × (carry < 2) }
    ensures { Formed f aligned → (aligned.reversed ≡ true → constant + carry ≡ 0) → (result ≡ true) ↔ Making f aligned (Added f aligned x z constant carry) }
{
    let wires = wires_of(aligned, x, z, constant, carry);
    chain::possible(wires, columns(aligned.like, aligned.below, f))
}

// The same for a number whose bit j, the last one kept, is `last`.
fn ask_last(
    aligned: Aligned,
    f: u64,
    x: Mask,
    z: Mask,
    j: u64,
    last: u64,
    constant: u64,
    carry: u64,
) -> bool
    requires { Room f aligned × (j < 64) × (last < 2) × (carry < 2) }
    ensures { Formed f aligned → (aligned.reversed ≡ true → constant + carry ≡ 0) → (result ≡ true) ↔ Making f aligned (λ (n : ℕ). (bit n j ≡ last) × Added f aligned x z constant carry n) }
{
    let kept = Mask {
        care: 1 << j,
        value: last << j,
    };
    match mask::join(x, kept) {
        Ok(m) => ask(aligned, f, m, z, constant, carry),
        Err(_) => false,
    }
}

// Whether they make a number that meets x and, with j bits rounded off, y. Rounding off adds a constant and a carry; where the carry depends
// on the last kept bit, a question is put for each value of that.
fn rounds(aligned: Aligned, f: u64, direction: Direction, j: u64, x: Mask, y: Mask) -> bool
    requires { Room f aligned × (j < 64) }
    ensures { Formed f aligned → Askable f aligned direction j x y → (result ≡ true) ↔ Making f aligned (λ (n : ℕ). Meets n x × Meets (round_off direction n j) y) }
{
    let z = raised(y, j);
    let added = constant(direction, j);
    let even = carry(direction, j, 0);
    let odd = carry(direction, j, 1);
    if even == odd {
        return ask(aligned, f, x, z, added, even);
    }
    if ask_last(aligned, f, x, z, j, 0, added, even) {
        return true;
    }
    ask_last(aligned, f, x, z, j, 1, added, odd)
}

// Whether they make a number that meets x and, rounded to the unit `rounded`, keeps a part that meets `kept`. That mask is moved down by the
// zeros that are added, which must fit it, and up by the bits that are rounded off: `over` and `under` tell how far `rounded` is above or
// below `unit`. Where the masks are not those of aligned significands, or the question cannot be put, the answer is free.
pub fn rounds_at(
    aligned: Aligned,
    f: u64,
    direction: Direction,
    unit: Unit,
    rounded: Unit,
    x: Mask,
    kept: Mask,
) -> bool
    ensures { Formed f aligned → Askable f aligned direction (rounded.0 + aligned.below - unit.0) x kept
        → (result ≡ true) ↔ Making f aligned (λ (n : ℕ). Meets n x × Meets (kept_part aligned.below direction n unit.0 rounded.0) kept) }
{
    let under = unit.0.saturating_sub(rounded.0);
    let up = under.saturating_sub(aligned.below);
    if bits::low(kept.value, up) != 0 {
        return false;
    }
    if !roomy(aligned.like, aligned.below, f) {
        return false;
    }
    let over = rounded.0.saturating_sub(unit.0);
    if 1 < over {
        return false;
    }
    let down = (aligned.below + over).saturating_sub(under);
    rounds(aligned, f, direction, down, x, mask::high(kept, up))
}
