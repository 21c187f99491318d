// Two adders in a chain with a mask on every wire: x = l + t, or l - t, and z = x + constant + carry.
#![tactic(auto)]

use mask::Mask;

mod walk;
pub mod ways;

ghost use Rattle.std.specs.Prelude.{◌≡◌, true, ◌↔◌, ◌<◌};
ghost use Rattle.chain.specs.Chain.{Answered};
ghost use Rattle.chain.specs.Walk.{served_of};

#[derive(Clone, Copy)]
pub struct Wires {
    pub subtract: bool,
    pub l: Mask,
    pub t: Mask,
    pub x: Mask,
    pub z: Mask,
    pub carries: Mask,
    pub constant: u64,
    pub carry: u64,
}

// Whether no mask of a number and no constant reaches above n bits, and the carry is a bit.
fn served(w: Wires, n: u64) -> bool
    requires { n < 64 }
    ensures { result ≡ served_of w n }
{
    let end = 1 << n;
    (w.l.value < end)
        & (w.t.value < end)
        & (w.x.value < end)
        & (w.z.value < end)
        & (w.constant < end)
        & (w.carry < 2)
}

// Whether there are numbers l and t of n bits that meet every mask; false for 64 bits or more, and for a carry that is no bit.
pub fn possible(wires: Wires, n: u64) -> bool
    ensures { (result ≡ true) ↔ Answered wires n }
{
    if 64 <= n {
        return false;
    }
    if served(wires, n) & columns::allows(wires.carries.care, wires.carries.value, 0, 0) {
        return bits::bit_at(walk::walk(wires, n, 1 << (2 * wires.carry)), 0) == 1;
    }
    false
}
