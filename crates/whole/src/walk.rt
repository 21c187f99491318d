// The bits of one number, fixed from the top: each follows the random word where that leaves a case.
ghost use Rattle.std.specs.Prelude.{◌≡◌, ◌≤◌, ◌<◌};
ghost use Rattle.steps.specs.Steps.{Leads};
ghost use Rattle.whole.specs.Role.{mask_of, with_mask};
ghost use Rattle.whole.specs.Walk.{OpenBits, OpenState, NextState, WalkEnd};

use super::left::left;
use super::{Masks, Role};
use mask::{Mask, fix, free};

// The mask of a number.
fn mask_of(s: Masks, role: Role) -> Mask
    ensures { result ≡ mask_of role s }
{
    match role {
        Role::X => s.x,
        Role::Y => s.y,
        Role::Z => s.z,
    }
}

// The masks with that of one number replaced.
fn with_mask(s: Masks, role: Role, m: Mask) -> Masks
    ensures { result ≡ with_mask role s m }
{
    let x = s.x;
    let y = s.y;
    let z = s.z;
    let carries = s.carries;
    match role {
        Role::X => Masks {
            x: m,
            y,
            z,
            carries,
        },
        Role::Y => Masks {
            x,
            y: m,
            z,
            carries,
        },
        Role::Z => Masks {
            x,
            y,
            z: m,
            carries,
        },
    }
}

// What is handed on from one bit position to the next: the mask of the number with the bits chosen so far, and how many bits are open.
#[derive(Clone, Copy)]
pub struct State {
    pub mask: Mask,
    pub open_bits: u64,
}

// The state with its highest open bit chosen: where it is free, it follows the random word, or is the other where no case would be left.
fn follow_bit(n: u64, s: Masks, role: Role, word: u64, state: State) -> State
    requires { OpenState n s role state × (0 < state.open_bits) }
    ensures { NextState n s role word state result }
{
    let mask = state.mask;
    let k = state.open_bits - 1;
    if !free(mask, k) {
        return State { mask, open_bits: k };
    }
    let v = bits::bit_at(word, k);
    let tried = fix(mask, k, v);
    if left(n, with_mask(s, role, tried)) {
        return State {
            mask: tried,
            open_bits: k,
        };
    }
    State {
        mask: fix(mask, k, 1 - v),
        open_bits: k,
    }
}

// The state with the next `count` of its open bits chosen, one at each call.
fn follow_bits(n: u64, s: Masks, role: Role, word: u64, state: State, count: u64) -> State
    requires { OpenState n s role state × (count ≤ state.open_bits) }
    ensures { Leads State (NextState n s role word) count state result }
{
    if count == 0 {
        return state;
    }
    let next = follow_bit(n, s, role, word, state);
    follow_bits(n, s, role, word, next, count - 1)
}

// The masks with one number fixed to its closest value, where its bits from position `open_bits` on are fixed.
pub(crate) fn follow(n: u64, s: Masks, role: Role, word: u64, open_bits: u64) -> Masks
    requires { OpenBits n s role open_bits }
    ensures { WalkEnd n s role word result }
{
    let start = State {
        mask: mask_of(s, role),
        open_bits,
    };
    let end = follow_bits(n, s, role, word, start, open_bits);
    with_mask(s, role, end.mask)
}
