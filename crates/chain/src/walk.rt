// The walk over the columns, lowest first, with the set of the states that the columns passed can lead to.
ghost use Rattle.std.specs.Prelude.{◌≡◌, Bool, not, cond, ◌&&◌, eqb, ℕ, suc, ◌<◌};
ghost use Rattle.columns.specs.Machine.{some, into, sets};
ghost use Rattle.chain.specs.Ways.{mem, digit, may, way, linked, second_of};
ghost use Rattle.chain.specs.Walk.{state_word, ways_to, state, flag, flags, step};

use crate::Wires;
use crate::ways::{Places, Ways, adder};
use mask::Mask;

// A word for each state. A state is the first adder's carry plus twice the second's.
#[derive(Clone, Copy)]
pub struct States {
    pub s0: u64,
    pub s1: u64,
    pub s2: u64,
    pub s3: u64,
}

// The columns that lead to each state, by the state before them.
#[derive(Clone, Copy)]
pub struct Table {
    pub to0: States,
    pub to1: States,
    pub to2: States,
    pub to3: States,
}

// The columns where two adders agree on the wire between them.
fn meet(a: Places, b: Places) -> u64
    ensures { (i : ℕ) → mem result i ≡ linked a b i }
{
    (a.zero & b.zero) | (a.one & b.one)
}

// The columns that lead to one state, from the places of the two adders at its carries out, by their carries in.
fn leading(f0: Places, f1: Places, g0: Places, g1: Places) -> States
    ensures { (i : ℕ) (c e : Bool) → mem (state_word result (state c e)) i ≡ linked (cond c f1 f0) (cond e g1 g0) i }
{
    States {
        s0: meet(f0, g0),
        s1: meet(f1, g0),
        s2: meet(f0, g1),
        s3: meet(f1, g1),
    }
}

// The ways of x + constant + carry in = z + 2 carry out, by x: the difference x = z - constant with x and the borrows free.
fn second(z: Mask, constant: u64) -> Ways
    ensures { (i : ℕ) (cin cout b : Bool) → i < 64 → may (way result cin cout) i b ≡ second_of z constant i cin cout b }
{
    let fixed = Mask {
        care: !0,
        value: constant,
    };
    let free = Mask { care: 0, value: 0 };
    adder(true, z, fixed, free, free)
}

fn transitions(w: Wires) -> Table
    ensures { (i s t : ℕ) → i < 64 → s < 4 → t < 4 → mem (state_word (ways_to result t) s) i ≡ into (step w) i s t }
{
    let f = adder(w.subtract, w.l, w.t, w.x, mask::high(w.carries, 1));
    let g = second(w.z, w.constant);
    Table {
        to0: leading(f.c00, f.c10, g.c00, g.c10),
        to1: leading(f.c01, f.c11, g.c00, g.c10),
        to2: leading(f.c00, f.c10, g.c01, g.c11),
        to3: leading(f.c01, f.c11, g.c01, g.c11),
    }
}

// Whether a state of the set leads to one more, in the column where the set stands.
fn lead(to: States, at: States) -> u64
    ensures { (i : ℕ) (b : ℕ → Bool) → at ≡ flags b i → result ≡ flag (some 4 (λ (s : ℕ). b s && mem (state_word to s) i)) i }
{
    (at.s0 & to.s0) | (at.s1 & to.s1) | (at.s2 & to.s2) | (at.s3 & to.s3)
}

// The set one column on. A set stands in its column: the word of a state has that one bit, or none.
fn next(table: Table, at: States) -> States
    ensures { (i : ℕ) (b : ℕ → Bool) → i < 63 → at ≡ flags b i → result ≡ flags (λ (t : ℕ). some 4 (λ (s : ℕ). b s && mem (state_word (ways_to table t) s) i)) (suc i) }
{
    States {
        s0: lead(table.to0, at) << 1,
        s1: lead(table.to1, at) << 1,
        s2: lead(table.to2, at) << 1,
        s3: lead(table.to3, at) << 1,
    }
}

fn any(at: States) -> bool
    ensures { (i : ℕ) (b : ℕ → Bool) → at ≡ flags b i → result ≡ some 4 b }
{
    at.s0 | at.s1 | at.s2 | at.s3 != 0
}

// A set of states is a word with bit s for the state s.
fn spread(set: u64) -> States
    ensures { result ≡ flags (mem set) 0 }
{
    States {
        s0: bits::bit_at(set, 0),
        s1: bits::bit_at(set, 1),
        s2: bits::bit_at(set, 2),
        s3: bits::bit_at(set, 3),
    }
}

// 1 for a word with a bit, else 0.
fn one(word: u64) -> u64
    ensures { (result < 2) × (result ≡ digit (not (eqb word 0))) }
{
    (word != 0) as u64
}

fn gather(at: States) -> u64
    ensures { (i : ℕ) (b : ℕ → Bool) → at ≡ flags b i → (s : ℕ) → s < 4 → mem result s ≡ b s }
{
    one(at.s0) + one(at.s1) * 2 + one(at.s2) * 4 + one(at.s3) * 8
}

// The set of states after n columns, from the set before them.
pub(crate) fn walk(wires: Wires, n: u64, set: u64) -> u64
    requires { n < 64 }
    ensures { (s : ℕ) → s < 4 → mem result s ≡ sets (step wires) 4 (mem set) n s }
{
    let table = transitions(wires);
    let mut at = spread(set);
    for _ in 0..n {
        if !any(at) {
            return 0;
        }
        at = next(table, at);
    }
    gather(at)
}
