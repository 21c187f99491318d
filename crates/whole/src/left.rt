// Whether a case is left: a walk over the columns, lowest first, with the set of the carries that can stand before a column.
ghost use Rattle.std.specs.Prelude.{◌≡◌, Bool, true, ◌&&◌, ◌↔◌, ℕ, suc, ◌<◌, ◌≤◌};
ghost use Rattle.format.specs.Limits.{most_length};
ghost use Rattle.columns.specs.Machine.{some, into};
ghost use Rattle.chain.specs.Ways.{mem, may, either};
ghost use Rattle.chain.specs.Walk.{flag};
ghost use Rattle.whole.specs.Job.{Formed};
ghost use Rattle.whole.specs.Fits.{Left};
ghost use Rattle.whole.specs.Column.{at, step};
ghost use Rattle.whole.specs.Carries.{carry_word, ways_to, flags};

use super::Masks;
use chain::ways::{Places, adder};
use mask::Mask;

// For each carry a word with a bit for each column.
#[derive(Clone, Copy)]
pub struct Carries {
    pub zero: u64,
    pub one: u64,
}

// The columns that lead to each carry, by the carry that goes in.
#[derive(Clone, Copy)]
pub struct Table {
    pub to0: Carries,
    pub to1: Carries,
}

// The columns that have a way, with the wire 0 or 1.
fn any(p: Places) -> u64
    ensures { (i : ℕ) → mem result i ≡ either (may p i) }
{
    p.zero | p.one
}

// The columns that lead from each carry to each, by the ways of x + y = z; the mask of the carries is moved down to those out of a column.
fn transitions(s: Masks) -> Table
    ensures { (i c t : ℕ) → i < 64 → c < 2 → t < 2 → mem (carry_word (ways_to result t) c) i ≡ into (step s) i c t }
{
    let w = adder(false, s.x, s.y, s.z, mask::high(s.carries, 1));
    Table {
        to0: Carries {
            zero: any(w.c00),
            one: any(w.c10),
        },
        to1: Carries {
            zero: any(w.c01),
            one: any(w.c11),
        },
    }
}

// The set's column as a bit, where a carry of the set leads to the one that `to` is about; else 0.
fn lead(to: Carries, set: Carries) -> u64
    ensures { (i : ℕ) (b : ℕ → Bool) → set ≡ flags b i → result ≡ flag (some 2 (λ (c : ℕ). b c && mem (carry_word to c) i)) i }
{
    (set.zero & to.zero) | (set.one & to.one)
}

// The set one column on. A set stands in its column: the word of a carry has that one bit, or none.
fn next(table: Table, set: Carries) -> Carries
    ensures { (i : ℕ) (b : ℕ → Bool) → i < 63 → set ≡ flags b i → result ≡ flags (λ (t : ℕ). some 2 (λ (c : ℕ). b c && mem (carry_word (ways_to table t) c) i)) (suc i) }
{
    Carries {
        zero: lead(table.to0, set) << 1,
        one: lead(table.to1, set) << 1,
    }
}

// 1 where the carry in may be b, else 0.
fn carry_in(carries: Mask, b: u64) -> u64
    ensures { result ≡ flag (at carries 0 b) 0 }
{
    columns::allows(carries.care, carries.value, 0, b) as u64
}

// Whether a case of n bits is left under the masks.
pub(crate) fn left(n: u64, s: Masks) -> bool
    requires { (n ≤ most_length) × Formed n s }
    ensures { (result ≡ true) ↔ Left n s }
{
    let table = transitions(s);
    let mut set = Carries {
        zero: carry_in(s.carries, 0),
        one: carry_in(s.carries, 1),
    };
    for _ in 0..n {
        set = next(table, set);
    }
    set.zero | set.one != 0
}
