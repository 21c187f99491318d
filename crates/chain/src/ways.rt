// One adder, for all columns at once: a word has a bit for each column.
ghost use Rattle.std.specs.Prelude.{◌≡◌, Bool, false, ℕ, ◌<◌};
ghost use Rattle.chain.specs.Ways.{lets, may, way, turned_of, way_of};

use mask::Mask;

// The columns where a wire may be 0, and those where it may be 1.
#[derive(Clone, Copy)]
pub struct Places {
    pub zero: u64,
    pub one: u64,
}

// The places of the wire x of an adder, by the carry into the column and the carry out of it.
#[derive(Clone, Copy)]
pub struct Ways {
    pub c00: Places,
    pub c01: Places,
    pub c10: Places,
    pub c11: Places,
}

// Where a mask lets its wire be 0, and 1.
fn open(m: Mask) -> Places
    ensures { (i : ℕ) (b : Bool) → i < 64 → may result i b ≡ lets m i b }
{
    Places {
        zero: !m.value,
        one: !(m.care ^ m.value),
    }
}

// The two sides, exchanged where the wire is turned over.
fn turned(turn: bool, p: Places) -> Places
    ensures { result ≡ turned_of turn p }
{
    if turn {
        Places {
            zero: p.one,
            one: p.zero,
        }
    } else {
        p
    }
}

// The ways, by the wire turned over.
fn turned_ways(turn: bool, w: Ways) -> Ways
    ensures { (cin cout : Bool) → way result cin cout ≡ turned_of turn (way w cin cout) }
{
    Ways {
        c00: turned(turn, w.c00),
        c01: turned(turn, w.c01),
        c10: turned(turn, w.c10),
        c11: turned(turn, w.c11),
    }
}

// The ways of u + t + carry in = y + 2 carry out, by y.
fn sums(u: Places, t: Places, y: Places, c: Places) -> Ways
    ensures { (i : ℕ) (cin cout b : Bool) → may (way result cin cout) i b ≡ way_of false (may u i) (may t i) (may y i) (may c i) cin cout b }
{
    let none = u.zero & t.zero;
    let one = (u.zero & t.one) | (u.one & t.zero);
    let both = u.one & t.one;
    Ways {
        c00: Places {
            zero: none & (y.zero & c.zero),
            one: one & (y.one & c.zero),
        },
        c01: Places {
            zero: both & (y.zero & c.one),
            one: 0,
        },
        c10: Places {
            zero: 0,
            one: none & (y.one & c.zero),
        },
        c11: Places {
            zero: one & (y.zero & c.one),
            one: both & (y.one & c.one),
        },
    }
}

// The ways of l + t + carry in = x + 2 carry out, and of x + t + borrow in = l + 2 borrow out for x = l - t, by x: that is the sum
// with l and x turned over. c is the mask of the carries out of the columns.
pub fn adder(subtract: bool, l: Mask, t: Mask, x: Mask, c: Mask) -> Ways
    ensures { (i : ℕ) (cin cout b : Bool) → i < 64 → may (way result cin cout) i b ≡ way_of subtract (lets l i) (lets t i) (lets x i) (lets c i) cin cout b }
{
    let u = turned(subtract, open(l));
    let y = turned(subtract, open(x));
    turned_ways(subtract, sums(u, open(t), y, open(c)))
}
