// Whether two aligned significands make a number that meets a mask and, rounded off, another.
#![tactic(auto)]

use mask::Mask;

pub mod ask;
pub mod masks;

ghost use Rattle.std.specs.Prelude.{true, ◌↔◌, ◌≡◌};
ghost use Rattle.making.specs.Making.{most_digits, RoomFor};

// The masks of two aligned significands and of their carries; like tells whether they are added, reversed whether the carries are those
// of the smaller one less the larger, below how many bits stand below the larger one's last.
#[derive(Clone, Copy)]
pub struct Aligned {
    pub like: bool,
    pub reversed: bool,
    pub below: u64,
    pub head: Mask,
    pub tail: Mask,
    pub carries: Mask,
}

// Whether some bit stands below and the columns fit a word with its top bit free: f and the bits below are fewer than 62 where a sum is
// made, else than 63.
pub fn roomy(like: bool, below: u64, f: u64) -> bool
    ensures { (result ≡ true) ↔ RoomFor f like below }
{
    if below == 0 {
        return false;
    }
    if like {
        f < 62u64.saturating_sub(below)
    } else {
        f < 63u64.saturating_sub(below)
    }
}

// The columns of a question: the most digits that what they make has, a sum's where they are like, else a difference's. Where there is no
// room the answer is free.
pub fn columns(like: bool, below: u64, f: u64) -> u64
    ensures { RoomFor f like below → result ≡ most_digits below f like }
{
    if !roomy(like, below, f) {
        return 0;
    }
    if like {
        f + (2 + below)
    } else {
        f + (1 + below)
    }
}
