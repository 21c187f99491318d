// What a rounding mode means, by the sign.
ghost use Rattle.std.specs.Prelude.{◌≡◌};
ghost use Rattle.rounding.specs.Rounding.{direction, cancelled_sign};
ghost use Rattle.rounding.specs.Outcome.{zero_sign};

use crate::Direction;

// The direction of a mode as seen from zero, by the sign.
pub fn direction(mode: u64, sign: u64) -> Direction
    ensures { result ≡ direction mode sign }
{
    if mode == 0 {
        Direction::NearestEven
    } else if mode == 4 {
        Direction::NearestAway
    } else if mode < 2 {
        Direction::TowardZero
    } else if mode - 2 == sign {
        Direction::Away
    } else {
        Direction::TowardZero
    }
}

// The sign of an exact zero from operands of unlike sign.
pub fn cancelled_sign(mode: u64) -> u64
    ensures { result ≡ cancelled_sign mode }
{
    if mode == 3 { 1 } else { 0 }
}

// The sign of a zero sum: that of like operands, else that of a cancelled sum.
pub fn zero_sign(mode: u64, like: bool, sign: u64) -> u64
    ensures { result ≡ zero_sign mode like sign }
{
    if like { sign } else { cancelled_sign(mode) }
}
