// What rounding off k bits adds before it drops them, a row for each direction.
ghost use Rattle.std.specs.Prelude.{◌≡◌, ◌≤◌, ◌<◌};
ghost use Rattle.rounding.specs.Rounding.{rounding_constant, rounding_carry};

use crate::Direction;
use bits::power;

// The constant; 0 for more bits than a word has.
pub fn constant(direction: Direction, k: u64) -> u64
    ensures { (k < 64 → result ≡ rounding_constant direction k) × (64 ≤ k → result ≡ 0) }
{
    if k == 0 {
        return 0;
    }
    if 64 <= k {
        return 0;
    }
    match direction {
        Direction::NearestEven | Direction::NearestAway => power(k - 1) - 1,
        Direction::TowardZero => 0,
        Direction::Away => power(k) - 1,
    }
}

// The carry, where `last` is the last kept bit.
pub fn carry(direction: Direction, k: u64, last: u64) -> u64
    ensures { result ≡ rounding_carry direction k last }
{
    if k == 0 {
        return 0;
    }
    match direction {
        Direction::NearestEven => last,
        Direction::NearestAway => 1,
        Direction::TowardZero => 0,
        Direction::Away => 0,
    }
}
