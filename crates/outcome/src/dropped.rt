// The numbers of so many digits whose dropped bits meet a mask. What lies below these bits is told by the sticky bit alone: where that is to
// be 1 some bit there is, and a mask can only say which. So there are several ways, and a mask for each.
ghost use Rattle.std.specs.Prelude.{◌≡◌, ◌+◌, ◌-◌, ◌^◌, ◌≤◌, ◌<◌};
ghost use Rattle.format.specs.Limits.{most_dropped};
ghost use Rattle.job.specs.Dropped.{ValidDropped};
ghost use Rattle.rounding.specs.Width.{aligned_bits};
ghost use Rattle.outcome.specs.Question.{OnlyDigits};
ghost use Rattle.outcome.specs.Ways.{ways_of, upper_of, lower_of, ways_at, OfWay};

use crate::masks::digits;
use job::Dropped;
use making::masks::{both, raised};
use mask::{Mask, high};
use word::Unit;

// In how many ways a number that has j bits below the last kept one may have the dropped bits. With no more than g + 1 of them they are the
// upper bits of the mask, and zeros stand below; with more of them the lowest are told by the sticky bit.
fn ways(dropped: Dropped, j: u64) -> u64
    requires { (dropped.g ≤ most_dropped) × (j < 64) }
    ensures { result ≡ ways_of dropped j }
{
    if j <= dropped.g + 1 {
        if bits::low(dropped.mask.value, dropped.g + 1 - j) == 0 {
            return 1;
        }
        return 0;
    }
    if bits::low(dropped.mask.value, 1) == 1 {
        return j - dropped.g;
    }
    1
}

// What the dropped bits ask of such a number.
fn upper(dropped: Dropped, j: u64) -> Mask
    requires { (dropped.g ≤ most_dropped) × (j < 64) }
    ensures { ValidDropped dropped → result ≡ upper_of dropped j }
{
    if j <= dropped.g + 1 {
        return high(dropped.mask, dropped.g + 1 - j);
    }
    raised(high(dropped.mask, 1), j - dropped.g)
}

// What the sticky bit asks of it, in one of the ways.
fn lower(dropped: Dropped, j: u64, way: u64) -> Mask
    requires { (dropped.g ≤ most_dropped) × (j < 64) × (way < ways_of dropped j) }
    ensures { result ≡ lower_of dropped j way }
{
    if j <= dropped.g + 1 {
        return Mask { care: 0, value: 0 };
    }
    if bits::low(dropped.mask.value, 1) == 1 {
        return Mask {
            care: 1 << way,
            value: 1 << way,
        };
    }
    if bits::low(dropped.mask.care, 1) == 1 {
        return Mask {
            care: (1 << (j - dropped.g)) - 1,
            value: 0,
        };
    }
    Mask { care: 0, value: 0 }
}

// In how many ways a number of so many digits may have dropped bits as they are wanted: in one where none is fixed, in none below the
// smallest normal number.
pub(crate) fn ways_at(below: u64, f: u64, unit: Unit, dropped: Dropped, count: u64) -> u64
    requires { (aligned_bits below f < 64) × (dropped.g ≤ most_dropped) × (unit.0 < 2 ^ 63) × (count < 64) }
    ensures { result ≡ ways_at below f unit dropped count }
{
    if dropped.mask.care == 0 {
        return 1;
    }
    if count + unit.0 < f + (1 + below) {
        return 0;
    }
    ways(dropped, count.saturating_sub(f + 1))
}

// The mask of the numbers of so many digits in one of these ways, among those that fit the columns.
pub(crate) fn numbers(columns: u64, f: u64, dropped: Dropped, count: u64, way: u64) -> Mask
    requires { (columns < 64) × (f < 64) × (dropped.g ≤ most_dropped) × (count ≤ columns) × ((dropped.mask.care ≡ 0 → ⊥) → way < ways_of dropped (count - (f + 1))) }
    ensures only { OnlyDigits columns count result }
    ensures exact { ValidDropped dropped → OfWay columns count dropped (count - (f + 1)) way result }
{
    let all = digits(columns, count);
    if dropped.mask.care == 0 {
        return all;
    }
    let j = count.saturating_sub(f + 1);
    both(all, both(upper(dropped, j), lower(dropped, j, way)))
}
