// What is wanted of the bits that rounding drops: whether it is well made, and with g taken as 0 where none of them is fixed.
ghost use Rattle.std.specs.Prelude.{◌≡◌};
ghost use Rattle.job.specs.Dropped.{dropped_cause, free_dropped, normalised};

use crate::Dropped;
use format::{Cause, limits, unless};
use mask::{Mask, well_formed};

// 17 where g is above 8, or the mask has a bit above its g + 1 bits or a value bit outside care. With a g above 8 the mask is not looked
// at, so its width does not wrap.
pub(crate) fn dropped_cause(dropped: Dropped) -> Result<(), Cause>
    ensures { result ≡ dropped_cause dropped }
{
    if limits::MOST_DROPPED < dropped.g {
        return Err(Cause::DroppedMask);
    }
    unless(well_formed(dropped.g + 1, dropped.mask), Cause::DroppedMask)
}

// Nothing is wanted of the dropped bits.
pub fn free_dropped() -> Dropped
    ensures { result ≡ free_dropped }
{
    Dropped {
        g: 0,
        mask: Mask { care: 0, value: 0 },
    }
}

// What is wanted, with g taken as 0 where no bit is fixed.
pub fn normalised(dropped: Dropped) -> Dropped
    ensures { result ≡ normalised dropped }
{
    let mut with = dropped;
    if dropped.mask.care == 0 {
        with.g = 0;
    }
    with
}
