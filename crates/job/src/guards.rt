// How far below the last bit a question about a job looks.
ghost use Rattle.std.specs.Prelude.{◌≡◌};
ghost use Rattle.job.specs.Guards.{guards_of, reach};

use crate::below::normalised;
use crate::{Dropped, Job};
use format::limits;

// How many bits below the last one a question tells apart: g, and one where none is fixed or g is 0.
pub fn guards(dropped: Dropped) -> u64
    ensures { result ≡ guards_of dropped }
{
    let taken = normalised(dropped);
    if taken.g == 0 { 1 } else { taken.g }
}

// f and these bits, but for the first; 0 where f or their number is above its limit, so that no sum wraps.
pub fn reach(job: Job) -> u64
    ensures { result ≡ reach job }
{
    let apart = guards(job.dropped);
    let f = job.setting.format.f;
    if (f <= limits::MOST_FRACTION_BITS) & (apart <= limits::MOST_DROPPED) {
        f + apart - 1
    } else {
        0
    }
}
