// Whether a case is left. Where a job states no bounds the first pair of exponent fields that admits a case tells; else its masks are narrowed
// and halved until each stands inside its bounds or outside.
#![tactic(auto)]

mod halving;

ghost use Rattle.std.specs.Prelude.{None, false, ◌≡◌};
ghost use Rattle.job.specs.Job.{Valid};
ghost use Rattle.pass.specs.First.{NoneBefore};
ghost use Rattle.left.specs.First.{FirstLeft};

use bits::power;
use halving::some_left;
use job::{Job, Wanted, cause_with};
use pass::{Exponents, first_pair};
use word::Biased;

// Whether bounds are stated of a word.
fn states_bounds(w: Wanted) -> bool
    ensures { result ≡ false → w.bounds ≡ None }
{
    w.bounds.is_some()
}

// The first pair of exponent fields that admits a case of the job without its bounds, where a case is left; else past them all. Those before
// `start` are known to admit none. In a format that is not supported and for a job that is refused the answer is free.
pub fn first_left(job: Job, start: Exponents) -> Exponents
    ensures { Valid job → NoneBefore job start → FirstLeft job result }
{
    let first = first_pair(job, start);
    if !(states_bounds(job.a) | states_bounds(job.b) | states_bounds(job.c)) {
        return first;
    }
    if cause_with(job, Ok(())).is_err() {
        return first;
    }
    let past = power(job.setting.format.w);
    if past <= first.a.0 {
        return first;
    }
    if some_left(job, first) {
        return first;
    }
    Exponents {
        a: Biased(past),
        b: Biased(0),
    }
}
