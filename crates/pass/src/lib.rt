// A pass over the exponent fields of two operands: the first pair of them that admits a case.
#![tactic(auto)]

mod field;
mod pairs;
mod span;

ghost use Rattle.job.specs.Job.{Valid};
ghost use Rattle.pass.specs.First.{NoneBefore, FirstPair};

use format::supported;
use job::Job;
use pairs::first_from;
use word::Biased;

// The exponent fields of two operands. They are gone over by a's, and for each of a's by b's.
#[derive(Clone, Copy)]
pub struct Exponents {
    pub a: Biased,
    pub b: Biased,
}

// The first pair of exponent fields that admits a case, or past them all, where those before `start` are known to admit none; bounds are left
// out. In a format that is not supported and for a job that is refused the answer is free.
pub fn first_pair(job: Job, start: Exponents) -> Exponents
    ensures { Valid job → NoneBefore job start → FirstPair job result }
{
    if !supported(job.setting.format) {
        return start;
    }
    first_from(job, start)
}
