// Whether a pair of exponent fields admits a case.
#![tactic(auto)]

use finite::{finite_fields, finite_pair};
use job::Job;
use mask::Mask;
use special::special_admits;
use word::Biased;

pub mod finite;
pub mod signs;

ghost use Rattle.std.specs.Prelude.{true, ◌↔◌, ◌≡◌};
ghost use Rattle.job.specs.Job.{Valid};
ghost use Rattle.special.specs.Asked.{InRange, PairFits};

// What is asked of an operand whose sign, in the effective addition, and exponent field are known: its fraction meets a mask.
// The operand on the left-hand side is a.
#[derive(Clone, Copy)]
pub struct Side {
    pub lhs: bool,
    pub sign: u64,
    pub exponent: Biased,
    pub fraction: Mask,
}

// Whether a case whose operands have these exponent fields fits; false in a format that is not supported and for a field that it does not
// have. For a job that is refused the answer is free: a job is tested once, where the generator is asked.
pub fn pair_admits(job: Job, ea: Biased, eb: Biased) -> bool
    ensures in_range { result ≡ true → InRange job.setting.format ea eb }
    ensures exact { Valid job → (result ≡ true) ↔ PairFits job ea eb }
{
    if finite_fields(job.setting.format, ea, eb) {
        return finite_pair(job, ea, eb);
    }
    special_admits(job, ea, eb)
}
