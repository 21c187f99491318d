// Whether a case is left of a job that states bounds. A mask is narrowed to the bits that all words within its bounds share; where its words
// still lie on both sides of a bound, a free bit of it is tried both ways. What the job without its bounds refuses is refused.
ghost use Rattle.std.specs.Prelude.{true, ◌↔◌, ◌≡◌, ◌<◌};
ghost use Rattle.job.specs.Job.{Valid};
ghost use Rattle.pass.specs.First.{NoneBefore};
ghost use Rattle.left.specs.Left.{Left};
ghost use Rattle.left.specs.Narrower.{openness, Narrower, Keeps, KeepsHalf, higher, further, Open, StepOf};

use bits::power;
use job::words::{wanted, with_word_mask};
use job::{Job, Role};
use mask::fix;
use narrowing::{Standing, narrowed, stands};
use pass::{Exponents, first_pair};

// The next step of settling a job: each mask stands inside its bounds, one stands outside, or a bit of one is tried, this value first.
#[derive(Clone, Copy)]
pub enum Step {
    Settled,
    Nothing,
    Split(Role, u64, u64),
}

// The job with the mask of one word narrowed by its bounds.
fn narrow_word(job: Job, role: Role) -> Job
    requires { Valid job }
    ensures { Narrower job result × Keeps job result }
{
    let own = wanted(job, role);
    let mask = narrowed(job.setting.format, own);
    with_word_mask(job, role, mask)
}

// The job with all its masks narrowed.
fn narrow_job(job: Job) -> Job
    requires { Valid job }
    ensures { Narrower job result × Keeps job result }
{
    let a = narrow_word(job, Role::A);
    let b = narrow_word(a, Role::B);
    narrow_word(b, Role::C)
}

// The job with a free bit of one word fixed.
fn with_bit(job: Job, role: Role, k: u64, v: u64) -> Job
    requires { Valid job × Open job role k v }
    ensures { Narrower job result × KeepsHalf job role k v result × (openness result < openness job) }
{
    let own = wanted(job, role);
    let mask = fix(own.mask, k, v);
    with_word_mask(job, role, mask)
}

// The step where a bit of one more word is to be tried: that of the highest position is.
fn higher(step: Step, role: Role, k: u64, v: u64) -> Step
    ensures { result ≡ higher step role k v }
{
    match step {
        Step::Settled => Step::Split(role, k, v),
        Step::Nothing => Step::Nothing,
        Step::Split(_, j, _) => {
            if j < k {
                return Step::Split(role, k, v);
            }
            step
        }
    }
}

// The step with one more word looked at.
fn further(step: Step, role: Role, standing: Standing) -> Step
    ensures { result ≡ further step role standing }
{
    match standing {
        Standing::Inside => step,
        Standing::Outside => Step::Nothing,
        Standing::Across(k, v) => higher(step, role, k, v),
    }
}

// The next step of settling a job.
fn next_step(job: Job) -> Step
    requires { Valid job }
    ensures { StepOf 3 job result }
{
    let format = job.setting.format;
    let a = further(Step::Settled, Role::A, stands(format, job.a));
    let b = further(a, Role::B, stands(format, job.b));
    further(b, Role::C, stands(format, job.c))
}

// Whether a case is left, where no case of the job without its bounds has exponent fields before `at`.
pub(crate) fn some_left(job: Job, at: Exponents) -> bool
    requires { Valid job }
    ensures { NoneBefore job at → (result ≡ true) ↔ Left job }
{
    let narrow = narrow_job(job);
    let step = next_step(narrow);
    let past = power(narrow.setting.format.w);
    match step {
        Step::Nothing => false,
        Step::Settled => first_pair(narrow, at).a.0 < past,
        Step::Split(role, k, v) => {
            let first = first_pair(narrow, at);
            if past <= first.a.0 {
                return false;
            }
            if some_left(with_bit(narrow, role, k, v), first) {
                return true;
            }
            some_left(with_bit(narrow, role, k, 1u64.saturating_sub(v)), first)
        }
    }
}
