// The masked search: the operands of the case that two random words choose, where one is left.
#![tactic(auto)]

mod walk;

ghost use Rattle.std.specs.Prelude.{None, ◌≡◌};
ghost use Rattle.format.specs.Format.{Supported};
ghost use Rattle.job.specs.Job.{Valid};
ghost use Rattle.search.specs.Choice.{Chosen};

use bits::power;
use format::supported;
use job::{Job, Role};
use left::first_left;
use pass::Exponents;
use walk::follow;
use word::Biased;

// The operands of a case.
#[derive(Clone, Copy)]
pub struct Pair {
    pub a: u64,
    pub b: u64,
}

// The operands that the random words choose: each bit of a, from the top, follows the first, and then each bit of b the second. None where no
// case is left, and in a format that is not supported. For a job that is refused the answer is free: a job is tested once, where the
// generator is asked.
pub fn choose(job: Job, r1: u64, r2: u64) -> Option<Pair>
    ensures unsupported { (Supported job.setting.format → ⊥) → result ≡ None }
    ensures chosen { Valid job → Chosen job r1 r2 result }
{
    let format = job.setting.format;
    if !supported(format) {
        return None;
    }
    let start = Exponents {
        a: Biased(0),
        b: Biased(0),
    };
    let first = first_left(job, start);
    if first.a.0 < power(format.w) {
        let width = format.w + format.f + 1;
        let with_a = follow(job, Role::A, r1, width, first);
        let with_b = follow(with_a, Role::B, r2, width, first);
        return Some(Pair {
            a: with_a.a.mask.value,
            b: with_b.b.mask.value,
        });
    }
    None
}
