// What a job wants of one word of a case, by the role of the word.
ghost use Rattle.std.specs.Prelude.{◌≡◌};
ghost use Rattle.job.specs.Role.{wanted, with_wanted, with_mask, with_word_mask, only_mask, masked_job};

use crate::below::free_dropped;
use crate::{Job, Role, Setting, Wanted};
use mask::Mask;

// What is wanted of the word of a role.
pub fn wanted(job: Job, role: Role) -> Wanted
    ensures { result ≡ wanted role job }
{
    match role {
        Role::A => job.a,
        Role::B => job.b,
        Role::C => job.c,
    }
}

// The job with what is wanted of the word of a role replaced.
pub fn with_wanted(job: Job, role: Role, w: Wanted) -> Job
    ensures { result ≡ with_wanted role job w }
{
    let mut with = job;
    match role {
        Role::A => with.a = w,
        Role::B => with.b = w,
        Role::C => with.c = w,
    }
    with
}

// The same conditions with another mask.
pub fn with_mask(w: Wanted, m: Mask) -> Wanted
    ensures { result ≡ with_mask w m }
{
    let mut with = w;
    with.mask = m;
    with
}

// The job with another mask of the word of a role.
pub fn with_word_mask(job: Job, role: Role, m: Mask) -> Job
    ensures { result ≡ with_word_mask role job m }
{
    let w = wanted(job, role);
    with_wanted(job, role, with_mask(w, m))
}

// A word agrees with the mask, and nothing else is wanted of it.
fn only_mask(m: Mask) -> Wanted
    ensures { result ≡ only_mask m }
{
    Wanted {
        mask: m,
        bounds: None,
    }
}

// The job that states four masks and nothing else.
pub fn masked_job(setting: Setting, a: Mask, b: Mask, c: Mask, carries: Mask) -> Job
    ensures { result ≡ masked_job setting a b c carries }
{
    Job {
        setting,
        a: only_mask(a),
        b: only_mask(b),
        c: only_mask(c),
        carries,
        dropped: free_dropped(),
    }
}
