// Jobs: what a case must meet, and whether a job is well made.
#![tactic(auto)]

pub mod below;
pub mod guards;
pub mod words;

ghost use Rattle.std.specs.Prelude.{◌≡◌};
ghost use Rattle.format.specs.Format.{Supported};
ghost use Rattle.job.specs.Job.{setting_cause, job_masks_cause, job_ends_cause, job_bounds_cause, form_cause, cause_with, request_cause};

use below::dropped_cause;
use bounds::{Ends, bounds_cause, ends_cause};
use format::{Cause, Format, format_cause, mode_cause, operation_cause, supported, word_cause};
use mask::{Mask, masks_cause};

// What decides the result of two operands.
#[derive(Clone, Copy)]
pub struct Setting {
    pub format: Format,
    pub operation: u64,
    pub mode: u64,
}

// What is wanted of one word of a case: that it agrees with a mask, and lies within bounds if any are stated.
#[derive(Clone, Copy)]
pub struct Wanted {
    pub mask: Mask,
    pub bounds: Option<Ends>,
}

// What is wanted of the bits that rounding drops: of g of them, and below them the sticky bit, bit 0 of the mask.
#[derive(Clone, Copy)]
pub struct Dropped {
    pub g: u64,
    pub mask: Mask,
}

// A setting, and what is wanted of the operands a and b, of the result c, of the carry row and of the dropped bits.
#[derive(Clone, Copy)]
pub struct Job {
    pub setting: Setting,
    pub a: Wanted,
    pub b: Wanted,
    pub c: Wanted,
    pub carries: Mask,
    pub dropped: Dropped,
}

// The words of a case: two operands and their result.
#[derive(Clone, Copy)]
pub enum Role {
    A,
    B,
    C,
}

// The first of the causes 1 to 4 that stands against a setting.
#[tactic(auto, unfolding(crate::specs::Job::setting_cause))]
pub fn setting_cause(setting: Setting) -> Result<(), Cause>
    ensures { result ≡ setting_cause setting }
{
    format_cause(setting.format)?;
    operation_cause(setting.operation)?;
    mode_cause(setting.mode)
}

// 5, 14, 15, 16 or 17 where a mask is malformed. The format is supported, so its widths do not wrap.
fn job_masks_cause(job: Job) -> Result<(), Cause>
    requires { Supported job.setting.format }
    ensures { result ≡ job_masks_cause job }
{
    let width = job.setting.format.w + job.setting.format.f + 1;
    let precision = job.setting.format.f + 1;
    masks_cause(
        width,
        precision,
        job.a.mask,
        job.b.mask,
        job.c.mask,
        job.carries,
    )?;
    dropped_cause(job.dropped)
}

// The first of the causes 1 to 4 that stands against the job, or 5, 14, 15, 16 or 17 for a malformed mask.
#[tactic(auto, unfolding(crate::specs::Job::form_cause))]
fn form_cause(job: Job) -> Result<(), Cause>
    ensures { result ≡ form_cause job }
{
    setting_cause(job.setting)?;
    job_masks_cause(job)
}

// 6 where a bound is too wide.
fn job_ends_cause(job: Job) -> Result<(), Cause>
    requires { Supported job.setting.format }
    ensures { result ≡ job_ends_cause job }
{
    let format = job.setting.format;
    ends_cause(format, job.a.bounds)?;
    ends_cause(format, job.b.bounds)?;
    ends_cause(format, job.c.bounds)
}

// 18 where a bound is a NaN, or a low one exceeds its high one.
fn job_bounds_cause(job: Job) -> Result<(), Cause>
    requires { Supported job.setting.format }
    ensures { result ≡ job_bounds_cause job }
{
    let format = job.setting.format;
    bounds_cause(format, job.a.bounds)?;
    bounds_cause(format, job.b.bounds)?;
    bounds_cause(format, job.c.bounds)
}

// The first cause that stands against the job and words that come with it, which were looked at before. Bounds are looked at in a supported
// format alone.
#[tactic(auto, unfolding(crate::specs::Job::cause_with))]
pub fn cause_with(job: Job, words: Result<(), Cause>) -> Result<(), Cause>
    ensures { result ≡ cause_with job words }
{
    form_cause(job)?;
    job_ends_cause(job)?;
    words?;
    job_bounds_cause(job)
}

// What stands against the job and two random words. In a format that is not supported the words are not looked at, whose width might wrap.
pub fn request_cause(job: Job, r1: u64, r2: u64) -> Result<(), Cause>
    ensures { result ≡ request_cause job r1 r2 }
{
    if !supported(job.setting.format) {
        return cause_with(job, Ok(()));
    }
    let width = job.setting.format.w + job.setting.format.f + 1;
    cause_with(job, word_cause(width, r1).and(word_cause(width, r2)))
}
