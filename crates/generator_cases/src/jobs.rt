// Jobs and the replies to them: what the cases are made of, and the line of a case.
use crate::line::{Question, Shown};
use bounds::Ends;
use format::{Cause, Format};
use generator::Case;
use job::words::{masked_job, wanted, with_wanted};
use job::{Dropped, Job, Role, Setting, Wanted};
use mask::Mask;
use std::io;
use tally::Cases;

const ADD: u64 = 0;

pub(crate) fn mask(care: u64, value: u64) -> Mask {
    Mask { care, value }
}

pub(crate) fn free() -> Mask {
    mask(0, 0)
}

pub(crate) fn numbers(w: u64, f: u64, operation: u64, mode: u64) -> Setting {
    Setting {
        format: Format { w, f },
        operation,
        mode,
    }
}

// Addition in a mode.
pub(crate) fn adding(w: u64, f: u64, mode: u64) -> Setting {
    numbers(w, f, ADD, mode)
}

// The masks of the eight-bit format: a 0100x101, b 001x1011, c 010xx10x.
pub(crate) fn eight(mode: u64, carries: Mask) -> Job {
    let setting = adding(3, 4, mode);
    masked_job(
        setting,
        mask(0xF7, 0x45),
        mask(0xEF, 0x2B),
        mask(0xE6, 0x44),
        carries,
    )
}

// Nothing fixed.
pub(crate) fn open(setting: Setting) -> Job {
    masked_job(setting, free(), free(), free(), free())
}

// The job with bounds on a word.
pub(crate) fn bounding(job: Job, role: Role, low: u64, high: u64) -> Job {
    let mask = wanted(job, role).mask;
    let bounds = Some(Ends { low, high });
    with_wanted(job, role, Wanted { mask, bounds })
}

// The job with a mask on g dropped bits and the sticky bit.
pub(crate) fn dropping(job: Job, g: u64, care: u64, value: u64) -> Job {
    let mask = mask(care, value);
    Job {
        dropped: Dropped { g, mask },
        ..job
    }
}

pub(crate) fn found(a: u64, b: u64, c: u64, carries: u64) -> Result<Case, Cause> {
    Ok(Case {
        a,
        b,
        c,
        row: Some(carries),
    })
}

pub(crate) fn refused(cause: Cause) -> Result<Case, Cause> {
    Err(cause)
}

pub(crate) fn none() -> Result<Case, Cause> {
    refused(Cause::NoCase)
}

// A line: the generator is asked, and its reply held against the one expected.
pub(crate) fn asked(
    cases: &mut Cases<'_, impl Print>,
    job: Job,
    r1: u64,
    r2: u64,
    expected: Result<Case, Cause>,
) -> io::Result<()> {
    let reply = generator::generate(job, r1, r2);
    print!(cases.rt; "{}: {}", Question { job, r1, r2 }, Shown(reply))?;
    cases.end_line(reply == expected)
}

// Words 0, 0 and words 4D, 0.
pub(crate) fn both_words(
    cases: &mut Cases<'_, impl Print>,
    job: Job,
    zeros: Result<Case, Cause>,
    others: Result<Case, Cause>,
) -> io::Result<()> {
    asked(cases, job, 0, 0, zeros)?;
    asked(cases, job, 0x4D, 0, others)
}
