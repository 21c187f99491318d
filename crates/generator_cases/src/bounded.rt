// W-207: jobs that state bounds, impossible ones among them, and their refusals.
use crate::jobs::{adding, asked, both_words, bounding, eight, found, free, none, open, refused};
use format::Cause;
use job::{Job, Role};
use std::io;
use tally::Cases;

// Of the two cases of the eight-bit format bounds of each word leave the second, or none.
fn masked(cases: &mut Cases<'_, impl Print>) -> io::Result<()> {
    let job = eight(0, free());
    let second = found(0x4D, 0x3B, 0x55, 0x1D);
    both_words(cases, bounding(job, Role::A, 0x46, 0x4D), second, second)?;
    both_words(cases, bounding(job, Role::B, 0x3B, 0x3B), second, second)?;
    both_words(cases, bounding(job, Role::C, 0x4D, 0x70), second, second)?;
    both_words(cases, bounding(job, Role::A, 0x46, 0x4C), none(), none())
}

// Operands from 1 to 2 in single precision, and c from `low` to `high`.
fn single(low: u64, high: u64) -> Job {
    let open = open(adding(8, 23, 0));
    let a = bounding(open, Role::A, 0x3F800000, 0x40000000);
    let both = bounding(a, Role::B, 0x3F800000, 0x40000000);
    bounding(both, Role::C, low, high)
}

// The same in double precision.
fn double(low: u64, high: u64) -> Job {
    let open = open(adding(11, 52, 0));
    let a = bounding(open, Role::A, 0x3FF0000000000000, 0x4000000000000000);
    let both = bounding(a, Role::B, 0x3FF0000000000000, 0x4000000000000000);
    bounding(both, Role::C, low, high)
}

// Sums from 2 to 4 in single and double precision, and none from 5 to 6.
fn wide(cases: &mut Cases<'_, impl Print>) -> io::Result<()> {
    let least = found(0x3F800000, 0x3F800000, 0x40000000, 0x800000);
    asked(cases, single(0x40000000, 0x40800000), 0, 0, least)?;
    asked(cases, single(0x40A00000, 0x40C00000), 0, 0, none())?;
    let reached = double(0x4000000000000000, 0x4010000000000000);
    let first = found(
        0x3FF0000000000000,
        0x3FF0000000000000,
        0x4000000000000000,
        0x10000000000000,
    );
    asked(cases, reached, 0, 0, first)?;
    asked(
        cases,
        double(0x4014000000000000, 0x4018000000000000),
        0,
        0,
        none(),
    )
}

// -0 lies from +0 to +0 and is the nearer to 80; no infinity and no NaN lies between the largest numbers.
fn zeros(cases: &mut Cases<'_, impl Print>) -> io::Result<()> {
    let zero = bounding(open(adding(3, 4, 0)), Role::A, 0x00, 0x00);
    asked(cases, zero, 0x80, 0x80, found(0x80, 0x80, 0x80, 0x00))?;
    let number = bounding(open(adding(3, 4, 0)), Role::A, 0xEF, 0x6F);
    asked(cases, number, 0xFF, 0x00, found(0xEF, 0x00, 0xEF, 0x00))
}

pub(crate) fn stated(cases: &mut Cases<'_, impl Print>) -> io::Result<()> {
    masked(cases)?;
    wide(cases)?;
    zeros(cases)
}

// A NaN as a bound, bounds out of order, and a bound too wide beside such.
pub(crate) fn malformed(cases: &mut Cases<'_, impl Print>) -> io::Result<()> {
    let job = open(adding(3, 4, 0));
    let nan = bounding(job, Role::A, 0x00, 0x78);
    asked(cases, nan, 0, 0, refused(Cause::Bounds))?;
    let turned = bounding(job, Role::C, 0x31, 0x30);
    asked(cases, turned, 0, 0, refused(Cause::Bounds))?;
    let wide = bounding(turned, Role::B, 0x00, 0x100);
    asked(cases, wide, 0, 0, refused(Cause::Word))
}
