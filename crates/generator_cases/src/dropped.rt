// W-206: jobs that state dropped bits, impossible ones among them, and the refusals of a g and of its mask.
use crate::jobs::{
    adding, asked, both_words, dropping, eight, found, free, mask, none, numbers, open, refused,
};
use format::Cause;
use job::Job;
use job::words::masked_job;
use mask::Mask;
use std::io;
use tally::Cases;

// Of the two cases of the eight-bit format 45 + 2B has 6 at g = 2, and 4D + 3B has 2: the sticky bit is 0 in both.
fn masked(cases: &mut Cases<'_, impl Print>) -> io::Result<()> {
    let job = eight(0, free());
    let first = found(0x45, 0x2B, 0x4C, 0x04);
    let second = found(0x4D, 0x3B, 0x55, 0x1D);
    both_words(cases, dropping(job, 2, 7, 6), first, first)?;
    both_words(cases, dropping(job, 2, 7, 2), second, second)?;
    both_words(cases, dropping(job, 2, 1, 1), none(), none())
}

// A tie, with a mask of c.
fn tie(w: u64, f: u64, mode: u64, c: Mask) -> Job {
    let job = masked_job(adding(w, f, mode), free(), free(), c, free());
    dropping(job, 8, 0x1FF, 0x100)
}

// Ties of any operands of the eight-bit format. A result that is odd has none in mode 0, in wider formats too.
fn ties(cases: &mut Cases<'_, impl Print>) -> io::Result<()> {
    let odd = mask(1, 1);
    let any = tie(3, 4, 0, free());
    asked(cases, any, 0, 0, found(0x01, 0x20, 0x20, 0x00))?;
    asked(cases, any, 0x4D, 0x3B, found(0x4D, 0x38, 0x54, 0x1C))?;
    let away = tie(3, 4, 4, odd);
    asked(cases, away, 0xFF, 0xFF, found(0xEF, 0x5D, 0xE1, 0x00))?;
    asked(cases, tie(3, 4, 0, odd), 0, 0, none())?;
    asked(cases, tie(8, 23, 0, odd), 0, 0, none())?;
    asked(cases, tie(11, 52, 0, odd), 0, 0, none())
}

// Differences that lie just after a tie and just before one. With eight dropped bits no sum of this format lies so near.
fn near(cases: &mut Cases<'_, impl Print>) -> io::Result<()> {
    let after = dropping(open(numbers(3, 4, 1, 2)), 3, 0xF, 0x9);
    asked(cases, after, 0xFF, 0xFF, found(0xEF, 0xA7, 0xED, 0x01))?;
    let before = dropping(open(numbers(3, 4, 1, 3)), 3, 0xF, 0x7);
    asked(cases, before, 0x4D, 0x3B, found(0x4D, 0x9F, 0x50, 0x1F))?;
    let nearest = dropping(open(adding(3, 4, 0)), 8, 0x1FF, 0x101);
    asked(cases, nearest, 0, 0, none())
}

// A sum above the largest number has dropped bits: 6F + 41 has A at g = 3.
fn overflow(cases: &mut Cases<'_, impl Print>) -> io::Result<()> {
    let one = mask(0xFF, 0x6F);
    let other = mask(0xFF, 0x41);
    let up = masked_job(adding(3, 4, 0), one, other, free(), free());
    let zero = masked_job(adding(3, 4, 1), one, other, free(), free());
    asked(
        cases,
        dropping(up, 3, 0xF, 0xA),
        0,
        0,
        found(0x6F, 0x41, 0x70, 0x1C),
    )?;
    asked(
        cases,
        dropping(zero, 3, 0xF, 0xA),
        0,
        0,
        found(0x6F, 0x41, 0x6F, 0x1C),
    )?;
    asked(cases, dropping(up, 3, 0xF, 0xB), 0, 0, none())
}

// No case, whether the sticky bit is fixed to 0 or to 1.
fn impossible(cases: &mut Cases<'_, impl Print>, job: Job) -> io::Result<()> {
    asked(cases, dropping(job, 0, 1, 0), 0, 0, none())?;
    asked(cases, dropping(job, 0, 1, 1), 0, 0, none())
}

// Results whose exponent field is 0, and an infinite or NaN operand; `exponent` has the bits of the field.
fn without(cases: &mut Cases<'_, impl Print>, w: u64, f: u64, exponent: u64) -> io::Result<()> {
    let setting = adding(w, f, 0);
    let small = masked_job(setting, free(), free(), mask(exponent, 0), free());
    let all = mask(exponent, exponent);
    let special = masked_job(setting, all, free(), free(), free());
    impossible(cases, small)?;
    impossible(cases, special)
}

// Where there are no such bits; a result below the smallest normal one is found where none is fixed.
fn no_bits(cases: &mut Cases<'_, impl Print>) -> io::Result<()> {
    let small = masked_job(adding(3, 4, 0), free(), free(), mask(0x70, 0), free());
    asked(cases, small, 0x35, 0x92, found(0x35, 0xB2, 0x0C, 0x02))?;
    without(cases, 3, 4, 0x70)?;
    without(cases, 8, 23, 0x7F800000)?;
    without(cases, 11, 52, 0x7FF0000000000000)
}

pub(crate) fn stated(cases: &mut Cases<'_, impl Print>) -> io::Result<()> {
    masked(cases)?;
    ties(cases)?;
    near(cases)?;
    overflow(cases)?;
    no_bits(cases)
}

// A line for nothing fixed but these.
fn malformed_mask(
    cases: &mut Cases<'_, impl Print>,
    g: u64,
    care: u64,
    value: u64,
) -> io::Result<()> {
    let job = dropping(open(adding(3, 4, 0)), g, care, value);
    asked(cases, job, 0, 0, refused(Cause::DroppedMask))
}

// A g above 8, also where no bit is fixed; a bit above the g + 1 bits; a value outside care, also where no bit is fixed. A g up to 8 is taken.
pub(crate) fn malformed(cases: &mut Cases<'_, impl Print>) -> io::Result<()> {
    malformed_mask(cases, 9, 0, 0)?;
    malformed_mask(cases, 9, 1, 1)?;
    malformed_mask(cases, 0xFFFFFFFFFFFFFFFF, 0, 0)?;
    malformed_mask(cases, 3, 0x10, 0)?;
    malformed_mask(cases, 8, 0x200, 0)?;
    malformed_mask(cases, 3, 1, 2)?;
    malformed_mask(cases, 3, 0, 1)?;
    let taken = dropping(open(adding(3, 4, 0)), 8, 0, 0);
    asked(cases, taken, 0, 0, found(0, 0, 0, 0))
}
