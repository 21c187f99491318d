// The cases of document 01, "Cases, in hexadecimal", and its causes 1 to 6; of document 02 mode 4 (W-201), the widths of W-202, which mask
// is malformed (W-203, W-206), and the borrows of equal exponents (W-205).
use crate::jobs::{
    adding, asked, both_words, dropping, eight, found, free, mask, none, numbers, open, refused,
};
use format::Cause;
use job::Setting;
use job::words::masked_job;
use mask::Mask;
use std::io;
use tally::Cases;

// 1 to 3. (45, 2B, 4C) row 04 and (4D, 3B, 55) row 1D in mode 0; the second in mode 3, the first in mode 2. W-201: mode 4 as mode 0.
pub(crate) fn masked_cases(cases: &mut Cases<'_, impl Print>) -> io::Result<()> {
    let first = found(0x45, 0x2B, 0x4C, 0x04);
    let second = found(0x4D, 0x3B, 0x55, 0x1D);
    both_words(cases, eight(0, free()), first, second)?;
    both_words(cases, eight(3, free()), second, second)?;
    both_words(cases, eight(2, free()), first, first)?;
    both_words(cases, eight(4, free()), first, second)
}

// 4. Carry position 1 fixed to 1.
pub(crate) fn carry_fixed(cases: &mut Cases<'_, impl Print>) -> io::Result<()> {
    both_words(cases, eight(0, mask(0x02, 0x02)), none(), none())
}

fn accepted(cases: &mut Cases<'_, impl Print>, w: u64, f: u64) -> io::Result<()> {
    asked(cases, open(adding(w, f, 0)), 0, 0, found(0, 0, 0, 0))
}

fn refused_widths(
    cases: &mut Cases<'_, impl Print>,
    w: u64,
    f: u64,
    cause: Cause,
) -> io::Result<()> {
    asked(cases, open(adding(w, f, 0)), 0, 0, refused(cause))
}

// 12, as W-202 moves it. w = 2 and 11 accepted, 1 and 12 refused; f = 2 and 52 accepted, 1 and 53 refused.
pub(crate) fn limits(cases: &mut Cases<'_, impl Print>) -> io::Result<()> {
    accepted(cases, 2, 4)?;
    accepted(cases, 11, 4)?;
    refused_widths(cases, 1, 4, Cause::ExponentBits)?;
    refused_widths(cases, 12, 4, Cause::ExponentBits)?;
    accepted(cases, 3, 2)?;
    accepted(cases, 3, 52)?;
    refused_widths(cases, 3, 1, Cause::FractionBits)?;
    refused_widths(cases, 3, 53, Cause::FractionBits)
}

// Two positive operands and a negative sum, in the format whose words have this sign bit.
fn signs(
    cases: &mut Cases<'_, impl Print>,
    w: u64,
    f: u64,
    sign: u64,
    mode: u64,
) -> io::Result<()> {
    let plus = mask(sign, 0);
    let minus = mask(sign, sign);
    let job = masked_job(adding(w, f, mode), plus, plus, minus, free());
    asked(cases, job, 0, 0, none())
}

// In each mode no case fits.
fn every_mode(cases: &mut Cases<'_, impl Print>, w: u64, f: u64, sign: u64) -> io::Result<()> {
    for mode in 0..5 {
        signs(cases, w, f, sign, mode)?;
    }
    Ok(())
}

// 13. In single precision, and in words of 33 and 64 bits.
pub(crate) fn impossible_signs(cases: &mut Cases<'_, impl Print>) -> io::Result<()> {
    every_mode(cases, 8, 23, 0x80000000)?;
    every_mode(cases, 8, 24, 0x100000000)?;
    every_mode(cases, 11, 52, 0x8000000000000000)
}

// Double precision, 1 plus a half of its last place: a tie, which goes to 1 in mode 0 and to the next number in mode 4; c fixed to that
// number has no case in mode 0.
pub(crate) fn double_tie(cases: &mut Cases<'_, impl Print>) -> io::Result<()> {
    let unity = mask(0xFFFFFFFFFFFFFFFF, 0x3FF0000000000000);
    let half = mask(0xFFFFFFFFFFFFFFFF, 0x3CA0000000000000);
    let next = mask(0xFFFFFFFFFFFFFFFF, 0x3FF0000000000001);
    let even = masked_job(adding(11, 52, 0), unity, half, free(), free());
    let away = masked_job(adding(11, 52, 4), unity, half, next, free());
    let next_up = masked_job(adding(11, 52, 0), unity, half, next, free());
    asked(
        cases,
        even,
        0,
        0,
        found(
            0x3FF0000000000000,
            0x3CA0000000000000,
            0x3FF0000000000000,
            0,
        ),
    )?;
    asked(
        cases,
        away,
        0,
        0,
        found(
            0x3FF0000000000000,
            0x3CA0000000000000,
            0x3FF0000000000001,
            0,
        ),
    )?;
    asked(cases, next_up, 0, 0, none())
}

// W-205. A difference of two numbers with the exponent 3 and any fractions: where every borrow is 1 b is the larger, and where none is and
// b is fixed to a larger one there is no case. And of two with e = 0: 05 - 0A has row 1A.
pub(crate) fn borrows(cases: &mut Cases<'_, impl Print>) -> io::Result<()> {
    let setting = numbers(3, 4, 1, 0);
    let three = mask(0xF0, 0x30);
    let all = masked_job(setting, three, three, free(), mask(0x1F, 0x1F));
    asked(cases, all, 0, 0, found(0x30, 0x31, 0x84, 0x1F))?;
    let larger = masked_job(
        setting,
        mask(0xFF, 0x30),
        mask(0xF1, 0x31),
        free(),
        mask(0x1F, 0x00),
    );
    asked(cases, larger, 0, 0, none())?;
    let zero = mask(0xF0, 0x00);
    let some = masked_job(setting, zero, zero, free(), mask(0x1F, 0x1A));
    asked(cases, some, 0x05, 0x0A, found(0x05, 0x0A, 0x85, 0x1A))
}

// The mask at a place: of the first masks, so many, each fixes nothing, and the others have a bit above every width.
fn above_from(formed: u64, place: u64) -> Mask {
    if place < formed {
        free()
    } else {
        mask(0x100, 0)
    }
}

// A line for a job that is refused: the first masks, so many, are well formed, and the words have a bit above every width.
fn wide(
    cases: &mut Cases<'_, impl Print>,
    setting: Setting,
    formed: u64,
    cause: Cause,
) -> io::Result<()> {
    let job = masked_job(
        setting,
        above_from(formed, 0),
        above_from(formed, 1),
        above_from(formed, 2),
        above_from(formed, 3),
    );
    let last = above_from(formed, 4);
    let job = dropping(job, 0, last.care, last.value);
    asked(cases, job, 0x100, 0x100, refused(cause))
}

// Of the causes 1 to 4 each line has one fewer: the first is named. Masks and words have a bit above every width.
fn first_cause(cases: &mut Cases<'_, impl Print>) -> io::Result<()> {
    wide(cases, numbers(1, 1, 2, 5), 0, Cause::ExponentBits)?;
    wide(cases, numbers(3, 1, 2, 5), 0, Cause::FractionBits)?;
    wide(cases, numbers(3, 4, 2, 5), 0, Cause::Operation)?;
    wide(cases, numbers(3, 4, 0, 5), 0, Cause::Mode)
}

// The same of malformed masks, with the words after them.
fn first_mask(cases: &mut Cases<'_, impl Print>) -> io::Result<()> {
    wide(cases, adding(3, 4, 0), 0, Cause::Mask)?;
    wide(cases, adding(3, 4, 0), 1, Cause::SecondMask)?;
    wide(cases, adding(3, 4, 0), 2, Cause::ThirdMask)?;
    wide(cases, adding(3, 4, 0), 3, Cause::CarryMask)?;
    wide(cases, adding(3, 4, 0), 4, Cause::DroppedMask)?;
    wide(cases, adding(3, 4, 0), 5, Cause::Word)
}

// Words alone too wide.
fn words(cases: &mut Cases<'_, impl Print>, r1: u64, r2: u64) -> io::Result<()> {
    asked(cases, open(adding(3, 4, 0)), r1, r2, refused(Cause::Word))
}

// A value outside care, and a carry above the precision.
fn masks(cases: &mut Cases<'_, impl Print>) -> io::Result<()> {
    let outside = masked_job(adding(3, 4, 0), free(), mask(1, 3), free(), free());
    asked(cases, outside, 0, 0, refused(Cause::SecondMask))?;
    let carry = masked_job(adding(3, 4, 0), free(), free(), free(), mask(0x20, 0x20));
    asked(cases, carry, 0, 0, refused(Cause::CarryMask))
}

pub(crate) fn bad_input(cases: &mut Cases<'_, impl Print>) -> io::Result<()> {
    first_cause(cases)?;
    first_mask(cases)?;
    masks(cases)?;
    words(cases, 0x100, 0)?;
    words(cases, 0, 0x100)
}
