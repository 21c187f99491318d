// W-206: 1 less a number near a quarter of a unit of its last place. The difference has its first digit one place lower, so that is half a
// unit of its own last place: a tie, and the numbers next to it, every one of eight dropped bits and the sticky bit fixed. In each mode, at
// f = 23 and 52. b is fixed but for its last two bits.
use crate::jobs::{asked, dropping, found, free, mask, numbers};
use format::Format;
use job::words::masked_job;
use std::io;
use tally::Cases;

const SUBTRACT: u64 = 1;

// A format, the greatest word of it, the words of 1, of the number before 1, of a quarter of a unit of 1's last place and of the number four
// places before that quarter, and the borrows of 1 less such a number.
#[derive(Clone, Copy)]
struct Words {
    format: Format,
    all: u64,
    one: u64,
    down: u64,
    quarter: u64,
    before: u64,
    borrows: u64,
}

// A line: c is 1 where the difference is rounded up, else the number before it.
fn line(
    cases: &mut Cases<'_, impl Print>,
    words: Words,
    mode: u64,
    bits: u64,
    b: u64,
    up: bool,
) -> io::Result<()> {
    let setting = numbers(words.format.w, words.format.f, SUBTRACT, mode);
    let one = mask(words.all, words.one);
    let near = mask(words.all / 4 * 4, b / 4 * 4);
    let job = masked_job(setting, one, near, free(), free());
    let c = if up { words.one } else { words.down };
    let expected = found(words.one, b, c, words.borrows);
    asked(cases, dropping(job, 8, 0x1FF, bits), 0, 0, expected)
}

// The tie, the number after it and the one before it: 1 has the even significand of the two that a tie lies between.
fn near(cases: &mut Cases<'_, impl Print>, words: Words, mode: u64) -> io::Result<()> {
    let up = mode == 2;
    let nearest = (mode == 0) | (mode == 4);
    line(cases, words, mode, 0x100, words.quarter, up | nearest)?;
    line(cases, words, mode, 0x0FF, words.quarter | 1, up)?;
    line(cases, words, mode, 0x101, words.before, up | nearest)
}

const SINGLE: Words = Words {
    format: Format { w: 8, f: 23 },
    all: 0xFFFFFFFF,
    one: 0x3F800000,
    down: 0x3F7FFFFF,
    quarter: 0x33000000,
    before: 0x32FFFFFC,
    borrows: 0x7FFFFF,
};

const DOUBLE: Words = Words {
    format: Format { w: 11, f: 52 },
    all: 0xFFFFFFFFFFFFFFFF,
    one: 0x3FF0000000000000,
    down: 0x3FEFFFFFFFFFFFFF,
    quarter: 0x3C90000000000000,
    before: 0x3C8FFFFFFFFFFFFC,
    borrows: 0xFFFFFFFFFFFFF,
};

pub(crate) fn ties(cases: &mut Cases<'_, impl Print>) -> io::Result<()> {
    for words in [SINGLE, DOUBLE] {
        for mode in 0..5 {
            near(cases, words, mode)?;
        }
    }
    Ok(())
}
