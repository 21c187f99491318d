// W-206: 1 and a number near half a unit of its last place, or both with the sign -, every bit below the last one fixed: ties, the numbers
// next to a tie, exact and inexact sums. In each mode, at f = 2, 23 and 52. b is fixed but for its last two bits; no sum has a carry.
use crate::jobs::{adding, asked, dropping, found, free, mask, none};
use format::Format;
use job::words::masked_job;
use std::io;
use tally::Cases;

// A format, the greatest word of it, the mode that rounds away from zero, and the words of 1, of half a unit of 1's last place, of the number
// four places before that half, and of the unit.
#[derive(Clone, Copy)]
struct Words {
    format: Format,
    all: u64,
    away: u64,
    one: u64,
    half: u64,
    before: u64,
    unit: u64,
}

// What is asked: a mode, and the bits of g dropped bits and the sticky bit.
#[derive(Clone, Copy)]
struct Question {
    mode: u64,
    g: u64,
    bits: u64,
}

// The bits that are asked for, a number that is to have them and, where it has, how many places after 1 the sum is.
#[derive(Clone, Copy)]
struct Sum {
    value: u64,
    b: u64,
    places: Option<u64>,
}

// A line: b is the number, but for its last two bits.
fn line(
    cases: &mut Cases<'_, impl Print>,
    words: Words,
    question: Question,
    sum: Sum,
) -> io::Result<()> {
    let setting = adding(words.format.w, words.format.f, question.mode);
    let one = mask(words.all, words.one);
    let near = mask(words.all / 4 * 4, sum.b / 4 * 4);
    let job = masked_job(setting, one, near, free(), free());
    let expected = match sum.places {
        Some(places) => found(words.one, sum.b, words.one | places, 0),
        None => none(),
    };
    let job = dropping(job, question.g, question.bits, sum.value);
    asked(cases, job, 0, 0, expected)
}

// The first dropped bit is 1, the others and the sticky bit are 0: half a unit.
fn tie(words: Words, question: Question) -> Sum {
    let up = (question.mode == words.away) | (question.mode == 4);
    Sum {
        value: question.bits / 2 + 1,
        b: words.half,
        places: Some(u64::from(up)),
    }
}

// The sticky bit is 1 too: the next number. At f = 2 its last bit is the third dropped one, and nothing is left for the sticky bit.
fn after_tie(words: Words, question: Question) -> Sum {
    let up = (question.mode == 0) | (question.mode == words.away) | (question.mode == 4);
    let exists = (words.format.f != 2) | (question.g < 3);
    Sum {
        value: question.bits / 2 + 2,
        b: words.half | 1,
        places: exists.then_some(u64::from(up)),
    }
}

// The last two bits of a number before half a unit: at f = 2 it has as many ones as are asked for.
fn last_bits(f: u64, g: u64) -> u64 {
    if (f != 2) | (g == 1) {
        0
    } else if g == 2 {
        1
    } else {
        3
    }
}

// The first dropped bit is 0 and all else 1: a number before half a unit. At f = 2 it has three ones at most.
fn before_tie(words: Words, question: Question) -> Sum {
    let f = words.format.f;
    let exists = (f != 2) | (question.g < 4);
    Sum {
        value: question.bits / 2,
        b: words.before | last_bits(f, question.g),
        places: exists.then_some(u64::from(question.mode == words.away)),
    }
}

// The sticky bit alone is 0: 1 and a unit.
fn exact(words: Words) -> Sum {
    Sum {
        value: 0,
        b: words.unit,
        places: Some(1),
    }
}

// It is 1: 1 and the number after a unit.
fn inexact(words: Words, mode: u64) -> Sum {
    Sum {
        value: 1,
        b: words.unit | 1,
        places: Some(if mode == words.away { 2 } else { 1 }),
    }
}

// The sticky bit alone.
fn sticky(cases: &mut Cases<'_, impl Print>, words: Words, mode: u64) -> io::Result<()> {
    let question = Question {
        mode,
        g: 0,
        bits: 1,
    };
    line(cases, words, question, exact(words))?;
    line(cases, words, question, inexact(words, mode))
}

// A tie, and the numbers next to it.
fn near(cases: &mut Cases<'_, impl Print>, words: Words, question: Question) -> io::Result<()> {
    line(cases, words, question, tie(words, question))?;
    line(cases, words, question, after_tie(words, question))?;
    line(cases, words, question, before_tie(words, question))
}

// The same words with the sign -.
fn negative(words: Words) -> Words {
    let sign = words.all ^ (words.all / 2);
    Words {
        away: 3,
        one: words.one | sign,
        half: words.half | sign,
        before: words.before | sign,
        unit: words.unit | sign,
        ..words
    }
}

// Each g, the odd ones with the sign -.
fn every_g(cases: &mut Cases<'_, impl Print>, words: Words, mode: u64) -> io::Result<()> {
    sticky(cases, words, mode)?;
    for g in 1..9 {
        let bits = 0x1FF >> (8 - g);
        let signed = if g % 2 == 0 { words } else { negative(words) };
        near(cases, signed, Question { mode, g, bits })?;
    }
    Ok(())
}

const SMALL: Words = Words {
    format: Format { w: 5, f: 2 },
    all: 0xFF,
    away: 2,
    one: 0x3C,
    half: 0x30,
    before: 0x2C,
    unit: 0x34,
};

const SINGLE: Words = Words {
    format: Format { w: 8, f: 23 },
    all: 0xFFFFFFFF,
    away: 2,
    one: 0x3F800000,
    half: 0x33800000,
    before: 0x337FFFFC,
    unit: 0x34000000,
};

const DOUBLE: Words = Words {
    format: Format { w: 11, f: 52 },
    all: 0xFFFFFFFFFFFFFFFF,
    away: 2,
    one: 0x3FF0000000000000,
    half: 0x3CA0000000000000,
    before: 0x3C9FFFFFFFFFFFFC,
    unit: 0x3CB0000000000000,
};

pub(crate) fn ties(cases: &mut Cases<'_, impl Print>) -> io::Result<()> {
    for words in [SMALL, SINGLE, DOUBLE] {
        for mode in 0..5 {
            every_g(cases, words, mode)?;
        }
    }
    Ok(())
}
