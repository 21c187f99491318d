// The whole-number generator on document 01's case 11, on fixed jobs of the lengths 31 and 32, and on one job for each refusal.
#![tactic(auto)]

use format::Cause;
use mask::Mask;
use std::{fmt, io};
use whole::{Case, Job, Masks, Words};

fn free() -> Mask {
    Mask { care: 0, value: 0 }
}

fn fixed(care: u64, value: u64) -> Mask {
    Mask { care, value }
}

fn job(length: u64, x: Mask, y: Mask, z: Mask, carries: Mask, words: Words) -> Job {
    let masks = Masks { x, y, z, carries };
    Job {
        length,
        masks,
        words,
    }
}

fn words(x: u64, y: u64, z: u64) -> Words {
    Words { x, y, z }
}

// A reply: the case, or the number of the refusal.
#[derive(Clone, Copy)]
struct Shown(Result<Case, Cause>);

impl fmt::Display for Shown {
    fn fmt<W: fmt::Write>(&self, f: &mut fmt::Formatter<W>) -> fmt::Result {
        match self.0 {
            Ok(c) => {
                let Case { x, y, z, carries } = c;
                write!(f, "found {x:08x} {y:08x} {z:08x} {carries:09x}")
            }
            Err(cause) => write!(f, "refused {cause}"),
        }
    }
}

// A line for a job: the reply to it.
fn show(rt: &impl Print, job: Job) -> io::Result<()> {
    println!(rt; "{}", Shown(whole::generate(job)))
}

// Document 01, case 11.
fn show_case_11(rt: &impl Print) -> io::Result<()> {
    show(
        rt,
        job(
            2,
            fixed(3, 3),
            fixed(3, 1),
            free(),
            fixed(1, 0),
            words(0, 0, 0),
        ),
    )
}

fn show_length_32(rt: &impl Print) -> io::Result<()> {
    show(
        rt,
        job(
            32,
            free(),
            free(),
            free(),
            free(),
            words(0xdead_beef, 0xcafe_babe, 0x1234_5678),
        ),
    )?;
    show(
        rt,
        job(
            32,
            fixed(0xffff_ffff, 0xffff_ffff),
            fixed(0xffff_ffff, 1),
            free(),
            fixed(1, 0),
            words(0, 0, 0),
        ),
    )?;
    // A carry out of x = 0: only y all ones with a carry in.
    show(
        rt,
        job(
            32,
            fixed(0xffff_ffff, 0),
            free(),
            free(),
            fixed(0x1_0000_0000, 0x1_0000_0000),
            words(0, 0, 0),
        ),
    )
}

fn show_length_31(rt: &impl Print) -> io::Result<()> {
    show(
        rt,
        job(
            31,
            fixed(0x5555_5555, 0x5050_5050),
            fixed(0x0f0f_0f0f, 0x0a05_0a05),
            fixed(0x7000_0001, 0x2000_0001),
            fixed(0x8000_8080, 0x8000_0080),
            words(0x1234_5678, 0x0bad_f00d, 0x7fff_ffff),
        ),
    )?;
    show(
        rt,
        job(
            31,
            fixed(0x7fff_ffff, 0),
            fixed(0x7fff_ffff, 0),
            fixed(0x4000_0000, 0x4000_0000),
            free(),
            words(0, 0, 0),
        ),
    )
}

fn show_refused(rt: &impl Print) -> io::Result<()> {
    show(
        rt,
        job(0, fixed(1, 3), free(), free(), free(), words(4, 0, 0)),
    )?;
    show(rt, job(33, free(), free(), free(), free(), words(0, 0, 0)))?;
    show(rt, job(2, free(), free(), free(), free(), words(0, 0, 4)))
}

// The reply for masks of a length of 2, with a word that is too long.
fn show_masks(rt: &impl Print, x: Mask, y: Mask, z: Mask, carries: Mask) -> io::Result<()> {
    show(rt, job(2, x, y, z, carries, words(4, 0, 0)))
}

// Of malformed masks the first is named, and the word where there is none.
fn show_malformed(rt: &impl Print) -> io::Result<()> {
    show_masks(rt, fixed(4, 0), fixed(4, 0), fixed(4, 0), fixed(8, 0))?;
    show_masks(rt, free(), fixed(1, 3), fixed(1, 3), fixed(8, 0))?;
    show_masks(rt, free(), free(), fixed(4, 0), fixed(8, 0))?;
    show_masks(rt, free(), free(), free(), fixed(8, 0))?;
    show_masks(rt, free(), free(), free(), fixed(7, 7))
}

fn main(rt: HostRuntime) -> io::Result<()> {
    show_case_11(&rt)?;
    show_length_32(&rt)?;
    show_length_31(&rt)?;
    show_refused(&rt)?;
    show_malformed(&rt)?;
    println!(rt; "end")
}
