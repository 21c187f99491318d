// Compares addition in mode 0 with the language's own, in single and in double precision, on 131,072 pairs each from a fixed generator: 16,384
// of each class.
#![tactic(auto)]

mod compare;
mod pairs;

use crate::compare::{Precision, Verdict, compared};
use crate::pairs::{Class, Generator};
use std::{fmt, io};

const PAIRS: u64 = 16384;

// How many pairs gave the same word, a NaN on both sides, and unlike answers.
#[derive(Clone, Copy, Default)]
struct Tally {
    equal: u64,
    nan: u64,
    unlike: u64,
}

impl Tally {
    // One more pair with this verdict.
    fn count(&mut self, verdict: Verdict) {
        match verdict {
            Verdict::Equal => self.equal = self.equal.wrapping_add(1),
            Verdict::BothNan => self.nan = self.nan.wrapping_add(1),
            Verdict::Unlike => self.unlike = self.unlike.wrapping_add(1),
        }
    }

    // The pairs of another tally too.
    fn add(&mut self, other: Tally) {
        self.equal = self.equal.wrapping_add(other.equal);
        self.nan = self.nan.wrapping_add(other.nan);
        self.unlike = self.unlike.wrapping_add(other.unlike);
    }
}

impl fmt::Display for Tally {
    fn fmt<W: fmt::Write>(&self, f: &mut fmt::Formatter<W>) -> fmt::Result {
        write!(
            f,
            "{} equal, {} NaN, {} unlike",
            self.equal, self.nan, self.unlike
        )
    }
}

// All pairs of a class.
fn run(precision: Precision, class: Class, generator: &mut Generator) -> Tally {
    let mut tally = Tally::default();
    for _ in 0..PAIRS {
        let pair = class.pair(precision.format(), generator.draw());
        tally.count(compared(precision, pair.a, pair.b));
    }
    tally
}

// The lines of all classes and of their sum.
fn show(rt: &impl Print, precision: Precision, generator: &mut Generator) -> io::Result<()> {
    println!(rt; "{precision} precision")?;
    let mut all = Tally::default();
    for class in Class::ALL {
        let tally = run(precision, class, generator);
        println!(rt; "{class}: {tally}")?;
        all.add(tally);
    }
    println!(rt; "all pairs: {all}")
}

fn main(rt: HostRuntime) -> io::Result<()> {
    let mut generator = Generator::new(88172645463325252);
    show(&rt, Precision::Single, &mut generator)?;
    show(&rt, Precision::Double, &mut generator)
}
