// A program's cases, counted line by line.
#![tactic(auto)]

ghost use Rattle.std.specs.Prelude.{◌≡◌, OnErr, OnOk};
ghost use Rattle.tally.specs.Count.{counted};

use std::{fmt, io};

// How many lines were written, and how many of them say WRONG.
#[derive(Clone, Copy, Default)]
pub struct Count {
    pub lines: u64,
    pub wrong: u64,
}

impl fmt::Display for Count {
    fn fmt<W: fmt::Write>(&self, f: &mut fmt::Formatter<W>) -> fmt::Result {
        write!(f, "{} cases, {} wrong", self.lines, self.wrong)
    }
}

// Where the lines go, and their count so far.
#[derive(Drop)]
pub struct Cases<'a, P: Print> {
    pub rt: &'a P,
    pub count: Count,
}

impl<'a, P: Print> Cases<'a, P> {
    // No line yet.
    pub fn new(rt: &'a P) -> Cases<'a, P>
        ensures lines { result.count.lines ≡ 0 }
        ensures wrong { result.count.wrong ≡ 0 }
    {
        Cases {
            rt,
            count: Count::default(),
        }
    }

    // Ends the line, and counts it once it is written.
    pub fn end_line(&mut self, ok: bool) -> io::Result<()>
        ensures ok { OnOk result (self.new.count ≡ counted self.old.count ok) }
        ensures err { OnErr result (self.new.count ≡ self.old.count) }
    {
        if ok {
            println!(self.rt; " ok")?;
        } else {
            println!(self.rt; " WRONG")?;
            self.count.wrong = self.count.wrong.wrapping_add(1);
        }
        self.count.lines = self.count.lines.wrapping_add(1);
        Ok(())
    }

    // The last line.
    pub fn put_count(&self) -> io::Result<()> {
        println!(self.rt; "{}", self.count)
    }
}
