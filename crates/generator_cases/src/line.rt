// What is asked, and what comes, as a line writes them.
use bounds::Ends;
use format::Cause;
use generator::Case;
use job::{Dropped, Job, Wanted};
use mask::Mask;
use std::fmt;

// The mask of this name, by its care and value; nothing where both are 0.
#[derive(Clone, Copy)]
struct NamedMask<'a>(&'a str, Mask);

impl fmt::Display for NamedMask<'_> {
    fn fmt<W: fmt::Write>(&self, f: &mut fmt::Formatter<W>) -> fmt::Result {
        let NamedMask(name, Mask { care, value }) = *self;
        if (care == 0) & (value == 0) {
            return Ok(());
        }
        write!(f, " {name} {care:016x} {value:016x}")
    }
}

// The bounds of the word of this name; nothing where none are stated.
#[derive(Clone, Copy)]
struct NamedBounds<'a>(&'a str, Wanted);

impl fmt::Display for NamedBounds<'_> {
    fn fmt<W: fmt::Write>(&self, f: &mut fmt::Formatter<W>) -> fmt::Result {
        let NamedBounds(name, wanted) = *self;
        match wanted.bounds {
            None => Ok(()),
            Some(Ends { low, high }) => write!(f, " {name} within {low:016x} {high:016x}"),
        }
    }
}

// g, and the care and the value of its mask; nothing where all are 0.
#[derive(Clone, Copy)]
struct Stated(Dropped);

impl fmt::Display for Stated {
    fn fmt<W: fmt::Write>(&self, f: &mut fmt::Formatter<W>) -> fmt::Result {
        let Dropped { g, mask } = self.0;
        if (g == 0) & (mask.care == 0) & (mask.value == 0) {
            return Ok(());
        }
        write!(f, " dropped {g} {:016x} {:016x}", mask.care, mask.value)
    }
}

// A job, and the random words.
#[derive(Clone, Copy)]
pub struct Question {
    pub job: Job,
    pub r1: u64,
    pub r2: u64,
}

impl fmt::Display for Question {
    fn fmt<W: fmt::Write>(&self, f: &mut fmt::Formatter<W>) -> fmt::Result {
        let job = self.job;
        let format = job.setting.format;
        write!(f, "w {} f {}", format.w, format.f)?;
        write!(f, " operation {}", job.setting.operation)?;
        write!(f, " mode {}", job.setting.mode)?;
        write!(f, "{}", NamedMask("a", job.a.mask))?;
        write!(f, "{}", NamedMask("b", job.b.mask))?;
        write!(f, "{}", NamedMask("c", job.c.mask))?;
        write!(f, "{}", NamedMask("carries", job.carries))?;
        write!(f, "{}", Stated(job.dropped))?;
        write!(f, "{}", NamedBounds("a", job.a))?;
        write!(f, "{}", NamedBounds("b", job.b))?;
        write!(f, "{}", NamedBounds("c", job.c))?;
        write!(f, " words {:016x} {:016x}", self.r1, self.r2)
    }
}

// A reply: the case, or the number of the refusal.
#[derive(Clone, Copy)]
pub struct Shown(pub Result<Case, Cause>);

impl fmt::Display for Shown {
    fn fmt<W: fmt::Write>(&self, f: &mut fmt::Formatter<W>) -> fmt::Result {
        let x = match self.0 {
            Ok(x) => x,
            Err(cause) => return write!(f, "refused {cause}"),
        };
        write!(f, "found {:016x} {:016x} {:016x}", x.a, x.b, x.c)?;
        match x.row {
            Some(carries) => write!(f, " {carries:016x}"),
            None => write!(f, " -"),
        }
    }
}
