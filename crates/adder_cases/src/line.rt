// A line for each case: what is asked, and what comes.
use crate::words::Sized;
use format::Cause;
use std::fmt;

pub const ADD: u64 = 0;

pub const SUBTRACT: u64 = 1;

// The operands in a format, with the operation between them.
#[derive(Clone, Copy)]
pub struct Question {
    pub sized: Sized,
    pub operation: u64,
    pub a: u64,
    pub b: u64,
}

impl fmt::Display for Question {
    fn fmt<W: fmt::Write>(&self, f: &mut fmt::Formatter<W>) -> fmt::Result {
        let Sized { format, digits } = self.sized;
        let sign = if self.operation == ADD { "+" } else { "-" };
        write!(
            f,
            "w {} f {}: {:0digits$x} {sign} {:0digits$x}",
            format.w, format.f, self.a, self.b
        )
    }
}

// A rounded result in so many digits, or the number of the refusal.
#[derive(Clone, Copy)]
pub struct Rounded {
    pub reply: Result<u64, Cause>,
    pub digits: usize,
}

impl fmt::Display for Rounded {
    fn fmt<W: fmt::Write>(&self, f: &mut fmt::Formatter<W>) -> fmt::Result {
        let digits = self.digits;
        match self.reply {
            Ok(c) => write!(f, "{c:0digits$x}"),
            Err(cause) => write!(f, "refused {cause}"),
        }
    }
}

// The same of a carry row.
#[derive(Clone, Copy)]
pub struct Carried {
    pub reply: Result<Option<u64>, Cause>,
    pub digits: usize,
}

impl fmt::Display for Carried {
    fn fmt<W: fmt::Write>(&self, f: &mut fmt::Formatter<W>) -> fmt::Result {
        let digits = self.digits;
        match self.reply {
            Ok(Some(carries)) => write!(f, "{carries:0digits$x}"),
            Ok(None) => write!(f, "-"),
            Err(cause) => write!(f, "refused {cause}"),
        }
    }
}
