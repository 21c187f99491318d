// A line: the reply, and all bytes of the buffer.
use format::Cause;
use layout::Entry;
use std::{fmt, io};

// Bytes in two digits each.
#[derive(Clone, Copy)]
struct Digits<'a>(&'a [u8]);

impl fmt::Display for Digits<'_> {
    fn fmt<W: fmt::Write>(&self, f: &mut fmt::Formatter<W>) -> fmt::Result {
        for byte in self.0 {
            write!(f, "{byte:02x}")?;
        }
        Ok(())
    }
}

// The count of bytes written, or the number of a refusal.
#[derive(Clone, Copy)]
struct Shown(Result<usize, Cause>);

impl fmt::Display for Shown {
    fn fmt<W: fmt::Write>(&self, f: &mut fmt::Formatter<W>) -> fmt::Result {
        match self.0 {
            Ok(n) => write!(f, "written {n}"),
            Err(cause) => write!(f, "refused {cause}"),
        }
    }
}

// Writes the entry into the first bytes of a buffer of 141, all 255 before, and the line of it.
pub fn put(rt: &impl Print, entry: Entry, room: usize) -> io::Result<()> {
    let mut buffer = [255u8; 141];
    if room <= buffer.len() {
        let reply = records::write(entry, &mut buffer[..room]);
        println!(rt; "{} {}", Shown(reply), Digits(&buffer))?;
    }
    Ok(())
}
