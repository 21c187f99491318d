// The listing of a job file on a stream.
#![tactic(auto)]

ghost use Rattle.std.specs.Prelude.{OnOk};
ghost use Rattle.print.specs.Printed.{Prints};

use lines::{first_place, next_line};
use std::io;
use std::io::Write;

// Writes the listing, line by line as the lines are found, and stops where a line cannot be written.
pub fn print_listing<W: Write>(out: &mut W, file: &[u8]) -> io::Result<()>
    ensures { OnOk result (Prints file.now (W.contents out.old) (W.contents out.new)) }
{
    let mut next = Some(first_place());
    while let Some(place) = next {
        let step = next_line(file, place);
        let bytes = step.line.bytes;
        let n = step.line.len;
        out.write_all(&bytes[..n])?;
        next = step.then;
    }
    Ok(())
}
