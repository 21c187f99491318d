// Reads a job file on standard input and prints its listing.
#![tactic(auto)]

ghost use Rattle.std.specs.Prelude.{IfOk, OnOk, IfSome, ◌≤◌, ◌<◌, length, take};
ghost use Rattle.std.specs.Io.KnownBytes.{Consumes, IsAtEnd};
ghost use Rattle.print.specs.Printed.{Prints};

use print::print_listing;
use std::io;
use std::io::{Read, Write};

// Reads until the buffer is full or the input ends, and says how many bytes were read.
fn read_full<R: Read>(input: &mut R, buffer: &mut [u8]) -> io::Result<usize>
    ensures bound { IfOk result (λ n. n ≤ length buffer.new) }
    ensures bytes { IfOk result (λ n. Consumes (R.remaining input.old) (R.remaining input.new) (take n buffer.new)) }
    ensures end { IfOk result (λ n. n < length buffer.new → IsAtEnd (R.remaining input.new)) }
{
    let mut done = 0;
    while done < buffer.len() {
        let n = input.read(&mut buffer[done..])?;
        if n == 0 {
            return Ok(done);
        }
        done += n;
    }
    Ok(done)
}

// Writes the listing of the file that is read.
fn list<R: Read, W: Write>(input: &mut R, out: &mut W) -> io::Result<()>
    ensures { OnOk result (IfSome (R.remaining input.old) (λ s. Prints s (W.contents out.old) (W.contents out.new))) }
{
    // one byte more than the longest file that is listed
    let mut file = [0u8; 65537];
    let n = read_full(input, &mut file)?;
    print_listing(out, &file[..n])
}

fn main(rt: HostRuntime) -> io::Result<()> {
    list(&mut rt.stdin(), &mut io::writer(&rt))
}
