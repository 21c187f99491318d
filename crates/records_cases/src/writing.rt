// Entries written into a buffer of 144 bytes, all 255 before.
use crate::reading::{self, sameness};
use format::{Cause, Format};
use job::Setting;
use job::words::masked_job;
use layout::Entry;
use mask::Mask;
use std::{fmt, io};

fn blank() -> [u8; 144] {
    [255u8; 144]
}

// The count of bytes written, or the number of a refusal.
#[derive(Clone, Copy)]
struct Shown(Result<usize, Cause>);

impl fmt::Display for Shown {
    fn fmt<W: fmt::Write>(&self, f: &mut fmt::Formatter<W>) -> fmt::Result {
        match self.0 {
            Ok(n) => write!(f, "written {n}"),
            Err(cause) => write!(f, "refused {cause}"),
        }
    }
}

// How many bytes a reply says are written.
fn length(reply: Result<usize, Cause>) -> usize {
    reply.unwrap_or(0)
}

// Whether the bytes from n on are as they were.
fn kept(rt: &impl Print, buffer: &[u8], n: usize) -> io::Result<()> {
    let before = blank();
    if n <= buffer.len() && n <= before.len() {
        let same = sameness(buffer[n..] == before[n..]);
        println!(rt; ", after it {same}")?;
    }
    Ok(())
}

// Writes the entry into the first bytes of the buffer.
fn put(rt: &impl Print, entry: Entry, buffer: &mut [u8], room: usize) -> io::Result<()> {
    if room <= buffer.len() {
        let reply = records::write(entry, &mut buffer[..room]);
        print!(rt; "{}", Shown(reply))?;
        kept(rt, buffer, length(reply))?;
    }
    Ok(())
}

pub(crate) fn show(rt: &impl Print, entry: Entry, room: usize) -> io::Result<()> {
    let mut buffer = blank();
    put(rt, entry, &mut buffer, room)
}

// Whether the first n bytes are the same.
fn compare(rt: &impl Print, buffer: &[u8], s: &[u8], n: usize) -> io::Result<()> {
    if n <= buffer.len() && n <= s.len() {
        let same = sameness(buffer[..n] == s[..n]);
        print!(rt; ", record {same}")?;
    }
    Ok(())
}

// Reads a record and writes its entry: the bytes that were read.
pub(crate) fn back(rt: &impl Print, s: &[u8]) -> io::Result<()> {
    let Ok(Some((entry, n))) = records::read(s) else {
        return Ok(());
    };
    let mut buffer = blank();
    let reply = records::write(entry, &mut buffer);
    print!(rt; "{}", Shown(reply))?;
    compare(rt, &buffer, s, n)?;
    kept(rt, &buffer, n)
}

// Writes an entry, and reads and writes what then stands in the buffer.
pub(crate) fn read_back(rt: &impl Print, entry: Entry) -> io::Result<()> {
    let mut buffer = blank();
    let reply = records::write(entry, &mut buffer);
    print!(rt; "{}; ", Shown(reply))?;
    reading::show(rt, &buffer)?;
    back(rt, &buffer)
}

pub(crate) fn example(rt: &impl Print) -> io::Result<()> {
    let bytes = reading::file();
    back(rt, &bytes)?;
    back(rt, records::rest(&bytes))
}

// One mask for a, b and c, and another for the carries.
fn entry(format: Format, operation: u64, mode: u64, mask: Mask, carries: Mask, r1: u64) -> Entry {
    let setting = Setting {
        format,
        operation,
        mode,
    };
    let job = masked_job(setting, mask, mask, mask, carries);
    Entry { job, r1, r2: 0 }
}

fn sized(w: u64, f: u64) -> Format {
    Format { w, f }
}

fn fixed(care: u64, value: u64) -> Mask {
    Mask { care, value }
}

fn free() -> Mask {
    fixed(0, 0)
}

// An entry with every field but that of the dropped bits, and one with none, but perhaps the care of the carries and a random word.
pub(crate) fn masked(w: u64, f: u64) -> Entry {
    entry(
        sized(w, f),
        1,
        3,
        fixed(0xe6, 0x44),
        fixed(0x1f, 0x15),
        0xff,
    )
}

pub(crate) fn shortest(carries: u64, r1: u64) -> Entry {
    entry(sized(3, 4), 0, 0, free(), fixed(carries, 0), r1)
}

// The longest record of either word size that has no dropped bits, in a buffer that is long enough and in one that is a byte short; the
// shortest alike.
pub(crate) fn lengths(rt: &impl Print) -> io::Result<()> {
    show(rt, masked(3, 4), 45)?;
    show(rt, masked(3, 4), 44)?;
    show(rt, masked(11, 52), 85)?;
    show(rt, masked(11, 52), 84)?;
    show(rt, shortest(0, 0), 4)?;
    show(rt, shortest(0, 0), 3)
}

// One entry for each of the refusals 1 to 6 and for 16, half of them with no room at all, since 11 comes last.
pub(crate) fn refusals(rt: &impl Print) -> io::Result<()> {
    show(rt, entry(sized(1, 4), 0, 0, free(), free(), 0), 64)?;
    show(rt, entry(sized(3, 53), 0, 0, free(), free(), 0), 0)?;
    show(rt, entry(sized(3, 4), 2, 0, free(), free(), 0), 64)?;
    show(rt, entry(sized(3, 4), 0, 5, free(), free(), 0), 0)?;
    show(rt, entry(sized(3, 4), 0, 0, fixed(0x100, 0), free(), 0), 64)?;
    show(rt, entry(sized(3, 4), 0, 0, free(), fixed(0x20, 0), 0), 0)?;
    show(rt, entry(sized(3, 4), 0, 0, fixed(0, 1), free(), 0), 64)?;
    show(rt, entry(sized(3, 4), 0, 0, free(), free(), 0x100), 0)
}

// Of these masks the first that is malformed is named, before the first random word, which is too wide, and with no room.
fn show_masks(rt: &impl Print, a: Mask, b: Mask, c: Mask, carries: Mask) -> io::Result<()> {
    let setting = Setting {
        format: sized(3, 4),
        operation: 0,
        mode: 0,
    };
    let job = masked_job(setting, a, b, c, carries);
    show(
        rt,
        Entry {
            job,
            r1: 0x100,
            r2: 0,
        },
        0,
    )
}

pub(crate) fn malformed_masks(rt: &impl Print) -> io::Result<()> {
    show_masks(rt, fixed(0, 1), fixed(0, 1), fixed(0, 1), fixed(0, 1))?;
    show_masks(rt, free(), fixed(0, 1), fixed(0, 1), fixed(0, 1))?;
    show_masks(rt, free(), free(), fixed(0, 1), fixed(0, 1))?;
    show_masks(rt, free(), free(), free(), fixed(0, 1))
}
