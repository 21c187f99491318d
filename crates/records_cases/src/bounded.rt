// W-207: the second map and the bounds that it announces, each low one before its high one; read, written, and each of their refusals.
use crate::{dropped, reading, writing};
use bounds::Ends;
use job::words::{wanted, with_wanted};
use job::{Job, Role, Wanted};
use layout::Entry;
use std::io;

// Records of format 3/4 with a second map.
pub(crate) const READ: &[&[u8]] = &[
    // bounds of a, of b and of c: from 1 to infinity, from -1 to 1, from -infinity to -0
    b"\x80\x01\x03\x04\x00\x30\x00\x00\x00\x70\x00\x00\x00",
    b"\x80\x02\x03\x04\x00\xb0\x00\x00\x00\x30\x00\x00\x00",
    b"\x80\x04\x03\x04\x00\xf0\x00\x00\x00\x80\x00\x00\x00",
    // of b and c; after the mask of a and the dropped bits, of a
    b"\x80\x06\x03\x04\x00\xb0\x00\x00\x00\x30\x00\x00\x00\x30\x00\x00\x00\x70\x00\x00\x00",
    b"\xc1\x01\x03\x04\x00\x01\x00\x00\x00\x01\x00\x00\x00\x03\x0f\x00\x09\x00\x30\x00\x00\x00\x70\x00\x00\x00",
    // of c in 8/24, whose words have eight bytes, and a byte short
    b"\x80\x04\x08\x18\x00\x00\x00\x00\x7f\x00\x00\x00\x00\x00\x00\x00\xff\x00\x00\x00\x00",
    b"\x80\x04\x08\x18\x00\x00\x00\x00\x7f\x00\x00\x00\x00\x00\x00\x00\xff\x00\x00\x00",
    // zeros as ends: from +0 to -0, from -0 to +0, and from +0 to +0, which says no default
    b"\x80\x01\x03\x04\x00\x00\x00\x00\x00\x80\x00\x00\x00",
    b"\x80\x01\x03\x04\x00\x80\x00\x00\x00\x00\x00\x00\x00",
    b"\x80\x01\x03\x04\x00\x00\x00\x00\x00\x00\x00\x00\x00",
];

// Records that are cut short, that have a map bit without a meaning, or whose second map is empty.
pub(crate) const SECOND_MAP: &[&[u8]] = &[
    // cut after the first map, after the second, after the header, and a byte before the end
    b"\x80",
    b"\x80\x01",
    b"\x80\x01\x03\x04\x00",
    b"\x80\x01\x03\x04\x00\x30\x00\x00\x00\x70\x00\x00",
    // bits 3 to 7 of the second map, cut and not
    b"\x80\x08",
    b"\x80\x80\x03\x04\x00",
    b"\x80\x09\x03\x04\x00\x30\x00\x00\x00\x70\x00\x00\x00",
    b"\x80\xf8\x00\x04\x00",
    // an empty second map, cut and not
    b"\x80\x00\x03\x04",
    b"\x80\x00\x03\x04\x00",
    // it comes after 1, 3, 5 and 6
    b"\x80\x00\x01\x04\x00",
    b"\x80\x00\x03\x04\x02",
    b"\x81\x00\x03\x04\x00\x00\x00\x00\x00\x01\x00\x00\x00",
    b"\xa0\x00\x03\x04\x00\x00\x01\x00\x00\x00\x00\x00\x00",
];

// Ends that are refused: 18, after every 6 and before 10.
pub(crate) const ORDER: &[&[u8]] = &[
    // a NaN as the low end, as the high one, and below zero; low above high
    b"\x80\x01\x03\x04\x00\x71\x00\x00\x00\x70\x00\x00\x00",
    b"\x80\x02\x03\x04\x00\x30\x00\x00\x00\x7f\x00\x00\x00",
    b"\x80\x04\x03\x04\x00\xf1\x00\x00\x00\x70\x00\x00\x00",
    b"\x80\x04\x03\x04\x00\x31\x00\x00\x00\x30\x00\x00\x00",
    b"\x80\x04\x03\x04\x00\xb0\x00\x00\x00\xb1\x00\x00\x00",
    // too wide: the low end, the high one; that of c, and a random word, before a NaN of a
    b"\x80\x01\x03\x04\x00\x00\x01\x00\x00\x70\x00\x00\x00",
    b"\x80\x01\x03\x04\x00\x30\x00\x00\x00\x00\x01\x00\x00",
    b"\x80\x05\x03\x04\x00\x71\x00\x00\x00\x70\x00\x00\x00\x30\x00\x00\x00\x00\x01\x00\x00",
    b"\xa0\x01\x03\x04\x00\x00\x01\x00\x00\x00\x00\x00\x00\x71\x00\x00\x00\x70\x00\x00\x00",
    // a mode that says its default, with a low end above the high one, and with a legal one
    b"\x90\x01\x03\x04\x00\x00\x31\x00\x00\x00\x30\x00\x00\x00",
    b"\x90\x01\x03\x04\x00\x00\x30\x00\x00\x00\x30\x00\x00\x00",
    // a dropped mask that is malformed, before all of these
    b"\xc0\x01\x03\x04\x00\x09\x00\x00\x00\x00\x00\x01\x00\x00\x30\x00\x00\x00",
];

// The job with bounds of one word.
fn bounded(job: Job, role: Role, low: u64, high: u64) -> Job {
    let mask = wanted(job, role).mask;
    let bounds = Some(Ends { low, high });
    with_wanted(job, role, Wanted { mask, bounds })
}

// The entry with bounds of one word.
fn with(entry: Entry, role: Role, low: u64, high: u64) -> Entry {
    Entry {
        job: bounded(entry.job, role, low, high),
        ..entry
    }
}

// The entry with the same bounds of all three words.
fn with_all(entry: Entry, low: u64, high: u64) -> Entry {
    let a = with(entry, Role::A, low, high);
    let b = with(a, Role::B, low, high);
    with(b, Role::C, low, high)
}

// The same in writing: the longest records of either word size, in buffers that are long enough and a byte short, and read back; one field
// of bounds alone; the refusals.
pub(crate) fn written(rt: &impl Print) -> io::Result<()> {
    let narrow = with_all(dropped::longest(3, 4), 0xf0, 0x70);
    let wide = with_all(
        dropped::longest(11, 52),
        0xfff0000000000000,
        0x7ff0000000000000,
    );
    writing::show(rt, narrow, 75)?;
    writing::show(rt, narrow, 74)?;
    writing::show(rt, wide, 139)?;
    writing::show(rt, wide, 138)?;
    writing::read_back(rt, narrow)?;
    writing::read_back(rt, wide)?;
    let short = writing::shortest(0, 0);
    writing::show(rt, with(short, Role::B, 0, 0), 13)?;
    writing::show(rt, with(short, Role::B, 0, 0), 12)?;
    writing::read_back(rt, with(short, Role::B, 0, 0))?;
    // a NaN and a low end above the high one, each with no room; a bound that is too wide, also after a NaN
    writing::show(rt, with(short, Role::A, 0x71, 0x70), 0)?;
    writing::show(rt, with(short, Role::C, 0x31, 0x30), 0)?;
    writing::show(rt, with(short, Role::B, 0x30, 0x100), 0)?;
    writing::show(
        rt,
        with(with(short, Role::A, 0x71, 0x70), Role::C, 0x100, 0),
        0,
    )?;
    // after 16 and 6
    writing::show(rt, with(writing::shortest(0x20, 0), Role::A, 0x71, 0x70), 0)?;
    writing::show(
        rt,
        with(writing::shortest(0, 0x100), Role::A, 0x71, 0x70),
        0,
    )
}

// What was read is written back.
pub(crate) fn back(rt: &impl Print) -> io::Result<()> {
    writing::back(
        rt,
        b"\x80\x06\x03\x04\x00\xb0\x00\x00\x00\x30\x00\x00\x00\x30\x00\x00\x00\x70\x00\x00\x00",
    )?;
    writing::back(
        rt,
        b"\xc0\x01\x03\x04\x00\x03\x0f\x00\x09\x00\x00\x00\x00\x00\x80\x00\x00\x00\xff",
    )
}
