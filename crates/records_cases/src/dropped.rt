// W-206: the field of the dropped bits: g, then care and value of two bytes each; read, written, and each of its refusals.
use crate::{reading, writing};
use job::Dropped;
use layout::Entry;
use mask::Mask;
use std::io;

// Records of format 3/4 with map bit 6.
pub(crate) const READ: &[&[u8]] = &[
    // three dropped bits and the sticky bit fixed, then the most that there are, then the sticky bit alone
    b"\x40\x03\x04\x00\x03\x0f\x00\x09\x00",
    b"\x40\x03\x04\x00\x08\xff\x01\x01\x01",
    b"\x40\x03\x04\x00\x00\x01\x00\x00\x00",
    // cut short
    b"\x40\x03\x04\x00\x03\x0f\x00\x09",
    // g above 8, also where no bit is fixed; a bit above the g + 1 bits; a value outside care, also where care is 0
    b"\x40\x03\x04\x00\x09\x01\x00\x00\x00",
    b"\x40\x03\x04\x00\x09\x00\x00\x00\x00",
    b"\x40\x03\x04\x00\x03\x10\x00\x00\x00",
    b"\x40\x03\x04\x00\x03\x01\x00\x02\x00",
    b"\x40\x03\x04\x00\x03\x00\x00\x01\x00",
    // no bit fixed says the default, whatever g up to 8
    b"\x40\x03\x04\x00\x00\x00\x00\x00\x00",
    b"\x40\x03\x04\x00\x03\x00\x00\x00\x00",
    b"\x40\x03\x04\x00\x08\x00\x00\x00\x00",
];

// 17 after 16, and before a random word that is too wide and a mode that says its default; 9 for a bit of the second map before all of
// them.
pub(crate) const ORDER: &[&[u8]] = &[
    b"\x78\x03\x04\x00\x00\x00\x00\x00\x01\x00\x00\x00\x00\x00\x01\x00\x00\x00\x00\x00\x00\x09\x00\x00\x00\x00",
    b"\x70\x03\x04\x00\x00\x00\x01\x00\x00\x00\x00\x00\x00\x09\x00\x00\x00\x00",
    b"\x70\x03\x04\x00\x00\x00\x01\x00\x00\x00\x00\x00\x00\x08\x00\x00\x00\x00",
    b"\x50\x03\x04\x00\x00\x08\x01\x00\x00\x00",
    b"\xc0\x08\x03\x04\x00\x09\x00\x00\x00\x00",
];

// The entry with something wanted of the dropped bits.
fn with(entry: Entry, g: u64, care: u64, value: u64) -> Entry {
    let mut job = entry.job;
    let dropped = Dropped {
        g,
        mask: Mask { care, value },
    };
    job.dropped = dropped;
    Entry { job, ..entry }
}

// The longest record without bounds.
pub(crate) fn longest(w: u64, f: u64) -> Entry {
    with(writing::masked(w, f), 8, 0x1ff, 0x101)
}

// The same in writing: the longest records, in buffers that are long enough and a byte short; a g that is not written; the refusals.
pub(crate) fn written(rt: &impl Print) -> io::Result<()> {
    let narrow = longest(3, 4);
    let wide = longest(11, 52);
    writing::show(rt, narrow, 50)?;
    writing::show(rt, narrow, 49)?;
    writing::show(rt, wide, 90)?;
    writing::show(rt, wide, 89)?;
    let short = writing::shortest(0, 0);
    writing::show(rt, with(short, 0, 1, 1), 9)?;
    writing::show(rt, with(short, 3, 0, 0), 4)?;
    writing::show(rt, with(short, 3, 0, 0), 3)?;
    // g above 8, also where no bit is fixed; a bit above the g + 1 bits; a value outside care; each with no room
    writing::show(rt, with(short, 9, 1, 1), 0)?;
    writing::show(rt, with(short, 9, 0, 0), 0)?;
    writing::show(rt, with(short, 0xffffffffffffffff, 0, 0), 0)?;
    writing::show(rt, with(short, 3, 0x10, 0), 0)?;
    writing::show(rt, with(short, 3, 1, 2), 0)?;
    // after 16, and before a random word that is too wide
    writing::show(rt, with(writing::shortest(0x20, 0x100), 9, 0, 0), 0)?;
    writing::show(rt, with(writing::shortest(0, 0x100), 9, 0, 0), 0)?;
    writing::show(rt, with(writing::shortest(0, 0x100), 8, 0, 0), 0)
}

// What was read is written back.
pub(crate) fn back(rt: &impl Print) -> io::Result<()> {
    writing::back(rt, b"\x40\x03\x04\x00\x03\x0f\x00\x09\x00")?;
    writing::back(rt, b"\x50\x03\x04\x00\x04\x08\xff\x01\x01\x01\xff")
}
