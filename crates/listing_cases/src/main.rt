// Listings of small files, one for each way in which a listing can go. Document 01's own file is the input of program `listing`.
#![tactic(auto)]

use print::print_listing;
use std::io;

// Files, each with the title of its case.
type Files = &'static [(&'static str, &'static [u8])];

// The title of a case, and the listing of its file.
fn list(rt: &impl Print, title: &str, file: &[u8]) -> io::Result<()> {
    println!(rt; "{title}")?;
    print_listing(&mut io::writer(rt), file)
}

fn list_all(rt: &impl Print, files: Files) -> io::Result<()> {
    for (title, file) in files {
        list(rt, title, file)?;
    }
    Ok(())
}

// Files by their length.
fn lengths(rt: &impl Print) -> io::Result<()> {
    list(rt, "no byte", b"")?;
    let longest = [128u8; 65536];
    list(rt, "65,536 bytes", &longest)?;
    let long = [128u8; 65537];
    list(rt, "65,537 bytes", &long)
}

// Jobs that are listed: positive operands with a negative sum, and then any case; infinite operands, which have no row; a tie in mode 4;
// and the borrows of equal exponents, 30 - 31.
const LISTED: Files = &[
    (
        "none, then found",
        b"\x07\x03\x04\x00\x80\x00\x00\x00\x00\x00\x00\x00\x80\x00\x00\x00\x00\x00\x00\x00\x80\x00\x00\x00\x80\x00\x00\x00\x00\x03\x04\x00",
    ),
    (
        "infinite operand",
        b"\x01\x03\x04\x00\xff\x00\x00\x00\x70\x00\x00\x00",
    ),
    (
        "infinities of unlike sign",
        b"\x03\x03\x04\x01\xff\x00\x00\x00\x70\x00\x00\x00\xff\x00\x00\x00\x70\x00\x00\x00",
    ),
    (
        "tie away",
        b"\x13\x03\x04\x00\xff\x00\x00\x00\x30\x00\x00\x00\xff\x00\x00\x00\x02\x00\x00\x00\x04",
    ),
    (
        "equal exponents",
        b"\x03\x03\x04\x01\xff\x00\x00\x00\x30\x00\x00\x00\xff\x00\x00\x00\x31\x00\x00\x00",
    ),
];

// W-206: 30 + 02 with three dropped bits and the sticky bit fixed: the tie that it is, then a number above a tie, then a g that is refused.
const DROPPED_BITS: Files = &[(
    "dropped bits",
    b"\x43\x03\x04\x00\xff\x00\x00\x00\x30\x00\x00\x00\xff\x00\x00\x00\x02\x00\x00\x00\x03\x0f\x00\x08\x00\x43\x03\x04\x00\xff\x00\x00\x00\x30\x00\x00\x00\xff\x00\x00\x00\x02\x00\x00\x00\x03\x0f\x00\x09\x00\x40\x03\x04\x00\x09\x01\x00\x00\x00",
)];

// W-207: a from 31 to 33; the masks of case 1 with a from 46 to 4C, which shuts both its cases out; and a bound that is a NaN.
const BOUNDS: Files = &[(
    "bounds",
    b"\x80\x01\x03\x04\x00\x31\x00\x00\x00\x33\x00\x00\x00\x87\x01\x03\x04\x00\xf7\x00\x00\x00\x45\x00\x00\x00\xef\x00\x00\x00\x2b\x00\x00\x00\xe6\x00\x00\x00\x44\x00\x00\x00\x46\x00\x00\x00\x4c\x00\x00\x00\x80\x02\x03\x04\x00\x78\x00\x00\x00\x78\x00\x00\x00",
)];

// Eight digits in a format of 32 bits and 16 in one of 33, whatever the values; in double precision a half of the last place of 1 and 1, in
// mode 4, and the largest number and infinity, which have no row.
const WORD_SIZES: Files = &[
    ("32 bits", b"\x00\x08\x17\x00"),
    ("33 bits", b"\x00\x08\x18\x00"),
    (
        "64 bits",
        b"\x13\x0b\x34\x00\xff\xff\xff\xff\xff\xff\xff\xff\x00\x00\x00\x00\x00\x00\xa0\x3c\xff\xff\xff\xff\xff\xff\xff\xff\x00\x00\x00\x00\x00\x00\xf0\x3f\x04",
    ),
    (
        "64 bits, infinite operand",
        b"\x03\x0b\x34\x00\xff\xff\xff\xff\xff\xff\xff\xff\xff\xff\xff\xff\xff\xff\xef\x7f\xff\xff\xff\xff\xff\xff\xff\xff\x00\x00\x00\x00\x00\x00\xf0\x7f",
    ),
];

// A record for each cause that reading finds in numbers, masks and words.
const REFUSED: Files = &[
    ("w too small", b"\x00\x01\x04\x00"),
    ("f too large", b"\x00\x03\x35\x00"),
    ("operation", b"\x00\x03\x04\x02"),
    ("mode", b"\x10\x03\x04\x00\x05"),
    (
        "a's mask too wide",
        b"\x01\x03\x04\x00\x00\x01\x00\x00\x00\x00\x00\x00",
    ),
    (
        "b's mask too wide",
        b"\x02\x03\x04\x00\x00\x01\x00\x00\x00\x00\x00\x00",
    ),
    (
        "c's mask too wide, and the carry mask",
        b"\x0c\x03\x04\x00\x00\x01\x00\x00\x00\x00\x00\x00\x20\x00\x00\x00\x00\x00\x00\x00",
    ),
    (
        "found, then the carry mask too wide",
        b"\x00\x03\x04\x00\x08\x03\x04\x00\x20\x00\x00\x00\x00\x00\x00\x00",
    ),
    (
        "random word too wide",
        b"\x20\x03\x04\x00\x00\x01\x00\x00\x00\x00\x00\x00",
    ),
];

// The same for records that are cut short, whose maps are not as they may be, or that say a default.
const MALFORMED: Files = &[
    ("cut short", b"\x10\x03\x04\x00"),
    ("cut after the first map", b"\x80"),
    ("bit of the second map", b"\x80\x08"),
    ("empty second map", b"\x80\x00\x03\x04\x00"),
    ("default said", b"\x10\x03\x04\x00\x00"),
    (
        "no dropped bit fixed",
        b"\x40\x03\x04\x00\x03\x00\x00\x00\x00",
    ),
    (
        "refused after found",
        b"\x00\x03\x04\x00\x00\x03\x04\x01\x80\x80\x03\x04\x00\x00\x03\x04\x00",
    ),
];

fn main(rt: HostRuntime) -> io::Result<()> {
    lengths(&rt)?;
    for files in [LISTED, DROPPED_BITS, BOUNDS, WORD_SIZES, REFUSED, MALFORMED] {
        list_all(&rt, files)?;
    }
    Ok(())
}
