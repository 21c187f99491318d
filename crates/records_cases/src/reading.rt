// What stands first in given bytes, and the rest after it.
use format::Cause;
use layout::Entry;
use std::{fmt, io};

// The example file of document 01: the jobs of cases 1 and 4.
pub(crate) fn file() -> [u8; 64] {
    *b"\x07\x03\x04\x00\xf7\x00\x00\x00\x45\x00\x00\x00\xef\x00\x00\x00\x2b\x00\x00\x00\xe6\x00\x00\x00\x44\x00\x00\x00\x0f\x03\x04\x00\xf7\x00\x00\x00\x45\x00\x00\x00\xef\x00\x00\x00\x2b\x00\x00\x00\xe6\x00\x00\x00\x44\x00\x00\x00\x02\x00\x00\x00\x02\x00\x00\x00"
}

// What stands first in the bytes.
#[derive(Clone, Copy)]
struct Shown(Result<Option<(Entry, usize)>, Cause>);

impl fmt::Display for Shown {
    fn fmt<W: fmt::Write>(&self, f: &mut fmt::Formatter<W>) -> fmt::Result {
        match self.0 {
            Ok(None) => write!(f, "end"),
            Ok(Some((_, n))) => write!(f, "job of {n}"),
            Err(cause) => write!(f, "refused {cause}"),
        }
    }
}

pub(crate) fn sameness(same: bool) -> &'static str {
    if same { "the same" } else { "other" }
}

// What stands first, and whether the rest is the end of the bytes.
pub(crate) fn show(rt: &impl Print, s: &[u8]) -> io::Result<()> {
    let first = Shown(records::read(s));
    let rest = records::rest(s);
    if rest.len() <= s.len() {
        let from = s.len() - rest.len();
        let same = sameness(rest == &s[from..]);
        println!(rt; "{first}, rest {} {same}", rest.len())?;
    }
    Ok(())
}

pub(crate) fn show_all(rt: &impl Print, records: &[&[u8]]) -> io::Result<()> {
    for s in records {
        show(rt, s)?;
    }
    Ok(())
}

// Three readings, each of the rest that the one before it leaves.
pub(crate) fn example(rt: &impl Print) -> io::Result<()> {
    let bytes = file();
    show(rt, &bytes)?;
    let second = records::rest(&bytes);
    show(rt, second)?;
    show(rt, records::rest(second))
}

// The same three readings, on one line.
fn line(rt: &impl Print, s: &[u8]) -> io::Result<()> {
    let second = records::rest(s);
    let first = Shown(records::read(s));
    let next = Shown(records::read(second));
    let last = Shown(records::read(records::rest(second)));
    println!(rt; "{} bytes: {first}; {next}; {last}", s.len())
}

// The file cut at every place.
fn cut(rt: &impl Print, s: &[u8]) -> io::Result<()> {
    for n in 0..s.len() {
        line(rt, &s[..n])?;
    }
    line(rt, s)
}

pub(crate) fn truncations(rt: &impl Print) -> io::Result<()> {
    let bytes = file();
    cut(rt, &bytes)
}

// One record for each refusal, and for their order.
pub(crate) const REFUSALS: &[&[u8]] = &[
    // w above 11; f below 2; operation 2; mode 5, after mode 4, which is taken
    b"\x00\x0c\x04\x00",
    b"\x00\x03\x01\x00",
    b"\x00\x03\x04\x02",
    b"\x10\x03\x04\x00\x04",
    b"\x10\x03\x04\x00\x05",
    // a mask bit above the word's eight bits, of a, and above the carries' five; a value outside care, of c, and of b where care is 0
    b"\x01\x03\x04\x00\x00\x01\x00\x00\x00\x00\x00\x00",
    b"\x08\x03\x04\x00\x20\x00\x00\x00\x00\x00\x00\x00",
    b"\x04\x03\x04\x00\x01\x00\x00\x00\x03\x00\x00\x00",
    b"\x02\x03\x04\x00\x00\x00\x00\x00\x01\x00\x00\x00",
    // a random word above eight bits
    b"\x20\x03\x04\x00\x00\x00\x00\x00\x00\x01\x00\x00",
    // cut short, before w is looked at
    b"\x00",
    b"\x10\x00\x04\x00",
    // a bit of the second map that has no meaning, before the length is looked at
    b"\x80\x80",
    b"\x80\x08\x04\x00",
    // fields that say their default: a mask, the mode, both random words; and one random word alone, which does not
    b"\x01\x03\x04\x00\x00\x00\x00\x00\x00\x00\x00\x00",
    b"\x10\x03\x04\x00\x00",
    b"\x20\x03\x04\x00\x00\x00\x00\x00\x00\x00\x00\x00",
    b"\x20\x03\x04\x00\x00\x00\x00\x00\x01\x00\x00\x00",
];

// Of malformed masks the first is named, before the first random word, which is too wide, and the mode, which says its default.
pub(crate) const MALFORMED_MASKS: &[&[u8]] = &[
    // of a, b, c and the carries; of b, c and the carries, with a's mask left out; of c and the carries; of the carries
    b"\x3f\x03\x04\x00\x00\x00\x00\x00\x01\x00\x00\x00\x00\x00\x00\x00\x01\x00\x00\x00\x00\x00\x00\x00\x01\x00\x00\x00\x00\x00\x00\x00\x01\x00\x00\x00\x00\x00\x01\x00\x00\x00\x00\x00\x00",
    b"\x3e\x03\x04\x00\x00\x00\x00\x00\x01\x00\x00\x00\x00\x00\x00\x00\x01\x00\x00\x00\x00\x00\x00\x00\x01\x00\x00\x00\x00\x00\x01\x00\x00\x00\x00\x00\x00",
    b"\x3c\x03\x04\x00\x00\x00\x00\x00\x01\x00\x00\x00\x00\x00\x00\x00\x01\x00\x00\x00\x00\x00\x01\x00\x00\x00\x00\x00\x00",
    b"\x38\x03\x04\x00\x00\x00\x00\x00\x01\x00\x00\x00\x00\x00\x01\x00\x00\x00\x00\x00\x00",
];

// Document 01, case 12, as W-202 moves it, with the fields that a record may leave out left out.
pub(crate) const LIMITS: &[&[u8]] = &[
    b"\x00\x01\x04\x00",
    b"\x00\x02\x02\x00",
    b"\x00\x0b\x34\x01",
    b"\x00\x0c\x34\x00",
    b"\x00\x03\x01\x00",
    b"\x00\x03\x35\x00",
];

// Words of four bytes up to 32 bits and of eight from 33 on, by the bytes of w and f even where these are refused.
pub(crate) const WORD_SIZES: &[&[u8]] = &[
    // the random words of 8/23 and of 8/24, each exactly long enough and a byte short
    b"\x20\x08\x17\x00\xff\xff\xff\xff\x00\x00\x00\x00",
    b"\x20\x08\x17\x00\xff\xff\xff\xff\x00\x00\x00",
    b"\x20\x08\x18\x00\xff\xff\xff\xff\x01\x00\x00\x00\x00\x00\x00\x00\x00\x00\x00\x00",
    b"\x20\x08\x18\x00\xff\xff\xff\xff\x01\x00\x00\x00\x00\x00\x00\x00\x00\x00\x00",
    // a bit above 33
    b"\x20\x08\x18\x00\x00\x00\x00\x00\x02\x00\x00\x00\x00\x00\x00\x00\x00\x00\x00\x00",
    // the carries of 8/24 have eight bytes too
    b"\x08\x08\x18\x00\x01\x00\x00\x00\x00\x00\x00\x00\x01\x00\x00\x00\x00\x00\x00\x00",
    // w = 255 and f = 255 have eight bytes a word, w = 0 with f = 31 four and with f = 32 eight: cut short, or refused for w
    b"\x20\xff\xff\x00\x00\x00\x00\x00\x00\x00\x00\x00",
    b"\x20\xff\xff\x00\x01\x00\x00\x00\x00\x00\x00\x00\x00\x00\x00\x00\x00\x00\x00\x00",
    b"\x20\x00\x1f\x00\x01\x00\x00\x00\x00\x00\x00\x00",
    b"\x20\x00\x20\x00\x01\x00\x00\x00\x00\x00\x00\x00",
    // double precision, all bits of both random words
    b"\x20\x0b\x34\x00\xff\xff\xff\xff\xff\xff\xff\xff\xff\xff\xff\xff\xff\xff\xff\xff",
];
