// Cases 5 to 10 and 12 of document 01, with c and the row of case 1, those of document 02, W-201 and W-205, and vectors for IEEE 754
// addition, through the rounded result and the carry row; the vectors in words of 32, 33 and 64 bits.
#![tactic(auto)]

mod ask;
mod document;
mod line;
mod vectors;
mod words;

use crate::words::{DOUBLE, SINGLE, WIDER};
use std::io;
use tally::Cases;

fn main(rt: HostRuntime) -> io::Result<()> {
    let mut cases = Cases::new(&rt);
    document::eight_bit_cases(&mut cases)?;
    document::limits(&mut cases)?;
    vectors::eight_bit(&mut cases)?;
    for words in [SINGLE, WIDER, DOUBLE] {
        vectors::published(&mut cases, words)?;
        vectors::built(&mut cases, words)?;
    }
    cases.put_count()
}
