// Cases 1 to 4, 12 and 13 of document 01, a tie in double precision, borrows of equal exponents, dropped bits, bounds and one job for each
// cause of bad input, through the case generator.
#![tactic(auto)]

mod bounded;
mod difference;
mod document;
mod dropped;
mod jobs;
mod line;
mod near;

use std::io;
use tally::Cases;

fn main(rt: HostRuntime) -> io::Result<()> {
    let mut cases = Cases::new(&rt);
    document::masked_cases(&mut cases)?;
    document::carry_fixed(&mut cases)?;
    document::limits(&mut cases)?;
    document::impossible_signs(&mut cases)?;
    document::double_tie(&mut cases)?;
    document::borrows(&mut cases)?;
    near::ties(&mut cases)?;
    difference::ties(&mut cases)?;
    dropped::stated(&mut cases)?;
    bounded::stated(&mut cases)?;
    document::bad_input(&mut cases)?;
    dropped::malformed(&mut cases)?;
    bounded::malformed(&mut cases)?;
    cases.put_count()
}
