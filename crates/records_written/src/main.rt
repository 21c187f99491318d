// The records of pseudo-random jobs, each as a line of the whole buffer that it was written into: for a comparison of the writer outside
// the proof.
#![tactic(auto)]

mod jobs;
mod line;

use std::io;

// Every job, with the room that it is written into.
fn lines(rt: &impl Print, count: u64) -> io::Result<()> {
    let mut state = 1;
    for _ in 0..count {
        state = jobs::following(state);
        line::put(rt, jobs::entry(state), jobs::room(state))?;
    }
    Ok(())
}

fn main(rt: HostRuntime) -> io::Result<()> {
    lines(&rt, 600)
}
