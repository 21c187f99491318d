// Job records: document 01's example file read, written back and cut at every place, and each refusal of reading and of writing.
#![tactic(auto)]

mod bounded;
mod dropped;
mod reading;
mod writing;

use std::io;

fn main(rt: HostRuntime) -> io::Result<()> {
    reading::example(&rt)?;
    writing::example(&rt)?;
    reading::show_all(&rt, reading::REFUSALS)?;
    reading::show_all(&rt, reading::MALFORMED_MASKS)?;
    reading::show_all(&rt, reading::LIMITS)?;
    reading::show_all(&rt, reading::WORD_SIZES)?;
    writing::lengths(&rt)?;
    writing::refusals(&rt)?;
    writing::malformed_masks(&rt)?;
    reading::show_all(&rt, dropped::READ)?;
    reading::show_all(&rt, dropped::ORDER)?;
    dropped::written(&rt)?;
    dropped::back(&rt)?;
    reading::show_all(&rt, bounded::READ)?;
    reading::show_all(&rt, bounded::SECOND_MAP)?;
    reading::show_all(&rt, bounded::ORDER)?;
    bounded::written(&rt)?;
    bounded::back(&rt)?;
    reading::truncations(&rt)
}
