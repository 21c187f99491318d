// The listing of a job file, line by line: what is printed for a file is what the steps say, one after the other.
#![tactic(auto)]

mod say;
pub mod text;

ghost use Rattle.std.specs.Prelude.{◌≡◌, true, false, ◌⊎◌, ◌<◌};
ghost use Rattle.lines.specs.Listing.{start, stops, longest, Reading};
ghost use Rattle.lines.specs.Step.{Steps, Answers};

use format::Cause;
use generator::{Case, generate};
use layout::Entry;
use reader::draw;
use say::{end_line, long_line, refused_line, reply_line};
use text::Line;

// The longest file that is listed, in bytes.
pub const LONGEST: usize = 65536;
// No listing has more lines before its last one.
const MOST_LINES: u64 = 65536;

// Where a listing stands: the offset of the next record, the count of the lines before, and whether reading has stopped.
#[derive(Clone, Copy)]
pub struct Place {
    pub at: usize,
    pub lines: u64,
    pub stopped: bool,
}

// A line, and the place that comes after it, none after the last.
#[derive(Clone, Copy)]
pub struct Step {
    pub line: Line,
    pub then: Option<Place>,
}

// Where a listing begins.
pub fn first_place() -> Place
    ensures { result ≡ start }
{
    Place {
        at: 0,
        lines: 0,
        stopped: false,
    }
}

// Whether reading stops after the reply.
fn stops(reply: Result<Case, Cause>) -> bool
    ensures { result ≡ stops reply }
{
    !matches!(reply, Ok(_) | Err(Cause::NoCase))
}

// Line n for the generator's reply to an entry; the next record stands at `next`.
fn answered(entry: Entry, n: u64, next: usize) -> Step
    ensures { Answers entry n next result }
{
    let reply = generate(entry.job, entry.r1, entry.r2);
    let stopped = stops(reply);
    let line = reply_line(entry.job.setting.format, n, reply);
    let place = Place {
        at: next,
        lines: n,
        stopped,
    };
    Step {
        line,
        then: Some(place),
    }
}

// Whether a record is to be read at a place.
fn reading(place: Place) -> bool
    ensures { (result ≡ true → Reading place) × (result ≡ false → (place.stopped ≡ true) ⊎ (longest < place.lines)) }
{
    !place.stopped && place.lines <= MOST_LINES
}

// The line that comes next at a place of a file, and what comes after it.
pub fn next_line(file: &[u8], place: Place) -> Step
    ensures { Steps file.now place result }
{
    if LONGEST < file.len() {
        return Step {
            line: long_line(),
            then: None,
        };
    }
    if !reading(place) {
        return Step {
            line: end_line(place.lines),
            then: None,
        };
    }
    let drawn = draw(file, place.at);
    let n = place.lines + 1;
    match drawn.first {
        Ok(None) => Step {
            line: end_line(place.lines),
            then: None,
        },
        Err(cause) => Step {
            line: refused_line(n, cause.number()),
            then: Some(Place {
                at: place.at,
                lines: n,
                stopped: true,
            }),
        },
        Ok(Some((entry, _))) => answered(entry, n, drawn.next),
    }
}
