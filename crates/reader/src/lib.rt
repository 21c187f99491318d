// A reader of a job file that carries the lent bytes along, with the offset of the next record. `drawn_at` does the work on a plain slice;
// `next` takes the reader apart and calls that one; `draw` stands above, has plain parameters, and makes a reader for one draw: whoever
// goes on keeps the offset that it hands back.
#![tactic(auto)]

ghost use Rattle.std.specs.Prelude.{◌≡◌};
ghost use Rattle.reader.specs.Drawn.{drawn_at};

use format::Cause;
use layout::Entry;
use records::read;

// The bytes of a job file, and the offset of the next record.
#[derive(Clone, Copy)]
pub struct Reader<'a> {
    pub file: &'a [u8],
    pub at: usize,
}

// What stands at an offset of a job file, and the offset after it.
#[derive(Clone, Copy)]
pub struct Drawn {
    pub first: Result<Option<(Entry, usize)>, Cause>,
    pub next: usize,
}

// What stands at an offset. Past the last byte it is the end.
pub fn drawn_at(file: &[u8], at: usize) -> Drawn
    ensures { result ≡ drawn_at file.now at }
{
    if file.len() <= at {
        return Drawn {
            first: Ok(None),
            next: at,
        };
    }
    let first = read(&file[at..]);
    match first {
        Ok(Some((_, n))) => {
            let end = at + n;
            Drawn { first, next: end }
        }
        Ok(None) => Drawn { first, next: at },
        Err(_) => Drawn { first, next: at },
    }
}

// A reader of the file at an offset.
pub fn reader_at<'a>(file: &'a [u8], at: usize) -> Reader<'a>
    ensures { (result.file ≡ file.entry) × (result.at ≡ at) }
{
    Reader { file, at }
}

// What stands at the reader's offset.
pub fn next<'a>(r: Reader<'a>) -> Drawn
    ensures { result ≡ drawn_at r.entry.file.now r.entry.at }
{
    drawn_at(r.file, r.at)
}

// What a reader of the file at this offset draws.
pub fn draw(file: &[u8], at: usize) -> Drawn
    ensures { result ≡ drawn_at file.now at }
{
    next(reader_at(file, at))
}
