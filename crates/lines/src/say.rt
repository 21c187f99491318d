// The lines of the listing.
ghost use Rattle.std.specs.Prelude.{◌≤◌};
ghost use Rattle.lines.specs.Text.{Room, Grown, Says, row_text, found_line, none_line, refused_line, reply_line, end_line, long_line};

use crate::text::{Line, empty, with_decimal, with_text, with_word, word_digits};
use format::{Cause, Format};
use generator::Case;

// With a space and the row in k digits, or a dash where there is none.
fn with_row(line: Line, k: u64, row: Option<u64>) -> Line
    requires { (k ≤ 16) × Room line 17 }
    ensures { Grown line result (row_text k row) }
{
    match row {
        Some(x) => with_word(line, k, x),
        None => with_text(line, b" -"),
    }
}

// The line for a case, its words in k digits.
fn found_line(k: u64, n: u64, x: Case) -> Line
    requires { k ≤ 16 }
    ensures { Says result (found_line k n x) }
{
    let number = with_decimal(empty(), n);
    let found = with_text(number, b" found");
    let a = with_word(found, k, x.a);
    let b = with_word(a, k, x.b);
    let c = with_word(b, k, x.c);
    with_text(with_row(c, k, x.row), b"\n")
}

fn none_line(n: u64) -> Line
    ensures { Says result (none_line n) }
{
    with_text(with_decimal(empty(), n), b" none\n")
}

pub(crate) fn refused_line(n: u64, k: u64) -> Line
    ensures { Says result (refused_line n k) }
{
    let number = with_decimal(empty(), n);
    let refused = with_text(number, b" refused ");
    with_text(with_decimal(refused, k), b"\n")
}

// The line for the reply to job n, in the job's format.
#[tactic(auto, unfolding(crate::specs::Text::reply_line))]
pub(crate) fn reply_line(format: Format, n: u64, reply: Result<Case, Cause>) -> Line
    ensures { Says result (reply_line format n reply) }
{
    match reply {
        Ok(x) => found_line(word_digits(format), n, x),
        Err(Cause::NoCase) => none_line(n),
        Err(cause) => refused_line(n, cause.number()),
    }
}

pub(crate) fn end_line(n: u64) -> Line
    ensures { Says result (end_line n) }
{
    let end = with_text(empty(), b"end ");
    with_text(with_decimal(end, n), b"\n")
}

pub(crate) fn long_line() -> Line
    ensures { Says result long_line }
{
    with_text(empty(), b"long\n")
}
