// A case of each kind: the function is asked, and its reply held against the one expected.
use crate::line::{ADD, Carried, Question, Rounded, SUBTRACT};
use crate::words::Sized;
use adder::carry_row::carry_row;
use adder::result::rounded_result;
use format::{Cause, Format};
use std::io;
use tally::Cases;

// A rounded result.
fn result(
    cases: &mut Cases<'_, impl Print>,
    question: Question,
    mode: u64,
    expected: Result<u64, Cause>,
) -> io::Result<()> {
    let Question {
        sized,
        operation,
        a,
        b,
    } = question;
    let reply = rounded_result(sized.format, operation, mode, a, b);
    let digits = sized.digits;
    print!(cases.rt; "{question} mode {mode} = {}", Rounded { reply, digits })?;
    cases.end_line(reply == expected)
}

// A carry row.
fn row(
    cases: &mut Cases<'_, impl Print>,
    question: Question,
    expected: Result<Option<u64>, Cause>,
) -> io::Result<()> {
    let Question {
        sized,
        operation,
        a,
        b,
    } = question;
    let reply = carry_row(sized.format, operation, a, b);
    let digits = sized.digits;
    print!(cases.rt; "{question} row {}", Carried { reply, digits })?;
    cases.end_line(reply == expected)
}

fn adding(sized: Sized, a: u64, b: u64) -> Question {
    Question {
        sized,
        operation: ADD,
        a,
        b,
    }
}

fn subtracting(sized: Sized, a: u64, b: u64) -> Question {
    Question {
        sized,
        operation: SUBTRACT,
        a,
        b,
    }
}

pub(crate) fn sum(
    cases: &mut Cases<'_, impl Print>,
    z: Sized,
    mode: u64,
    a: u64,
    b: u64,
    c: u64,
) -> io::Result<()> {
    result(cases, adding(z, a, b), mode, Ok(c))
}

pub(crate) fn difference(
    cases: &mut Cases<'_, impl Print>,
    z: Sized,
    mode: u64,
    a: u64,
    b: u64,
    c: u64,
) -> io::Result<()> {
    result(cases, subtracting(z, a, b), mode, Ok(c))
}

pub(crate) fn sum_row(
    cases: &mut Cases<'_, impl Print>,
    z: Sized,
    a: u64,
    b: u64,
    carries: u64,
) -> io::Result<()> {
    row(cases, adding(z, a, b), Ok(Some(carries)))
}

pub(crate) fn difference_row(
    cases: &mut Cases<'_, impl Print>,
    z: Sized,
    a: u64,
    b: u64,
    carries: u64,
) -> io::Result<()> {
    row(cases, subtracting(z, a, b), Ok(Some(carries)))
}

pub(crate) fn difference_no_row(
    cases: &mut Cases<'_, impl Print>,
    z: Sized,
    a: u64,
    b: u64,
) -> io::Result<()> {
    row(cases, subtracting(z, a, b), Ok(None))
}

// 0 + 0 in a format of these widths.
fn zeros(w: u64, f: u64) -> Question {
    let sized = Sized {
        format: Format { w, f },
        digits: 8,
    };
    adding(sized, 0, 0)
}

// Zeros in such a format: accepted.
pub(crate) fn accepted(cases: &mut Cases<'_, impl Print>, w: u64, f: u64) -> io::Result<()> {
    result(cases, zeros(w, f), 0, Ok(0))?;
    row(cases, zeros(w, f), Ok(Some(0)))
}

// The same, refused with this number.
pub(crate) fn refused(
    cases: &mut Cases<'_, impl Print>,
    w: u64,
    f: u64,
    cause: Cause,
) -> io::Result<()> {
    result(cases, zeros(w, f), 0, Err(cause))?;
    row(cases, zeros(w, f), Err(cause))
}
