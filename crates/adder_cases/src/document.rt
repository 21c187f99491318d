// The cases of document 01, "Cases, in hexadecimal", and of document 02, W-201 and W-205.
use crate::ask::{accepted, difference, difference_no_row, difference_row, refused, sum, sum_row};
use crate::words::EIGHT;
use format::Cause;
use std::io;
use tally::Cases;

// 1. (45, 2B, 4C) row 04 and (4D, 3B, 55) row 1D, in mode 0.
fn case_1(cases: &mut Cases<'_, impl Print>) -> io::Result<()> {
    sum(cases, EIGHT, 0, 0x45, 0x2B, 0x4C)?;
    sum_row(cases, EIGHT, 0x45, 0x2B, 0x04)?;
    sum(cases, EIGHT, 0, 0x4D, 0x3B, 0x55)?;
    sum_row(cases, EIGHT, 0x4D, 0x3B, 0x1D)
}

// 5. 30 - 30: 00, but 80 in mode 3.
fn case_5(cases: &mut Cases<'_, impl Print>) -> io::Result<()> {
    difference(cases, EIGHT, 0, 0x30, 0x30, 0x00)?;
    difference(cases, EIGHT, 1, 0x30, 0x30, 0x00)?;
    difference(cases, EIGHT, 2, 0x30, 0x30, 0x00)?;
    difference(cases, EIGHT, 3, 0x30, 0x30, 0x80)
}

// 6. 6F + 6F: 70 in modes 0 and 2, 6F in modes 1 and 3.
fn case_6(cases: &mut Cases<'_, impl Print>) -> io::Result<()> {
    sum(cases, EIGHT, 0, 0x6F, 0x6F, 0x70)?;
    sum(cases, EIGHT, 1, 0x6F, 0x6F, 0x6F)?;
    sum(cases, EIGHT, 2, 0x6F, 0x6F, 0x70)?;
    sum(cases, EIGHT, 3, 0x6F, 0x6F, 0x6F)
}

// 7. 70 - 70: 78, and no row. 8. 0F + 01 = 10.
fn cases_7_and_8(cases: &mut Cases<'_, impl Print>) -> io::Result<()> {
    difference(cases, EIGHT, 0, 0x70, 0x70, 0x78)?;
    difference_no_row(cases, EIGHT, 0x70, 0x70)?;
    sum(cases, EIGHT, 0, 0x0F, 0x01, 0x10)
}

// 9. 30 + 02: 30 in mode 0, 31 in mode 2. 31 + 02: 32 in mode 0.
fn case_9(cases: &mut Cases<'_, impl Print>) -> io::Result<()> {
    sum(cases, EIGHT, 0, 0x30, 0x02, 0x30)?;
    sum(cases, EIGHT, 2, 0x30, 0x02, 0x31)?;
    sum(cases, EIGHT, 0, 0x31, 0x02, 0x32)
}

// 10. 30 - 01: row 0F; 30 in mode 0, 2F in mode 3.
fn case_10(cases: &mut Cases<'_, impl Print>) -> io::Result<()> {
    difference_row(cases, EIGHT, 0x30, 0x01, 0x0F)?;
    difference(cases, EIGHT, 0, 0x30, 0x01, 0x30)?;
    difference(cases, EIGHT, 3, 0x30, 0x01, 0x2F)
}

// W-201, mode 4. 30 + 02 = 31 and 31 + 02 = 32, and with both signs turned; 6F + 6F = 70; 30 - 30 = 00.
fn ties_away(cases: &mut Cases<'_, impl Print>) -> io::Result<()> {
    sum(cases, EIGHT, 4, 0x30, 0x02, 0x31)?;
    sum(cases, EIGHT, 4, 0x31, 0x02, 0x32)?;
    sum(cases, EIGHT, 4, 0xB0, 0x82, 0xB1)?;
    sum(cases, EIGHT, 4, 0xB1, 0x82, 0xB2)?;
    sum(cases, EIGHT, 4, 0x6F, 0x6F, 0x70)?;
    difference(cases, EIGHT, 4, 0x30, 0x30, 0x00)
}

// W-205. With equal exponents a is L: 30 - 31 has row 1F, 31 - 30 row 00; with e = 0, 05 - 0A row 1A and 0A - 05 row 05. Of e = 0 and e = 1
// the latter is L: 05 - 10 and 10 - 05 have row 0F.
fn by_exponent(cases: &mut Cases<'_, impl Print>) -> io::Result<()> {
    difference_row(cases, EIGHT, 0x30, 0x31, 0x1F)?;
    difference_row(cases, EIGHT, 0x31, 0x30, 0x00)?;
    difference_row(cases, EIGHT, 0x05, 0x0A, 0x1A)?;
    difference_row(cases, EIGHT, 0x0A, 0x05, 0x05)?;
    difference_row(cases, EIGHT, 0x05, 0x10, 0x0F)?;
    difference_row(cases, EIGHT, 0x10, 0x05, 0x0F)
}

pub(crate) fn eight_bit_cases(cases: &mut Cases<'_, impl Print>) -> io::Result<()> {
    case_1(cases)?;
    case_5(cases)?;
    case_6(cases)?;
    cases_7_and_8(cases)?;
    case_9(cases)?;
    case_10(cases)?;
    ties_away(cases)?;
    by_exponent(cases)
}

// 12, as W-202 moves it. w = 2 and 11 accepted, 1 and 12 refused; f = 2 and 52 accepted, 1 and 53 refused.
pub(crate) fn limits(cases: &mut Cases<'_, impl Print>) -> io::Result<()> {
    accepted(cases, 2, 4)?;
    accepted(cases, 11, 4)?;
    refused(cases, 1, 4, Cause::ExponentBits)?;
    refused(cases, 12, 4, Cause::ExponentBits)?;
    accepted(cases, 3, 2)?;
    accepted(cases, 3, 52)?;
    refused(cases, 3, 1, Cause::FractionBits)?;
    refused(cases, 3, 53, Cause::FractionBits)
}
