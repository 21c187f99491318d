// The answer of each reply: so many numbers, or the refusal.
#![tactic(auto)]

ghost use Rattle.std.specs.Prelude.{◌≡◌, Ok};
ghost use Rattle.replies.specs.Replies.{of_result, row_numbers, of_row, of_joined, of_first, of_confirmed, confirmation, of_case, OfEntry, OfRecord, of_whole};

use fit::confirm;
use format::Cause;
use generator::Case;
use layout::Entry;
use mask::Mask;

// The rounded result: c.
pub fn of_result(reply: Result<u64, Cause>) -> Result<[u64; 1], Cause>
    ensures { result ≡ of_result reply }
{
    Ok([reply?])
}

// 1 and the row, or 0 and 0 where there is none.
fn row_numbers(row: Option<u64>) -> [u64; 2]
    ensures { result ≡ row_numbers row }
{
    match row {
        Some(carries) => [1, carries],
        None => [0, 0],
    }
}

// The carry row, or that there is none.
pub fn of_row(reply: Result<Option<u64>, Cause>) -> Result<[u64; 2], Cause>
    ensures { result ≡ of_row reply }
{
    Ok(row_numbers(reply?))
}

// The joined mask: care, then value.
pub fn of_joined(joined: Result<Mask, Cause>) -> Result<[u64; 2], Cause>
    ensures { result ≡ of_joined joined }
{
    let m = joined?;
    Ok([m.care, m.value])
}

// The length of the record that stands first; 0 where no byte is left.
pub fn of_first(first: Result<Option<(Entry, usize)>, Cause>) -> Result<[u64; 1], Cause>
    ensures { result ≡ of_first first }
{
    match first? {
        None => Ok([0]),
        Some((_, length)) => Ok([length as u64]),
    }
}

// 1 for yes, 0 for no.
fn of_confirmed(confirmed: Result<bool, Cause>) -> Result<[u64; 1], Cause>
    ensures { result ≡ of_confirmed confirmed }
{
    Ok([u64::from(confirmed?)])
}

// The confirmation of a case for the job of a record; no byte at all is a record cut short.
pub fn confirmed(
    first: Result<Option<(Entry, usize)>, Cause>,
    a: u64,
    b: u64,
    c: u64,
) -> Result<[u64; 1], Cause>
    ensures { result ≡ confirmation first a b c }
{
    match first? {
        None => Err(Cause::Cut),
        Some((entry, _)) => of_confirmed(confirm(entry.job, a, b, c)),
    }
}

// A case: a, b, c, then 1 and its row, or 0 and 0 where it has none.
fn of_case(case: Case) -> [u64; 5]
    ensures { Ok result ≡ of_case (Ok case) }
{
    let [is_there, row] = row_numbers(case.row);
    [case.a, case.b, case.c, is_there, row]
}

// The case that the random words choose for a job.
fn of_entry(entry: Entry) -> Result<[u64; 5], Cause>
    ensures { OfEntry entry result }
{
    let case = generator::generate(entry.job, entry.r1, entry.r2)?;
    Ok(of_case(case))
}

// The same for the job of a record.
pub fn generated(first: Result<Option<(Entry, usize)>, Cause>) -> Result<[u64; 5], Cause>
    ensures { OfRecord first result }
{
    match first? {
        None => Err(Cause::Cut),
        Some((entry, _)) => of_entry(entry),
    }
}

// A whole-number case: x, y, z and the carries.
pub fn of_whole(reply: Result<whole::Case, Cause>) -> Result<[u64; 4], Cause>
    ensures { result ≡ of_whole reply }
{
    let case = reply?;
    Ok([case.x, case.y, case.z, case.carries])
}
