// The case generator: of a job and two random words the chosen case with its row, or the refusal.
#![tactic(auto)]

ghost use Rattle.std.specs.Prelude.{◌≡◌};
ghost use Rattle.job.specs.Job.{Request};
ghost use Rattle.adder.specs.Result.{result_of};
ghost use Rattle.adder.specs.Row.{row_of};
ghost use Rattle.generator.specs.Promise.{case_of, Replied};

use adder::carry_row::carry_row;
use adder::result::rounded_result;
use format::Cause;
use job::{Job, request_cause};
use search::choose;

// Operands, their rounded result and their carry row; there is none where an operand is infinite or a NaN.
#[derive(Clone, Copy, Debug, PartialEq, Eq)]
pub struct Case {
    pub a: u64,
    pub b: u64,
    pub c: u64,
    pub row: Option<u64>,
}

// The rounded result of a and b.
fn result_of(job: Job, a: u64, b: u64) -> u64
    requires { Request job a b }
    ensures { result ≡ result_of job.setting.format job.setting.operation job.setting.mode a b }
{
    let setting = job.setting;
    rounded_result(setting.format, setting.operation, setting.mode, a, b).unwrap_or(0)
}

// The carry row of a and b.
fn row_of(job: Job, a: u64, b: u64) -> Option<u64>
    requires { Request job a b }
    ensures { result ≡ row_of job.setting.format job.setting.operation a b }
{
    carry_row(job.setting.format, job.setting.operation, a, b).unwrap_or(None)
}

// The case whose operands are a and b.
fn case_of(job: Job, a: u64, b: u64) -> Case
    requires { Request job a b }
    ensures { result ≡ case_of job a b }
{
    Case {
        a,
        b,
        c: result_of(job, a, b),
        row: row_of(job, a, b),
    }
}

// The reply to a job and two random words: its chosen case, or the refusal.
pub fn generate(job: Job, r1: u64, r2: u64) -> Result<Case, Cause>
    ensures { Replied job r1 r2 result }
{
    request_cause(job, r1, r2)?;
    match choose(job, r1, r2) {
        Some(pair) => Ok(case_of(job, pair.a, pair.b)),
        None => Err(Cause::NoCase),
    }
}
