// Whether a proposed case fits a job.
#![tactic(auto)]

ghost use Rattle.std.specs.Prelude.{◌≡◌, ◌^◌, ◌<◌, eqb};
ghost use Rattle.format.specs.Format.{Supported, word_bits};
ghost use Rattle.job.specs.Dropped.{ValidDropped};
ghost use Rattle.job.specs.Job.{ValidSetting, Valid};
ghost use Rattle.fit.specs.Fit.{result_in, row_in, below_in, allowed, part_meets, satisfies, fits, case_cause, confirmed_reply};

use adder::below_last::below_last;
use adder::carry_row::carry_row;
use adder::result::rounded_result;
use bounds::within;
use format::{Cause, Format, supported, word_cause};
use job::{Dropped, Job, Setting, Wanted, cause_with};
use mask::{Mask, meets};

// What stands against the job and three proposed words. In a format that is not supported the words are not looked at, whose width might
// wrap.
pub fn case_cause(job: Job, a: u64, b: u64, c: u64) -> Result<(), Cause>
    ensures { result ≡ case_cause job a b c }
{
    if !supported(job.setting.format) {
        return cause_with(job, Ok(()));
    }
    let width = job.setting.format.w + job.setting.format.f + 1;
    let words = word_cause(width, a).and(word_cause(width, b).and(word_cause(width, c)));
    cause_with(job, words)
}

// Whether a word of the format is as wanted.
fn allowed(format: Format, w: Wanted, x: u64) -> bool
    requires { Supported format }
    ensures { result ≡ allowed format x w }
{
    meets(w.mask, x) & within(format, w.bounds, x)
}

// Whether what a case may lack, its row or its dropped bits with their sticky bit, agrees with a mask; where it is lacking, only a mask that
// fixes no bit does.
fn part_meets(part: Option<u64>, mask: Mask) -> bool
    ensures { result ≡ part_meets part mask }
{
    match part {
        Some(r) => meets(mask, r),
        None => mask.care == 0,
    }
}

// Whether the row of a and b agrees with a carry mask.
fn carries_meet(setting: Setting, carries: Mask, a: u64, b: u64) -> bool
    requires { ValidSetting setting × (a < 2 ^ word_bits setting.format) × (b < 2 ^ word_bits setting.format) }
    ensures { result ≡ part_meets (row_in setting a b) carries }
{
    match carry_row(setting.format, setting.operation, a, b) {
        Ok(row) => part_meets(row, carries),
        Err(_) => false,
    }
}

// Whether the bits of a's and b's exact result below the last one are as wanted; where none is fixed they are not looked at.
fn dropped_meet(setting: Setting, dropped: Dropped, a: u64, b: u64) -> bool
    requires { ValidSetting setting × ValidDropped dropped }
    ensures { result ≡ part_meets (below_in setting dropped.g a b) dropped.mask }
{
    if dropped.mask.care == 0 {
        return true;
    }
    let below = below_last(setting.format, setting.operation, dropped.g, a, b);
    part_meets(below, dropped.mask)
}

// Whether c is the rounded result of a and b.
fn right(setting: Setting, a: u64, b: u64, c: u64) -> bool
    requires { ValidSetting setting × (a < 2 ^ word_bits setting.format) × (b < 2 ^ word_bits setting.format) }
    ensures { result ≡ eqb (result_in setting a b) c }
{
    match rounded_result(setting.format, setting.operation, setting.mode, a, b) {
        Ok(word) => word == c,
        Err(_) => false,
    }
}

// Whether a case meets what the job states.
fn satisfies(job: Job, a: u64, b: u64, c: u64) -> bool
    requires { Valid job × (a < 2 ^ word_bits job.setting.format) × (b < 2 ^ word_bits job.setting.format) }
    ensures { result ≡ satisfies job a b c }
{
    let setting = job.setting;
    allowed(setting.format, job.a, a)
        & allowed(setting.format, job.b, b)
        & allowed(setting.format, job.c, c)
        & carries_meet(setting, job.carries, a, b)
        & dropped_meet(setting, job.dropped, a, b)
}

// Whether three words of the format fit.
fn fits(job: Job, a: u64, b: u64, c: u64) -> bool
    requires { Valid job × (a < 2 ^ word_bits job.setting.format) × (b < 2 ^ word_bits job.setting.format) × (c < 2 ^ word_bits job.setting.format) }
    ensures { result ≡ fits job a b c }
{
    right(job.setting, a, b, c) & satisfies(job, a, b, c)
}

// Whether the case fits the job, or the refusal.
pub fn confirm(job: Job, a: u64, b: u64, c: u64) -> Result<bool, Cause>
    ensures { result ≡ confirmed_reply job a b c }
{
    case_cause(job, a, b, c)?;
    Ok(fits(job, a, b, c))
}
