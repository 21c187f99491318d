// The pairs of exponent fields where an operand is infinite or a NaN. Only the kinds of the operands count there, so of the words with an
// exponent field four are tried.
#![tactic(auto)]

ghost use Rattle.std.specs.Prelude.{true, ◌↔◌, ◌≡◌, ◌^◌, ◌<◌};
ghost use Rattle.format.specs.Format.{Supported, word_bits};
ghost use Rattle.mask.specs.Mask.{WellFormed};
ghost use Rattle.job.specs.Job.{Valid};
ghost use Rattle.special.specs.Asked.{InRange, PairFits};
ghost use Rattle.special.specs.Special.{Special, extreme, representative, together, partnered, admitted};

use adder::result::rounded_result;
use bits::power;
use format::{Format, supported};
use job::Job;
use mask::{Mask, meets};
use significand::greatest;
use word::Biased;
use word::masks::fraction_mask;
use word::pack::word_of;

// Of the fractions of f bits that meet m the least, for 0, or the greatest.
fn extreme(f: u64, m: Mask, which: u64) -> u64
    ensures { f < 64 → WellFormed f m → result ≡ extreme f m which }
{
    if which == 0 { m.value } else { greatest(f, m) }
}

// The k-th of the four words that stand for all that have the exponent field e and meet m.
fn representative(format: Format, m: Mask, e: Biased, k: u64) -> u64
    ensures { Supported format → WellFormed (word_bits format) m → e.0 < 2 ^ format.w → k < 4 → result ≡ representative format m e k }
{
    let fraction = extreme(format.f, fraction_mask(format, m), k % 2);
    word_of(format, k / 2, e.0, fraction)
}

// Whether a, b and their rounded result are as wanted; the operands are looked at first because that is cheap.
fn together(job: Job, a: u64, b: u64) -> bool
    ensures { Valid job → a < 2 ^ word_bits job.setting.format → b < 2 ^ word_bits job.setting.format → result ≡ together job a b }
{
    let setting = job.setting;
    if meets(job.a.mask, a) & meets(job.b.mask, b) {
        match rounded_result(setting.format, setting.operation, setting.mode, a, b) {
            Ok(c) => meets(job.c.mask, c),
            Err(_) => false,
        }
    } else {
        false
    }
}

// Whether a goes together with one of the words that stand for b.
fn partnered(job: Job, a: u64, eb: Biased) -> bool
    ensures { Valid job → a < 2 ^ word_bits job.setting.format → eb.0 < 2 ^ job.setting.format.w → result ≡ partnered job a eb }
{
    for k in 0..4 {
        if together(
            job,
            a,
            representative(job.setting.format, job.b.mask, eb, k),
        ) {
            return true;
        }
    }
    false
}

// Whether some two words that stand for a and b go together.
fn admitted(job: Job, ea: Biased, eb: Biased) -> bool
    ensures { Valid job → ea.0 < 2 ^ job.setting.format.w → eb.0 < 2 ^ job.setting.format.w → result ≡ admitted job ea eb }
{
    for k in 0..4 {
        if partnered(
            job,
            representative(job.setting.format, job.a.mask, ea, k),
            eb,
        ) {
            return true;
        }
    }
    false
}

// Whether the fields are exponent fields of a supported format, and one of them is all ones.
fn special_fields(format: Format, ea: Biased, eb: Biased) -> bool
    ensures { (result ≡ true) ↔ (InRange format ea eb × Special format ea eb) }
{
    if !supported(format) {
        return false;
    }
    let ones = power(format.w) - 1;
    if ones < ea.0 {
        return false;
    }
    if ones < eb.0 {
        return false;
    }
    if ea.0 == ones {
        return true;
    }
    eb.0 == ones
}

// Whether an operand with one of these exponent fields is infinite or a NaN and some case with them fits; false in a format that is not
// supported and for a field that it does not have. There is no row and no bit below the last, so where one is fixed that settles it. For a job
// that is refused the answer is free: a job is tested once, where the generator is asked.
pub fn special_admits(job: Job, ea: Biased, eb: Biased) -> bool
    ensures special { result ≡ true → InRange job.setting.format ea eb × Special job.setting.format ea eb }
    ensures exact { Valid job → Special job.setting.format ea eb → (result ≡ true) ↔ PairFits job ea eb }
{
    if !special_fields(job.setting.format, ea, eb) {
        return false;
    }
    if job.carries.care != 0 {
        return false;
    }
    if job.dropped.mask.care != 0 {
        return false;
    }
    admitted(job, ea, eb)
}
