// Whether a pair of exponent fields admits a case, with the answers kept that pairs of one class share.
#![tactic(auto)]

use bits::power;
use classes::{FAR_GAP, Fields, MOST_FIELD, class_of, fields_of};
use format::{Format, supported};
use job::Job;
use job::guards::reach;
use known::class_may;
use mask::{Mask, meets};
use pair::pair_admits;
use word::Biased;
use word::exponent::unit_of;
use word::masks::fraction_mask;

mod known;
pub mod open;

ghost use Rattle.std.specs.Prelude.{true, false, ◌↔◌, ◌≡◌};
ghost use Rattle.format.specs.Format.{Supported};
ghost use Rattle.job.specs.Job.{Valid};
ghost use Rattle.special.specs.Asked.{InRange, PairFits};
ghost use Rattle.classes.specs.Class.{InOrder, Ordered, Asked, NeverPast, Normal};
ghost use Rattle.answers.specs.Kept.{Kept, ClassEnd};

// The places of the table that a pass over the exponent fields keeps, enough for the longest reach; its words are 0 in the beginning.
pub const PLACES: usize = 130;

// Whether each sum of a pair is 0 or has digits enough for a normal number, by its unit or by its gap.
fn normal(reach: u64, fields: Fields) -> bool
    ensures { result ≡ true → Normal reach fields.larger fields.smaller }
{
    if reach < fields.larger.0.saturating_sub(FAR_GAP) {
        return true;
    }
    if fields.smaller.0 == 0 {
        return false;
    }
    2 <= fields.larger.0.saturating_sub(fields.smaller.0)
}

// Whether a pair may admit a case, as far as the table tells or comes to tell.
fn may_admit(job: Job, fields: Fields, end: Biased, table: &mut [u64; PLACES]) -> bool
    requires { Ordered fields }
    ensures { Valid job → ClassEnd job end → Kept job table.old
        → Kept job table.new × (result ≡ false → InOrder (PairFits job) fields.order fields.larger fields.smaller → ⊥) }
{
    if end.0 <= fields.larger.0 {
        return true;
    }
    let reach = reach(job);
    if !normal(reach, fields) {
        return true;
    }
    class_may(job, class_of(reach, fields), unit_of(fields.larger), table)
}

// Whether a case whose operands have these exponent fields fits; false in a format that is not supported and for a field that it does not
// have. The table spares questions whose answer is no, and keeps what is found. For a job that is refused, fields that do not meet
// their masks, another end than `class_end` gives or another table than one that this function kept, the answer and the table are free.
pub fn admits(job: Job, ea: Biased, eb: Biased, end: Biased, table: &mut [u64; PLACES]) -> bool
    ensures in_range { result ≡ true → InRange job.setting.format ea eb }
    ensures exact { Asked job ea eb → ClassEnd job end → Kept job table.old → Kept job table.new × ((result ≡ true) ↔ PairFits job ea eb) }
{
    let fields = fields_of(ea, eb);
    if !may_admit(job, fields, end, table) {
        return false;
    }
    pair_admits(job, ea, eb)
}

// Whether no word past the largest finite number meets c's mask: those have the fraction 0 or all ones, whatever the significands.
fn never_past(format: Format, c: Mask) -> bool
    requires { Supported format }
    ensures { result ≡ true → NeverPast format c }
{
    let fraction = fraction_mask(format, c);
    !(meets(fraction, 0) | meets(fraction, power(format.f) - 1))
}

// One past the largest exponent field of the pairs that their classes answer for; 0 in a format that is not supported.
pub fn class_end(job: Job) -> Biased
    ensures { (Valid job → ClassEnd job result) × ((Supported job.setting.format → ⊥) → result.0 ≡ 0) }
{
    let format = job.setting.format;
    if !supported(format) {
        return Biased(0);
    }
    let ones = power(format.w) - 1;
    if ones < reach(job) + MOST_FIELD + 3 {
        return Biased(0);
    }
    if never_past(format, job.c.mask) {
        return Biased(ones);
    }
    Biased(ones - 2)
}
