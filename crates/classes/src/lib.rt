// Classes of pairs of exponent fields: pairs whose significands are aligned alike have one answer, and one of them stands for all.
#![tactic(auto)]

ghost use Rattle.std.specs.Prelude.{◌≡◌, ◌<◌, true, ◌↔◌};
ghost use Rattle.format.specs.Format.{Supported, word_bits};
ghost use Rattle.mask.specs.Mask.{WellFormed};
ghost use Rattle.job.specs.Guards.{reach};
ghost use Rattle.classes.specs.Class.{far_gap, fields_of, low_field, class_of, with_exponent, asking, ClassFor, ClassAdmits};

use format::Format;
use job::guards::reach;
use job::words::{with_mask, with_wanted};
use job::{Job, Role};
use mask::Mask;
use pair::finite::finite_admits;
use std::num::wrapping_add_u64;
use word::exponent::{field_of, unit_of};
use word::masks::{fraction_mask, sign_mask};
use word::pack::word_of;
use word::{Biased, Unit};

// The gap from which on an aligned significand is its sticky bit alone, beyond the reach of the job, its fraction bits and the bits that it
// tells apart below the last kept one but for the first: that one, and the two more that stand below a difference.
pub const FAR_GAP: u64 = 3;
// The larger field of the pair that stands for a class.
pub const TOP_FIELD: u64 = FAR_GAP + 1;
// c's greatest exponent field there.
pub const MOST_FIELD: u64 = TOP_FIELD + 2;

// The far gap of a job.
pub fn far_gap(job: Job) -> u64
    ensures { (result < 64) × (result ≡ far_gap (reach job)) }
{
    reach(job) + FAR_GAP
}

// Two exponent fields by size; the order is 1 where b has the larger one, else 0.
#[derive(Clone, Copy)]
pub struct Fields {
    pub order: u64,
    pub larger: Biased,
    pub smaller: Biased,
}

// A class of pairs: the order, and the smaller field of the pair that stands for it.
#[derive(Clone, Copy)]
pub struct Class {
    pub order: u64,
    pub low: Biased,
}

// Two exponent fields by size.
pub fn fields_of(ea: Biased, eb: Biased) -> Fields
    ensures { result ≡ fields_of ea eb }
{
    if eb.0 <= ea.0 {
        Fields {
            order: 0,
            larger: ea,
            smaller: eb,
        }
    } else {
        Fields {
            order: 1,
            larger: eb,
            smaller: ea,
        }
    }
}

// The smaller field of the pair that stands for the class of two fields: as far below the larger one, but at most by the far gap; 0 for 0.
fn low_field(reach: u64, larger: Biased, smaller: Biased) -> Biased
    ensures { reach < 64 → result ≡ low_field reach larger smaller }
{
    if smaller.0 == 0 {
        return Biased(0);
    }
    let gap = unit_of(larger).0.saturating_sub(unit_of(smaller).0);
    field_of(
        Unit(wrapping_add_u64(reach, FAR_GAP).saturating_sub(gap)),
        1,
    )
}

// The class of a pair, by the job's reach; free where that is 64 or more.
pub fn class_of(reach: u64, fields: Fields) -> Class
    ensures { reach < 64 → result ≡ class_of reach fields }
{
    let low = low_field(reach, fields.larger, fields.smaller);
    Class {
        order: fields.order,
        low,
    }
}

// The mask c with another mask on its exponent field.
fn with_exponent(format: Format, c: Mask, n: Mask) -> Mask
    ensures { Supported format → WellFormed (word_bits format) c → WellFormed format.w n → result ≡ with_exponent format c n }
{
    let sign = sign_mask(format, c);
    let fraction = fraction_mask(format, c);
    let care = word_of(format, sign.care, n.care, fraction.care);
    let value = word_of(format, sign.value, n.value, fraction.value);
    Mask { care, value }
}

// The job that asks for another mask of c's exponent field.
fn asking(job: Job, n: Mask) -> Job
    ensures { Supported job.setting.format → WellFormed (word_bits job.setting.format) job.c.mask → WellFormed job.setting.format.w n → result ≡ asking job n }
{
    let wanted = with_mask(job.c, with_exponent(job.setting.format, job.c.mask, n));
    with_wanted(job, Role::C, wanted)
}

// Whether the pair that stands for a class admits a case, where n is asked of c's exponent field. For a job that is refused, a class
// that its format does not have and a malformed n the answer is free: a job is tested once, where the generator is asked.
pub fn class_admits(job: Job, class: Class, n: Mask) -> bool
    ensures { ClassFor job class → WellFormed job.setting.format.w n → (result ≡ true) ↔ ClassAdmits job class n }
{
    let asked = asking(job, n);
    let top = Biased(wrapping_add_u64(reach(job), TOP_FIELD));
    if class.order == 0 {
        finite_admits(asked, top, class.low)
    } else {
        finite_admits(asked, class.low, top)
    }
}
