// What is known of a class of pairs: the exponent fields of c that it refuses, a bit for each, and whether it admits nothing at all.
ghost use Rattle.std.specs.Prelude.{true, false, ◌↔◌, ◌≡◌, ◌^◌, ◌≤◌, ◌<◌};
ghost use Rattle.format.specs.Format.{Supported};
ghost use Rattle.job.specs.Guards.{reach};
ghost use Rattle.mask.specs.Mask.{Meets};
ghost use Rattle.word.specs.Masks.{exponent_mask};
ghost use Rattle.classes.specs.Class.{field_at, most_field, least_field, ClassIn, ClassFor};
ghost use Rattle.answers.specs.Kept.{place_of, Never, bit_of, Refuses, Closed, closed_place, closed_bit, Kept, NoField};

use crate::PLACES;
use bits::{bit_at, power};
use classes::{Class, FAR_GAP, MOST_FIELD, TOP_FIELD, class_admits};
use format::{Format, supported};
use job::Job;
use job::guards::reach;
use mask::{Mask, meets};
use word::masks::exponent_mask;
use word::{Biased, Unit};

// The bit that says that the class was asked; those below it are left to c's exponent fields.
const ASKED: u64 = 62;

// Whether a class may admit a case, and its word.
#[derive(Clone, Copy)]
pub struct Known {
    pub possible: bool,
    pub refused: u64,
}

// c's exponent field with a unit, where it is `field` with the unit of the pair that stands for all.
fn field_at(reach: u64, unit: Unit, field: Biased) -> Biased
    requires { (reach < 64) × (unit.0 < 2 ^ 16) × (field.0 < 2 ^ 16) }
    ensures { result ≡ field_at reach unit field }
{
    if field.0 == 0 {
        return Biased(0);
    }
    Biased((field.0 + unit.0).saturating_sub(reach + FAR_GAP))
}

// The bit of c's exponent field in the word of a class, the lowest for the largest field; 0 for one that has none and is asked each time.
fn bit_of(reach: u64, field: Biased) -> u64
    requires { (reach < 64) × (field.0 ≤ most_field reach) }
    ensures { result ≡ bit_of reach field.0 }
{
    let i = reach + MOST_FIELD - field.0;
    if i < ASKED { 1 << i } else { 0 }
}

// One field of c is asked about, unless its answer is known or c's mask does not let it through.
fn try_field(job: Job, class: Class, unit: Unit, field: Biased, refused: u64) -> Known
    requires { Supported job.setting.format × (unit.0 < 2 ^ 16) × (field.0 ≤ most_field (reach job)) }
    ensures { ClassFor job class → Refuses job class refused
        → Refuses job class result.refused × (result.possible ≡ false → Meets (field_at (reach job) unit field).0 (exponent_mask job.setting.format job.c.mask) → Never job class field) }
{
    let same = Known {
        possible: false,
        refused,
    };
    let reach = reach(job);
    let bit = bit_of(reach, field);
    if refused & bit != 0 {
        return same;
    }
    let format = job.setting.format;
    if !meets(
        exponent_mask(format, job.c.mask),
        field_at(reach, unit, field).0,
    ) {
        return same;
    }
    let only = Mask {
        care: power(format.w) - 1,
        value: field.0,
    };
    if class_admits(job, class, only) {
        return Known {
            possible: true,
            refused,
        };
    }
    Known {
        possible: false,
        refused: refused | bit,
    }
}

// The least field of c that a class can have.
fn least_field(reach: u64, class: Class) -> Biased
    requires { (reach < 64) × ClassIn reach class }
    ensures { result ≡ least_field reach class }
{
    if class.low.0 + 2 <= reach + TOP_FIELD {
        Biased(reach + FAR_GAP)
    } else {
        Biased(0)
    }
}

// All fields of c that the class can have, the largest first, up to one that it may have.
fn try_fields(job: Job, class: Class, unit: Unit, known: u64) -> Known
    requires { Supported job.setting.format × ClassIn (reach job) class × (unit.0 < 2 ^ 16) }
    ensures { ClassFor job class → Refuses job class known → Refuses job class result.refused × (result.possible ≡ false → NoField job class unit) }
{
    let reach = reach(job);
    let least = least_field(reach, class).0;
    let mut refused = known;
    for n in (least..reach + MOST_FIELD + 1).rev() {
        let tried = try_field(job, class, unit, Biased(n), refused);
        if tried.possible {
            return tried;
        }
        refused = tried.refused;
    }
    Known {
        possible: false,
        refused,
    }
}

// What is known of a class, with the question whether it admits anything at all put first.
fn opened(job: Job, class: Class, known: u64) -> Known
    requires { Supported job.setting.format }
    ensures { ClassFor job class → Refuses job class known → Refuses job class result.refused × (result.possible ≡ false → Closed job class) }
{
    if known != 0 {
        return Known {
            possible: true,
            refused: known,
        };
    }
    let any = Mask { care: 0, value: 0 };
    let possible = class_admits(job, class, any);
    Known {
        possible,
        refused: 1 << ASKED,
    }
}

// The place of a class in the table.
fn place_of(reach: u64, class: Class) -> u64
    requires { (reach < 64) × ClassIn reach class }
    ensures { result ≡ place_of reach class }
{
    if class.order == 0 {
        class.low.0
    } else {
        reach + TOP_FIELD + 1 + class.low.0
    }
}

// The place of the closed classes of an order.
pub(crate) fn closed_place(reach: u64, order: u64) -> u64
    requires { (reach < 64) × (order < 2) }
    ensures { result ≡ closed_place reach order }
{
    2 * (reach + TOP_FIELD + 1) + order
}

// The bit of a class among the closed ones of its order.
fn closed_bit(reach: u64, class: Class) -> u64
    requires { (reach < 64) × ClassIn reach class }
    ensures { result ≡ closed_bit reach class.order class.low.0 }
{
    if class.order == 0 {
        class.low.0
    } else {
        reach + TOP_FIELD - class.low.0
    }
}

// Whether a class of the format may be asked where the larger operand has this unit.
fn askable(format: Format, unit: Unit) -> bool
    ensures { (result ≡ true) ↔ (Supported format × (unit.0 < 2 ^ 16)) }
{
    if !supported(format) {
        return false;
    }
    unit.0 < 65536
}

// Whether a class may admit a case where the larger operand has this unit; what is found is kept.
pub(crate) fn class_may(job: Job, class: Class, unit: Unit, table: &mut [u64; PLACES]) -> bool
    requires { (reach job < 60) × ClassIn (reach job) class }
    ensures { ClassFor job class → unit.0 < 2 ^ 16 → Kept job table.old → Kept job table.new × (result ≡ false → NoField job class unit) }
{
    let reach = reach(job);
    let bit = closed_bit(reach, class);
    let closed = closed_place(reach, class.order) as usize;
    if bit_at(table[closed], bit) == 1 {
        return false;
    }
    if !askable(job.setting.format, unit) {
        return true;
    }
    let at = place_of(reach, class) as usize;
    let asked = opened(job, class, table[at]);
    if !asked.possible {
        table[closed] = table[closed] | (1 << bit);
        return false;
    }
    let found = try_fields(job, class, unit, asked.refused);
    table[at] = found.refused;
    found.possible
}
