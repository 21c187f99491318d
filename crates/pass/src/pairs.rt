// The loops over the exponent fields, and what is the same for all of them.
ghost use Rattle.std.specs.Prelude.{◌≡◌, ◌^◌};
ghost use Rattle.format.specs.Format.{Supported};
ghost use Rattle.job.specs.Job.{Valid};
ghost use Rattle.pass.specs.First.{NoneBefore, FirstPair};
ghost use Rattle.pass.specs.Steps.{PassOf};

use crate::Exponents;
use crate::field::field_from;
use crate::span::{after, partner_from, span_of};
use answers::{PLACES, class_end};
use bits::power;
use job::Job;
use mask::next::met_from;
use mask::{Mask, meets};
use pair::signs::signs_left;
use word::Biased;
use word::masks::{exponent_mask, fraction_mask};

// What a pass over the exponent fields asks of each of them, and is the same for all.
#[derive(Clone, Copy)]
pub struct Pass {
    pub a: Mask,
    pub b: Mask,
    pub c: Mask,
    pub past: Biased,
    pub first: Biased,
    pub signs: bool,
    pub zero: bool,
    pub end: Biased,
}

// The masks on the exponent fields, one past the last field, the first from 1 on that meets a's mask, whether signs are left for finite
// operands, whether c may be a zero, which has no dropped bits, and one past the fields that the classes of pairs answer for.
fn pass_of(job: Job) -> Pass
    requires { Supported job.setting.format }
    ensures { (result.past.0 ≡ 2 ^ job.setting.format.w) × (Valid job → PassOf job result) }
{
    let format = job.setting.format;
    let a = exponent_mask(format, job.a.mask);
    let c = exponent_mask(format, job.c.mask);
    Pass {
        a,
        b: exponent_mask(format, job.b.mask),
        c,
        past: Biased(power(format.w)),
        first: Biased(met_from(format.w, a, 1)),
        signs: signs_left(job),
        zero: meets(c, 0)
            & meets(fraction_mask(format, job.c.mask), 0)
            & (job.dropped.mask.care == 0),
        end: class_end(job),
    }
}

// The first pair of exponent fields that admits a case, or past them all, where those before `start` admit none. The loops are left at that
// pair, and step over those that need no question.
pub(crate) fn first_from(job: Job, start: Exponents) -> Exponents
    requires { Supported job.setting.format }
    ensures { Valid job → NoneBefore job start → FirstPair job result }
{
    let pass = pass_of(job);
    let past = pass.past.0;
    let mut table = [0; PLACES];
    let mut ea = start.a;
    let mut eb = start.b;
    'pairs: while ea.0 < past {
        let span = span_of(job, pass, ea);
        let from = Biased(eb.0.max(span.from.0));
        eb = partner_from(job, pass, ea, from, span.end, &table);
        while eb.0 < span.end.0 {
            if answers::admits(job, ea, eb, pass.end, &mut table) {
                break 'pairs;
            }
            let next = after(job, pass, ea, eb);
            eb = partner_from(job, pass, ea, next, span.end, &table);
        }
        ea = field_from(job, pass, Biased(ea.0 + 1), &table);
        eb = Biased(0);
    }
    Exponents { a: ea, b: eb }
}
