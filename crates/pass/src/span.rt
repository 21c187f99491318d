// The fields of b that are left to ask with one of a, and the step from one to the next.
ghost use Rattle.std.specs.Prelude.{◌≡◌, ◌+◌, ◌^◌, ◌≤◌, ◌<◌};
ghost use Rattle.format.specs.Format.{Supported};
ghost use Rattle.mask.specs.Mask.{Meets};
ghost use Rattle.word.specs.declared.Biased.{Biased};
ghost use Rattle.word.specs.Masks.{exponent_mask};
ghost use Rattle.job.specs.Job.{Valid};
ghost use Rattle.special.specs.Asked.{PairFits};
ghost use Rattle.answers.specs.Kept.{Kept, NoPartner};
ghost use Rattle.pass.specs.Steps.{NoneBelow, NoSum, PassOf, SpanIn, SpanOf};

use crate::field::near_from;
use crate::pairs::Pass;
use answers::PLACES;
use answers::open::open_from;
use classes::far_gap;
use job::Job;
use mask::meets;
use mask::next::met_from;
use word::Biased;

// Exponent fields of b, from `from` on and below `end`.
#[derive(Clone, Copy)]
pub struct Span {
    pub from: Biased,
    pub end: Biased,
}

// One past the fields of b that are left to ask with one of a. Those that a's is far below were asked with the first field of a, from 1 on,
// that meets its mask.
fn span_end(job: Job, pass: Pass, ea: Biased) -> Biased
    requires { Supported job.setting.format × (pass.past.0 ≡ 2 ^ job.setting.format.w) × (ea.0 < pass.past.0) }
    ensures { (result.0 ≤ pass.past.0) × (Valid job → PassOf job pass → NoneBelow job ea → (d : Biased) → result.0 ≤ d.0 → PairFits job ea d → ⊥) }
{
    let ones = pass.past.0 - 1;
    if ea.0 == ones {
        return pass.past;
    }
    if ea.0 <= pass.first.0 {
        return pass.past;
    }
    let far = ea.0 + far_gap(job);
    if far < ones {
        Biased(far)
    } else {
        Biased(ones)
    }
}

// From one field on, the first whose sums with one that is 2 or more below it may have an exponent field that c's mask lets through: from 1
// below the larger field to 2 above it. Those passed over have classes that answer for them.
fn sum_from(job: Job, pass: Pass, larger: Biased) -> Biased
    requires { Supported job.setting.format }
    ensures { (larger.0 ≤ result.0) × (Valid job → PassOf job pass → NoSum job larger result) }
{
    if larger.0 <= far_gap(job) {
        return larger;
    }
    let near = near_from(job, pass, Biased(larger.0 - 1));
    Biased(larger.0.max(near.0))
}

// The fields of b that are left to ask with one of a, where no smaller field of a has a case. With no signs left for finite operands they
// begin at those of infinities and NaNs; where c's mask lets through no sum by its exponent, at the one next below a's.
pub(crate) fn span_of(job: Job, pass: Pass, ea: Biased) -> Span
    requires { Supported job.setting.format × (pass.past.0 ≡ 2 ^ job.setting.format.w) × (ea.0 < pass.past.0) }
    ensures { (Valid job → PassOf job pass → SpanIn job ea result) × (Valid job → PassOf job pass → NoneBelow job ea → SpanOf job ea result) }
{
    let past = pass.past;
    if !meets(pass.a, ea.0) {
        return Span {
            from: past,
            end: past,
        };
    }
    let end = span_end(job, pass, ea);
    let ones = Biased(past.0 - 1);
    if !pass.signs & (ea.0 < ones.0) {
        return Span { from: ones, end };
    }
    if sum_from(job, pass, ea).0 == ea.0 {
        return Span {
            from: Biased(0),
            end,
        };
    }
    Span {
        from: Biased(ea.0.saturating_sub(1)),
        end,
    }
}

// Where b's fields go on after one that was refused: those far below a's have one answer.
pub(crate) fn after(job: Job, pass: Pass, ea: Biased, eb: Biased) -> Biased
    requires { Supported job.setting.format × (pass.past.0 ≡ 2 ^ job.setting.format.w) × (ea.0 < pass.past.0) × (eb.0 + 1 < 2 ^ 64) }
    ensures { (eb.0 < result.0) × (Valid job → Meets eb.0 (exponent_mask job.setting.format job.b.mask) → (PairFits job ea eb → ⊥) → NoPartner job ea eb result) }
{
    let ones = pass.past.0 - 1;
    if (ea.0 == ones) & (eb.0 < ones) {
        return Biased(ones);
    }
    let past_far = (ea.0 + 1).saturating_sub(far_gap(job));
    if (ea.0 < ones) & (1 <= eb.0) & (eb.0 < past_far) {
        return Biased(past_far);
    }
    Biased(eb.0 + 1)
}

// From eb on, a field of b before which none admits a case with a's: as far as the closed classes tell, or where eb's class is open and eb is
// 2 or more above a's, as far as c's mask does.
fn asked_from(job: Job, pass: Pass, ea: Biased, eb: Biased, table: &[u64; PLACES]) -> Biased
    requires { Supported job.setting.format }
    ensures { (eb.0 ≤ result.0) × (Valid job → PassOf job pass → Kept job table.now → NoPartner job ea eb result) }
{
    let open = open_from(job, ea, eb, pass.end, table);
    if (open.0 == eb.0) & (ea.0 < eb.0.saturating_sub(1)) {
        return sum_from(job, pass, eb);
    }
    open
}

// From n on, the first field of b that meets its mask and that neither a closed class nor c's mask rules out, as far as they go to `end`.
pub(crate) fn partner_from(
    job: Job,
    pass: Pass,
    ea: Biased,
    n: Biased,
    end: Biased,
    table: &[u64; PLACES],
) -> Biased
    requires { Supported job.setting.format }
    ensures { (n.0 ≤ result.0) × (Valid job → PassOf job pass → Kept job table.now
        → (result.0 < 2 ^ job.setting.format.w → Meets result.0 (exponent_mask job.setting.format job.b.mask)) × NoPartner job ea n result) }
{
    let w = job.setting.format.w;
    let mut eb = Biased(met_from(w, pass.b, n.0));
    while eb.0 < end.0 {
        let next = asked_from(job, pass, ea, eb, table);
        if next.0 == eb.0 {
            return eb;
        }
        eb = Biased(met_from(w, pass.b, next.0));
    }
    eb
}
