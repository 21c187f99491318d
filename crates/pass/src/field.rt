// The step from one of a's exponent fields to the next that is left to ask.
ghost use Rattle.std.specs.Prelude.{◌≡◌, ◌^◌, ◌≤◌};
ghost use Rattle.format.specs.Format.{Supported};
ghost use Rattle.job.specs.Job.{Valid};
ghost use Rattle.answers.specs.Kept.{Kept};
ghost use Rattle.pass.specs.Steps.{NoneBelow, NoneNear, OnlyFar, PassOf};

use crate::pairs::Pass;
use answers::PLACES;
use answers::open::all_closed;
use classes::far_gap;
use job::Job;
use mask::next::met_from;
use word::Biased;

// The first field that has, at most 2 above it, an exponent field from n on that c's mask lets through; no further than the fields that the
// classes of pairs answer for.
pub(crate) fn near_from(job: Job, pass: Pass, n: Biased) -> Biased
    requires { Supported job.setting.format }
    ensures { (result.0 ≤ pass.end.0) × (Valid job → PassOf job pass → NoneNear job n result) }
{
    let near = met_from(job.setting.format.w, pass.c, n.0).saturating_sub(2);
    if near < pass.end.0 {
        Biased(near)
    } else {
        pass.end
    }
}

// One past the fields of a, from ea on, that admit a case only with one of b that they are far below. Where no signs are left for finite
// operands these are all finite ones. Else they are above the far gap, and the classes answer for them with all nearer partners: all
// classes are closed, or c may not be a zero and its mask lets no exponent field through near a's field or such a partner's.
fn far_end(job: Job, pass: Pass, ea: Biased, table: &[u64; PLACES]) -> Biased
    requires { Supported job.setting.format × (pass.past.0 ≡ 2 ^ job.setting.format.w) }
    ensures { (ea.0 ≤ result.0) × (Valid job → PassOf job pass → Kept job table.now → OnlyFar job ea result) }
{
    if !pass.signs {
        return Biased(ea.0.max(pass.past.0 - 1));
    }
    let gap = far_gap(job);
    if ea.0 <= gap {
        return ea;
    }
    if all_closed(job, table) {
        return Biased(ea.0.max(pass.end.0.saturating_sub(gap - 1)));
    }
    if pass.zero {
        return ea;
    }
    let near = near_from(job, pass, Biased(ea.0 - gap));
    Biased(ea.0.max(near.0.saturating_sub(gap - 1)))
}

// From n on, the next field of a that meets its mask and may admit a case, where none below n does. What one is far below was asked with the
// first field, from 1 on, that meets the mask.
pub(crate) fn field_from(job: Job, pass: Pass, n: Biased, table: &[u64; PLACES]) -> Biased
    requires { Supported job.setting.format × (pass.past.0 ≡ 2 ^ job.setting.format.w) }
    ensures { (n.0 ≤ result.0) × (Valid job → PassOf job pass → Kept job table.now → NoneBelow job n → NoneBelow job result) }
{
    let w = job.setting.format.w;
    let ea = Biased(met_from(w, pass.a, n.0));
    if ea.0 <= pass.first.0 {
        return ea;
    }
    Biased(met_from(w, pass.a, far_end(job, pass, ea, table).0))
}
