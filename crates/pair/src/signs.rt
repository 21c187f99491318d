// The signs of finite operands, whatever their exponents.
ghost use Rattle.std.specs.Prelude.{◌≡◌, ◌<◌};
ghost use Rattle.pair.specs.Signs.{sign_left, signs_left};

use job::Job;
use mask::meets;
use word::masks::sign_mask;

// Whether operands of these signs meet their masks and may have a sum whose sign meets c's: that of like ones is theirs.
fn sign_left(job: Job, sa: u64, sb: u64) -> bool
    requires { sb < 2 }
    ensures { result ≡ sign_left job sa sb }
{
    let like = sa == (sb + job.setting.operation % 2) % 2;
    meets(sign_mask(job.setting.format, job.a.mask), sa)
        & meets(sign_mask(job.setting.format, job.b.mask), sb)
        & (!like | meets(sign_mask(job.setting.format, job.c.mask), sa))
}

// Whether some two signs are left for finite operands.
pub fn signs_left(job: Job) -> bool
    ensures { result ≡ signs_left job }
{
    sign_left(job, 0, 0) | sign_left(job, 0, 1) | sign_left(job, 1, 0) | sign_left(job, 1, 1)
}
