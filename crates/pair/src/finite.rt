// Two finite operands.
ghost use Rattle.std.specs.Prelude.{true, ◌↔◌, ◌≡◌, ◌<◌};
ghost use Rattle.format.specs.Format.{Supported};
ghost use Rattle.job.specs.Dropped.{ValidDropped};
ghost use Rattle.job.specs.Guards.{guards_of};
ghost use Rattle.job.specs.Job.{Valid};
ghost use Rattle.special.specs.Asked.{PairFits};
ghost use Rattle.pair.specs.Pair.{FiniteSide, bits_below, reversed_of, Larger, side_a, side_b, Posed, SomeSigns, FinitePair};

use crate::Side;
use bits::power;
use format::limits::MOST_DROPPED;
use format::{Format, supported};
use job::guards::guards;
use job::{Dropped, Job};
use making::Aligned;
use mask::meets;
use outcome::{Target, admits};
use significand::{significand_mask, tail_mask};
use word::Biased;
use word::exponent::unit_of;
use word::masks::{exponent_mask, fraction_mask, sign_mask};

// Whether the carry row of two operands, x the larger, is that of y less x: y is a, the exponents are equal and the signs unlike.
fn reversed(x: Side, y: Side) -> bool
    ensures { result ≡ reversed_of x y }
{
    y.lhs & ((x.exponent.0 == y.exponent.0) & (x.sign != y.sign))
}

// How many bits stand below the larger significand's last one: one more than the job tells apart in a sum, two more in a difference; 0 where
// it would tell more apart than a job can, so that no sum wraps.
fn bits_below(dropped: Dropped, like: bool) -> u64
    ensures { ValidDropped dropped → result ≡ bits_below (guards_of dropped) like }
{
    let apart = guards(dropped);
    if MOST_DROPPED < apart {
        return 0;
    }
    if like { apart + 1 } else { apart + 2 }
}

// Whether two operands, x the larger, sum as the job asks.
fn larger(job: Job, x: Side, y: Side) -> bool
    requires { Supported job.setting.format }
    ensures { Valid job → FiniteSide job.setting.format x → FiniteSide job.setting.format y → (result ≡ true) ↔ Larger job x y }
{
    if x.exponent.0 < y.exponent.0 {
        return false;
    }
    let u = unit_of(x.exponent);
    let v = unit_of(y.exponent);
    let f = job.setting.format.f;
    let like = x.sign == y.sign;
    let dropped = job.dropped;
    let below = bits_below(dropped, like);
    let l = significand_mask(f, x.fraction, x.exponent);
    let r = significand_mask(f, y.fraction, y.exponent);
    let head = tail_mask(below, f + 1, l, 0);
    let tail = tail_mask(below, f + 1, r, u.0 - v.0);
    let carries = job.carries;
    let aligned = Aligned {
        like,
        reversed: reversed(x, y),
        below,
        head,
        tail,
        carries,
    };
    let c = job.c.mask;
    let target = Target { c, dropped };
    let setting = job.setting;
    admits(setting.format, setting.mode, x.sign, u, aligned, target)
}

// What is asked of a, by its sign and exponent field.
fn side_a(job: Job, sign: u64, exponent: Biased) -> Side
    ensures { result ≡ side_a job sign exponent }
{
    let fraction = fraction_mask(job.setting.format, job.a.mask);
    Side {
        lhs: true,
        sign,
        exponent,
        fraction,
    }
}

// What is asked of b; subtracting turns its sign.
fn side_b(job: Job, sign: u64, exponent: Biased) -> Side
    requires { sign < 2 }
    ensures { result ≡ side_b job sign exponent }
{
    let fraction = fraction_mask(job.setting.format, job.b.mask);
    Side {
        lhs: false,
        sign: (sign + job.setting.operation % 2) % 2,
        exponent,
        fraction,
    }
}

// Whether a case with these exponent fields and signs fits.
fn signs_admit(job: Job, ea: Biased, eb: Biased, sa: u64, sb: u64) -> bool
    requires { FinitePair job.setting.format ea eb × (sa < 2) × (sb < 2) }
    ensures { Valid job → (result ≡ true) ↔ Posed job ea eb sa sb }
{
    if !meets(sign_mask(job.setting.format, job.a.mask), sa) {
        return false;
    }
    if !meets(sign_mask(job.setting.format, job.b.mask), sb) {
        return false;
    }
    let x = side_a(job, sa, ea);
    let y = side_b(job, sb, eb);
    if larger(job, x, y) {
        return true;
    }
    larger(job, y, x)
}

// Whether some two signs pose a case with these exponent fields.
fn some_signs(job: Job, ea: Biased, eb: Biased) -> bool
    requires { FinitePair job.setting.format ea eb }
    ensures { Valid job → (result ≡ true) ↔ SomeSigns job ea eb }
{
    if signs_admit(job, ea, eb, 0, 0) {
        return true;
    }
    if signs_admit(job, ea, eb, 0, 1) {
        return true;
    }
    if signs_admit(job, ea, eb, 1, 0) {
        return true;
    }
    signs_admit(job, ea, eb, 1, 1)
}

// Whether the exponent fields are those of finite operands of a supported format.
pub(crate) fn finite_fields(format: Format, ea: Biased, eb: Biased) -> bool
    ensures { (result ≡ true) ↔ FinitePair format ea eb }
{
    if !supported(format) {
        return false;
    }
    let ones = power(format.w) - 1;
    if ones <= ea.0 {
        return false;
    }
    eb.0 < ones
}

// Whether some two signs pose a case with these exponent fields, both finite, whose masks are not asked; false where they are no such
// fields. For a job that is refused the answer is free: a job is tested once, where the generator is asked.
pub fn finite_admits(job: Job, ea: Biased, eb: Biased) -> bool
    ensures finite { result ≡ true → FinitePair job.setting.format ea eb }
    ensures exact { Valid job → FinitePair job.setting.format ea eb → (result ≡ true) ↔ SomeSigns job ea eb }
{
    if !finite_fields(job.setting.format, ea, eb) {
        return false;
    }
    some_signs(job, ea, eb)
}

// Whether a case with these exponent fields fits.
pub(crate) fn finite_pair(job: Job, ea: Biased, eb: Biased) -> bool
    requires { FinitePair job.setting.format ea eb }
    ensures { Valid job → (result ≡ true) ↔ PairFits job ea eb }
{
    if !meets(exponent_mask(job.setting.format, job.a.mask), ea.0) {
        return false;
    }
    if !meets(exponent_mask(job.setting.format, job.b.mask), eb.0) {
        return false;
    }
    some_signs(job, ea, eb)
}
