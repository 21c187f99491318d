// What the closed classes rule out: partners of an exponent field of a, or all pairs at once.
ghost use Rattle.std.specs.Prelude.{true, ◌≡◌, ℕ, ◌+◌, ◌^◌, ◌≤◌, ◌<◌};
ghost use Rattle.bits.specs.Bit.{bit};
ghost use Rattle.job.specs.Job.{Valid};
ghost use Rattle.word.specs.declared.Biased.{Biased};
ghost use Rattle.classes.specs.Class.{far_gap, low_field};
ghost use Rattle.answers.specs.Kept.{closed_bit, Kept, ClassEnd, NoPartner, NoPair};

use crate::PLACES;
use crate::known::closed_place;
use bits::bit_at;
use classes::FAR_GAP;
use job::Job;
use job::guards::reach;
use word::Biased;

// How many bits from i on are ones.
fn run_from(word: u64, i: u64) -> u64
    requires { (1 ≤ i) × (i < 64) }
    ensures { (result ≤ 64) × ((k : ℕ) → k < result → bit word (i + k) ≡ 1) }
{
    u64::trailing_zeros((word >> i) + 1) as u64
}

// From eb on, which is no larger than ea, a field such that those passed over are no larger than ea and have closed classes.
fn open_below(reach: u64, ea: Biased, eb: Biased, closed: u64) -> Biased
    requires { (reach < 60) × (far_gap reach < ea.0) × (ea.0 + 1 < 2 ^ 64) × (eb.0 ≤ ea.0) }
    ensures { (eb.0 ≤ result.0) × ((d : Biased) → eb.0 ≤ d.0 → d.0 < result.0 → (d.0 ≤ ea.0) × (bit closed (closed_bit reach 0 (low_field reach ea d).0) ≡ 1)) }
{
    if eb.0 == 0 {
        return Biased(bit_at(closed, 0));
    }
    let far = ea.0 - (reach + FAR_GAP);
    let from = eb.0.max(far);
    let run = run_from(closed, from - far + 1);
    if run == 0 {
        return eb;
    }
    if ea.0 - from < run {
        return Biased(ea.0 + 1);
    }
    Biased(from + run)
}

// From eb on, which is larger than ea, a field up to `end` such that those passed over have closed classes.
fn open_above(reach: u64, ea: Biased, eb: Biased, end: Biased, closed: u64) -> Biased
    requires { (reach < 60) × (ea.0 < eb.0) × (eb.0 < end.0) }
    ensures { (eb.0 ≤ result.0) × (result.0 ≤ end.0) × ((d : Biased) → eb.0 ≤ d.0 → d.0 < result.0 → bit closed (closed_bit reach 1 (low_field reach d ea).0) ≡ 1) }
{
    let far = reach + FAR_GAP;
    if ea.0 == 0 {
        if bit_at(closed, far + 1) == 1 {
            return end;
        }
        return eb;
    }
    let gap = far.min(eb.0 - ea.0);
    let run = run_from(closed, gap);
    if far < gap + run {
        return end;
    }
    if end.0 - eb.0 < run {
        return end;
    }
    Biased(eb.0 + run)
}

// From eb on, a field of b before which none admits a case with a's, as far as the closed classes tell. For a job that is refused,
// another end than `class_end` gives or another table than one that `admits` kept, the answer is free but not below eb.
pub fn open_from(job: Job, ea: Biased, eb: Biased, end: Biased, table: &[u64; PLACES]) -> Biased
    ensures { (eb.0 ≤ result.0) × (Valid job → ClassEnd job end → Kept job table.now → NoPartner job ea eb result) }
{
    let reach = reach(job);
    let larger = ea.0.max(eb.0);
    if larger <= reach + FAR_GAP {
        return eb;
    }
    if end.0 <= larger {
        return eb;
    }
    if eb.0 <= ea.0 {
        let at = closed_place(reach, 0) as usize;
        return open_below(reach, ea, eb, table[at]);
    }
    let at = closed_place(reach, 1) as usize;
    open_above(reach, ea, eb, end, table[at])
}

// Whether every class of pairs with a's field above the far gap is known to admit nothing. For a job that is refused or another table
// than one that `admits` kept, the answer is free.
pub fn all_closed(job: Job, table: &[u64; PLACES]) -> bool
    ensures { result ≡ true → Valid job → Kept job table.now → (end : Biased) → ClassEnd job end → NoPair job end }
{
    let reach = reach(job);
    let below = table[closed_place(reach, 0) as usize];
    let above = table[closed_place(reach, 1) as usize];
    let far = reach + FAR_GAP;
    (bit_at(below, 0) == 1) & (far < run_from(below, 1)) & (far <= run_from(above, 1))
}
