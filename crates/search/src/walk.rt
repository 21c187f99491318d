// The bits of one operand, fixed from the top: each follows the random word where that leaves a case.
ghost use Rattle.std.specs.Prelude.{◌≡◌, suc, ◌≤◌, ◌<◌};
ghost use Rattle.format.specs.Format.{Supported};
ghost use Rattle.search.specs.Walk.{WalkStart, StartState, NextState, StateRun, WalkEnd};

use bits::power;
use job::words::{wanted, with_word_mask};
use job::{Job, Role};
use left::first_left;
use mask::{Mask, fix, free};
use pass::Exponents;

// What is handed on from one bit position to the next: the mask of the operand with the bits chosen so far, how many bits are open, and
// the pair of exponent fields where the search stands: no case, bounds left out, has fields before it.
#[derive(Clone, Copy)]
pub struct State {
    pub mask: Mask,
    pub open_bits: u64,
    pub at: Exponents,
}

// The state with its highest open bit chosen: where it is free, it follows the random word, or is the other where no case would be left. The
// other needs no question: a case was left, so one is left there. Fixing more never gains a case, so the search goes on where it stands.
fn follow_bit(job: Job, role: Role, word: u64, state: State) -> State
    requires { Supported job.setting.format × (0 < state.open_bits) }
    ensures { (state.open_bits ≡ suc result.open_bits) × (StartState job role state → NextState job role word state result) }
{
    let mask = state.mask;
    let at = state.at;
    let k = state.open_bits - 1;
    if !free(mask, k) {
        return State {
            mask,
            open_bits: k,
            at,
        };
    }
    let v = bits::bit_at(word, k);
    let tried = fix(mask, k, v);
    let first = first_left(with_word_mask(job, role, tried), at);
    if first.a.0 < power(job.setting.format.w) {
        return State {
            mask: tried,
            open_bits: k,
            at: first,
        };
    }
    State {
        mask: fix(mask, k, 1 - v),
        open_bits: k,
        at,
    }
}

// The state with the next `count` of its open bits chosen, one at each call.
fn follow_bits(job: Job, role: Role, word: u64, state: State, count: u64) -> State
    requires { Supported job.setting.format × (count ≤ state.open_bits) }
    ensures { StateRun job role word count state result }
{
    if count == 0 {
        return state;
    }
    let next = follow_bit(job, role, word, state);
    follow_bits(job, role, word, next, count - 1)
}

// The job with one operand fixed to its closest value, where its bits from position `open_bits` on are fixed and no case, bounds left out,
// has exponent fields before `start`.
pub(crate) fn follow(job: Job, role: Role, word: u64, open_bits: u64, start: Exponents) -> Job
    requires { Supported job.setting.format }
    ensures { (result.setting ≡ job.setting) × (WalkStart job role open_bits start → WalkEnd job role word result) }
{
    let own = wanted(job, role);
    let mask = own.mask;
    let state = State {
        mask,
        open_bits,
        at: start,
    };
    let end = follow_bits(job, role, word, state, open_bits);
    with_word_mask(job, role, end.mask)
}
