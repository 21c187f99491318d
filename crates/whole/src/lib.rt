// The whole-number generator: numbers x, y and z of a given length and the carries of x + y, each under a mask, chosen by random words.
#![tactic(auto)]

mod left;
mod walk;

ghost use Rattle.std.specs.Prelude.{◌≡◌, ◌^◌, ◌<◌};
ghost use Rattle.format.specs.Limits.{most_length};
ghost use Rattle.whole.specs.Job.{words_cause, job_cause};
ghost use Rattle.whole.specs.Choice.{Chosen};
ghost use Rattle.whole.specs.Reply.{Replied};
ghost use Rattle.whole.specs.Walk.{Ready, case_of};

use format::{Cause, limits, within, word_cause};
use mask::{Mask, masks_cause};

// The masks of the three numbers and of the carries.
#[derive(Clone, Copy)]
pub struct Masks {
    pub x: Mask,
    pub y: Mask,
    pub z: Mask,
    pub carries: Mask,
}

// The random words, one for each number.
#[derive(Clone, Copy)]
pub struct Words {
    pub x: u64,
    pub y: u64,
    pub z: u64,
}

#[derive(Clone, Copy)]
pub struct Job {
    pub length: u64,
    pub masks: Masks,
    pub words: Words,
}

// x + y + (carry in) = z + 2^length * (carry out); bit i of the carries goes into position i.
#[derive(Clone, Copy)]
pub struct Case {
    pub x: u64,
    pub y: u64,
    pub z: u64,
    pub carries: u64,
}

// Which of the three numbers is chosen.
#[derive(Clone, Copy)]
pub enum Role {
    X,
    Y,
    Z,
}

// 6 where a random word is too long.
#[tactic(auto, unfolding(crate::specs::Job::words_cause))]
fn words_cause(length: u64, words: Words) -> Result<(), Cause>
    ensures { result ≡ words_cause length words }
{
    word_cause(length, words.x)?;
    word_cause(length, words.y)?;
    word_cause(length, words.z)
}

// 12, 5, 14, 15, 16 or 6 where the job is refused as it stands. The carry mask is one bit longer.
#[tactic(auto, unfolding(crate::specs::Job::job_cause))]
pub fn job_cause(job: Job) -> Result<(), Cause>
    ensures { result ≡ job_cause job }
{
    let length = job.length;
    if !within(limits::LEAST_LENGTH, limits::MOST_LENGTH, length) {
        return Err(Cause::WholeLength);
    }
    masks_cause(
        length,
        length + 1,
        job.masks.x,
        job.masks.y,
        job.masks.z,
        job.masks.carries,
    )?;
    words_cause(length, job.words)
}

// The case of three numbers that make one: the carry in and the carries follow from them.
fn case_of(x: u64, y: u64, z: u64) -> Case
    requires { (x < 2 ^ most_length) × (y < 2 ^ most_length) × (z < 2 ^ most_length) }
    ensures { result ≡ case_of x y z }
{
    let carry_in = (x + y + z) % 2;
    Case {
        x,
        y,
        z,
        carries: (x ^ y) ^ (x + y + carry_in),
    }
}

// The case that the random words choose, of those that are left.
fn choose(length: u64, masks: Masks, words: Words) -> Case
    requires { Ready length masks }
    ensures { Chosen length masks words result }
{
    let with_x = walk::follow(length, masks, Role::X, words.x, length);
    let with_y = walk::follow(length, with_x, Role::Y, words.y, length);
    let with_z = walk::follow(length, with_y, Role::Z, words.z, length);
    let x = with_x.x;
    let y = with_y.y;
    let z = with_z.z;
    case_of(x.value, y.value, z.value)
}

// The reply to a job: the chosen case, or the refusal.
pub fn generate(job: Job) -> Result<Case, Cause>
    ensures { Replied job result }
{
    job_cause(job)?;
    let masks = job.masks;
    let words = job.words;
    if left::left(job.length, masks) {
        return Ok(choose(job.length, masks, words));
    }
    Err(Cause::NoCase)
}
