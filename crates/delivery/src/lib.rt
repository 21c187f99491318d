// What an exported function does with its answer: the answer by value, and its numbers put into a lent buffer, eight bytes each, low byte first.
#![tactic(auto)]

ghost use Rattle.std.specs.Prelude.{Ok, ◌≡◌, ◌*◌, ◌≤◌, length};
ghost use Rattle.numbers.specs.Number.{put};
ghost use Rattle.delivery.specs.Answer.{bytes_of, Delivered};

use format::Cause;
use numbers::put_within;

// The bytes of a number.
const SIZE: usize = 8;

// Puts the numbers at the front of the buffer.
fn put_numbers(out: &mut [u8], given: &[u64])
    requires { 8 * length given.now ≤ length out.old }
    ensures { out.new ≡ put out.old 0 (bytes_of given.now) }
{
    for (i, &number) in given.iter().enumerate() {
        put_within(out, SIZE * i, SIZE, number);
    }
}

// Delivers the numbers: 0, or 11 and nothing written where the buffer is too short.
fn deliver_numbers(out: &mut [u8], given: &[u64]) -> u64
    ensures { Delivered (Ok given.now) out.old out.new result }
{
    if out.len() < SIZE * given.len() {
        return Cause::Buffer.number();
    }
    put_numbers(out, given);
    0
}

// Delivers an answer of so many numbers: they go into the buffer and 0 is returned, or 11 where
// it is too short; of a refusal its number, and nothing is written.
pub fn deliver<const N: usize>(out: &mut [u8], answer: Result<[u64; N], Cause>) -> u64
    ensures { Delivered answer.entry out.old out.new result }
{
    match answer {
        Ok(given) => deliver_numbers(out, &given),
        Err(cause) => cause.number(),
    }
}
