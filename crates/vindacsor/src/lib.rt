// The functions for callers in C and Rust, on numbers and byte slices alone. Each returns the number of the refusal, 0 for none, and puts
// the numbers of its answer into `out`, eight bytes each, low byte first. On a refusal nothing is written; 11 is a buffer too short.
#![tactic(auto)]

ghost use Rattle.std.specs.Prelude.{◌≡◌};
ghost use Rattle.mask.specs.Join.{join};
ghost use Rattle.adder.specs.Result.{result_reply};
ghost use Rattle.adder.specs.Row.{row_reply};
ghost use Rattle.records.specs.Record.{first_in};
ghost use Rattle.delivery.specs.Answer.{Delivered};
ghost use Rattle.replies.specs.Replies.{format_of, mask_from, masks_of, words_of, whole_job, of_result, of_row, of_joined, of_first, confirmation, Generated, WholeGenerated};

use adder::carry_row::carry_row;
use adder::result::rounded_result;
use delivery::deliver;
use format::Format;
use mask::{Mask, join};
use records::read;
use whole::{Masks, Words};

// The mask of two numbers.
fn mask_of(care: u64, value: u64) -> Mask
    ensures { result ≡ mask_from care value }
{
    Mask { care, value }
}

// The rounded result: c.
#[unsafe(no_mangle)]
pub extern "C" fn vindacsor_result(
    w: u64,
    f: u64,
    operation: u64,
    mode: u64,
    a: u64,
    b: u64,
    out: &mut [u8],
) -> u64
    ensures { Delivered (of_result (result_reply (format_of w f) operation mode a b)) out.old out.new result }
{
    let format = Format { w, f };
    deliver(
        out,
        replies::of_result(rounded_result(format, operation, mode, a, b)),
    )
}

// The carry row: 1 and the row, or 0 and 0 where there is none.
#[unsafe(no_mangle)]
pub extern "C" fn vindacsor_row(
    w: u64,
    f: u64,
    operation: u64,
    a: u64,
    b: u64,
    out: &mut [u8],
) -> u64
    ensures { Delivered (of_row (row_reply (format_of w f) operation a b)) out.old out.new result }
{
    let format = Format { w, f };
    deliver(out, replies::of_row(carry_row(format, operation, a, b)))
}

// The mask that fixes what either of two masks fixes: care and value.
#[unsafe(no_mangle)]
pub extern "C" fn vindacsor_join(
    care: u64,
    value: u64,
    care2: u64,
    value2: u64,
    out: &mut [u8],
) -> u64
    ensures { Delivered (of_joined (join (mask_from care value) (mask_from care2 value2))) out.old out.new result }
{
    let one = mask_of(care, value);
    let other = mask_of(care2, value2);
    deliver(out, replies::of_joined(join(one, other)))
}

// The length of the job record that stands first in a file; 0 at its end.
#[unsafe(no_mangle)]
pub extern "C" fn vindacsor_read(file: &[u8], out: &mut [u8]) -> u64
    ensures { Delivered (of_first (first_in file.now)) out.old out.new result }
{
    deliver(out, replies::of_first(read(file)))
}

// Whether a case fits the job whose record stands first in a file: 1 or 0.
#[unsafe(no_mangle)]
pub extern "C" fn vindacsor_confirm(file: &[u8], a: u64, b: u64, c: u64, out: &mut [u8]) -> u64
    ensures { Delivered (confirmation (first_in file.now) a b c) out.old out.new result }
{
    deliver(out, replies::confirmed(read(file), a, b, c))
}

// The case for the job whose record stands first in a file.
#[unsafe(no_mangle)]
pub extern "C" fn vindacsor_generate(file: &[u8], out: &mut [u8]) -> u64
    ensures { Generated (first_in file.now) out.old out.new result }
{
    deliver(out, replies::generated(read(file)))
}

// The whole-number case for a length, the masks of x, y, z and the carries, and three random words: x, y, z, carries.
#[unsafe(no_mangle)]
pub extern "C" fn vindacsor_whole(
    length: u64,
    x_care: u64,
    x_value: u64,
    y_care: u64,
    y_value: u64,
    z_care: u64,
    z_value: u64,
    carries_care: u64,
    carries_value: u64,
    r1: u64,
    r2: u64,
    r3: u64,
    out: &mut [u8],
) -> u64
    ensures { WholeGenerated
        (whole_job length (masks_of (mask_from x_care x_value) (mask_from y_care y_value) (mask_from z_care z_value) (mask_from carries_care carries_value)) (words_of r1 r2 r3))
        out.old out.new result }
{
    let x = mask_of(x_care, x_value);
    let y = mask_of(y_care, y_value);
    let z = mask_of(z_care, z_value);
    let carries = mask_of(carries_care, carries_value);
    let masks = Masks { x, y, z, carries };
    let words = Words {
        x: r1,
        y: r2,
        z: r3,
    };
    let job = whole::Job {
        length,
        masks,
        words,
    };
    deliver(out, replies::of_whole(whole::generate(job)))
}
