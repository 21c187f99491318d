// The functions of `vindacsor` for callers in C and Rust: this crate is the static library, and `vindacsor` the library for other crates.
// Each export hands its arguments on and promises what the function that it calls does.
#![tactic(auto)]

ghost use Rattle.mask.specs.Join.{join};
ghost use Rattle.adder.specs.Result.{result_reply};
ghost use Rattle.adder.specs.Row.{row_reply};
ghost use Rattle.records.specs.Record.{first_in};
ghost use Rattle.delivery.specs.Answer.{Delivered};
ghost use Rattle.replies.specs.Replies.{format_of, mask_from, masks_of, words_of, whole_job, of_result, of_row, of_joined, of_first, confirmation, Generated, WholeGenerated};

// The rounded result: c.
#[unsafe(no_mangle)]
pub extern "C" fn vindacsor_result(
    w: u64,
    f: u64,
    operation: u64,
    mode: u64,
    a: u64,
    b: u64,
    out: &mut [u8],
) -> u64
    ensures { Delivered (of_result (result_reply (format_of w f) operation mode a b)) out.old out.new result }
{
    vindacsor::vindacsor_result(w, f, operation, mode, a, b, out)
}

// The carry row: 1 and the row, or 0 and 0 where there is none.
#[unsafe(no_mangle)]
pub extern "C" fn vindacsor_row(
    w: u64,
    f: u64,
    operation: u64,
    a: u64,
    b: u64,
    out: &mut [u8],
) -> u64
    ensures { Delivered (of_row (row_reply (format_of w f) operation a b)) out.old out.new result }
{
    vindacsor::vindacsor_row(w, f, operation, a, b, out)
}

// The mask that fixes what either of two masks fixes: care and value.
#[unsafe(no_mangle)]
pub extern "C" fn vindacsor_join(
    care: u64,
    value: u64,
    care2: u64,
    value2: u64,
    out: &mut [u8],
) -> u64
    ensures { Delivered (of_joined (join (mask_from care value) (mask_from care2 value2))) out.old out.new result }
{
    vindacsor::vindacsor_join(care, value, care2, value2, out)
}

// The length of the job record that stands first in a file; 0 at its end.
#[unsafe(no_mangle)]
pub extern "C" fn vindacsor_read(file: &[u8], out: &mut [u8]) -> u64
    ensures { Delivered (of_first (first_in file.now)) out.old out.new result }
{
    vindacsor::vindacsor_read(file, out)
}

// Whether a case fits the job whose record stands first in a file: 1 or 0.
#[unsafe(no_mangle)]
pub extern "C" fn vindacsor_confirm(file: &[u8], a: u64, b: u64, c: u64, out: &mut [u8]) -> u64
    ensures { Delivered (confirmation (first_in file.now) a b c) out.old out.new result }
{
    vindacsor::vindacsor_confirm(file, a, b, c, out)
}

// The case for the job whose record stands first in a file.
#[unsafe(no_mangle)]
pub extern "C" fn vindacsor_generate(file: &[u8], out: &mut [u8]) -> u64
    ensures { Generated (first_in file.now) out.old out.new result }
{
    vindacsor::vindacsor_generate(file, out)
}

// The whole-number case for a length, the masks of x, y, z and the carries, and three random words: x, y, z, carries.
#[unsafe(no_mangle)]
pub extern "C" fn vindacsor_whole(
    length: u64,
    x_care: u64,
    x_value: u64,
    y_care: u64,
    y_value: u64,
    z_care: u64,
    z_value: u64,
    carries_care: u64,
    carries_value: u64,
    r1: u64,
    r2: u64,
    r3: u64,
    out: &mut [u8],
) -> u64
    ensures { WholeGenerated
        (whole_job length (masks_of (mask_from x_care x_value) (mask_from y_care y_value) (mask_from z_care z_value) (mask_from carries_care carries_value)) (words_of r1 r2 r3))
        out.old out.new result }
{
    vindacsor::vindacsor_whole(
        length,
        x_care,
        x_value,
        y_care,
        y_value,
        z_care,
        z_value,
        carries_care,
        carries_value,
        r1,
        r2,
        r3,
        out,
    )
}
