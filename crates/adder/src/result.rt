// The rounded result of two words, and the checks that come before it.
ghost use Rattle.std.specs.Prelude.{◌≡◌};
ghost use Rattle.format.specs.Cause.{first};
ghost use Rattle.format.specs.Format.{Supported, word_bits, format_cause, operation_cause, word_cause};
ghost use Rattle.adder.specs.Result.{result_cause, result_reply};

use crate::sum::kind_sum;
use format::{Cause, Format, format_cause, mode_cause, operation_cause, word_cause};
use word::unpack::operands;

// 6 where an operand has a bit above the word of a supported format.
pub(crate) fn words_cause(format: Format, a: u64, b: u64) -> Result<(), Cause>
    requires { Supported format }
    ensures { result ≡ first (word_cause (word_bits format) a) (word_cause (word_bits format) b) }
{
    let width = format.w + format.f + 1;
    word_cause(width, a)?;
    word_cause(width, b)
}

// The first cause against a format and an operation.
pub(crate) fn plain_cause(format: Format, operation: u64) -> Result<(), Cause>
    ensures { result ≡ first (format_cause format) (operation_cause operation) }
{
    format_cause(format)?;
    operation_cause(operation)
}

// The first cause against a rounded result. The words are looked at only in a supported format.
#[tactic(auto, unfolding(crate::specs::Result::result_cause))]
fn result_cause(format: Format, operation: u64, mode: u64, a: u64, b: u64) -> Result<(), Cause>
    ensures { result ≡ result_cause format operation mode a b }
{
    plain_cause(format, operation)?;
    mode_cause(mode)?;
    words_cause(format, a, b)
}

// The rounded sum (operation 0) or difference (operation 1) of two words of a format, or the refusal.
pub fn rounded_result(
    format: Format,
    operation: u64,
    mode: u64,
    a: u64,
    b: u64,
) -> Result<u64, Cause>
    ensures { result ≡ result_reply format operation mode a b }
{
    result_cause(format, operation, mode, a, b)?;
    let pair = operands(format, operation, a, b);
    Ok(kind_sum(format, mode, pair))
}
