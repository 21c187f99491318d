// Number formats, the refusals with their numbers, and the checks of plain numbers.
#![tactic(auto)]

pub mod cause;
pub mod limits;

ghost use Rattle.std.specs.Prelude.{◌≡◌, ◌↔◌, true};
ghost use Rattle.format.specs.Cause.{unless};
ghost use Rattle.format.specs.Limits.{within};
ghost use Rattle.format.specs.Format.{Supported, format_cause, operation_cause, mode_cause, word_cause};

pub use cause::Cause;

// A binary floating-point format: w exponent bits and f fraction bits.
#[derive(Clone, Copy)]
pub struct Format {
    pub w: u64,
    pub f: u64,
}

// n lies between two limits, both included.
pub fn within(least: u64, most: u64, n: u64) -> bool
    ensures { result ≡ within least most n }
{
    (least <= n) & (n <= most)
}

// Nothing where the test holds, else the cause.
pub fn unless(ok: bool, cause: Cause) -> Result<(), Cause>
    ensures { result ≡ unless ok cause }
{
    if ok { Ok(()) } else { Err(cause) }
}

// 1 or 2 where a width lies outside its limits.
#[tactic(auto, unfolding(crate::specs::Format::format_cause))]
pub fn format_cause(format: Format) -> Result<(), Cause>
    ensures { result ≡ format_cause format }
{
    let w_fits = within(
        limits::LEAST_EXPONENT_BITS,
        limits::MOST_EXPONENT_BITS,
        format.w,
    );
    let f_fits = within(
        limits::LEAST_FRACTION_BITS,
        limits::MOST_FRACTION_BITS,
        format.f,
    );
    unless(w_fits, Cause::ExponentBits)?;
    unless(f_fits, Cause::FractionBits)
}

// Whether a format is not refused.
pub fn supported(format: Format) -> bool
    ensures { (result ≡ true) ↔ Supported format }
{
    format_cause(format).is_ok()
}

// 3 where the operation is neither 0, add, nor 1, subtract.
#[tactic(auto, unfolding(crate::specs::Format::operation_cause))]
pub fn operation_cause(operation: u64) -> Result<(), Cause>
    ensures { result ≡ operation_cause operation }
{
    unless(operation <= limits::MOST_OPERATION, Cause::Operation)
}

// 4 where the mode is above 4.
#[tactic(auto, unfolding(crate::specs::Format::mode_cause))]
pub fn mode_cause(mode: u64) -> Result<(), Cause>
    ensures { result ≡ mode_cause mode }
{
    unless(mode <= limits::MOST_MODE, Cause::Mode)
}

// 6 where x has a bit at position `width` or above. No u64 has one at 64 or above.
pub fn word_cause(width: u64, x: u64) -> Result<(), Cause>
    ensures { result ≡ word_cause width x }
{
    if 64 <= width {
        return Ok(());
    }
    unless(x >> width == 0, Cause::Word)
}
