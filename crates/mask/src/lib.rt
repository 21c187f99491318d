// Masks: which bits of a word are fixed, and to what.
#![tactic(auto)]

pub mod next;

ghost use Rattle.std.specs.Prelude.{◌≡◌};
ghost use Rattle.mask.specs.Mask.{inside, well_formed, mask_cause, masks_cause, meets, free, fix, low, high};
ghost use Rattle.mask.specs.Join.{agree, join};

use format::{Cause, unless, word_cause};

// A bit of care fixes that bit to the bit of value.
#[derive(Clone, Copy)]
pub struct Mask {
    pub care: u64,
    pub value: u64,
}

// Whether no value bit stands outside care.
fn inside(m: Mask) -> bool
    ensures { result ≡ inside m }
{
    m.value & m.care == m.value
}

// Whether no bit stands above the width, and no value bit outside care.
pub fn well_formed(width: u64, m: Mask) -> bool
    ensures { result ≡ well_formed width m }
{
    word_cause(width, m.care).is_ok() & inside(m)
}

// The cause that is given, where the mask is malformed.
#[tactic(auto, unfolding(crate::specs::Mask::mask_cause))]
fn mask_cause(cause: Cause, width: u64, m: Mask) -> Result<(), Cause>
    ensures { result ≡ mask_cause cause width m }
{
    unless(well_formed(width, m), cause)
}

// The first malformed mask's cause: 5 for a's or x's, 14 for b's or y's, 15 for c's or z's, 16 for the carries', which have so many
// positions.
#[tactic(auto, unfolding(crate::specs::Mask::masks_cause))]
pub fn masks_cause(
    width: u64,
    positions: u64,
    a: Mask,
    b: Mask,
    c: Mask,
    carries: Mask,
) -> Result<(), Cause>
    ensures { result ≡ masks_cause width positions a b c carries }
{
    mask_cause(Cause::Mask, width, a)?;
    mask_cause(Cause::SecondMask, width, b)?;
    mask_cause(Cause::ThirdMask, width, c)?;
    mask_cause(Cause::CarryMask, positions, carries)
}

// Whether x agrees with every fixed bit.
pub fn meets(m: Mask, x: u64) -> bool
    ensures { result ≡ meets x m }
{
    x & m.care == m.value
}

// Whether bit i is not fixed.
pub fn free(m: Mask, i: u64) -> bool
    ensures { result ≡ free m i }
{
    bits::bit_at(m.care, i) == 0
}

// The mask with bit i also fixed to v; as it is where bit i is fixed already, i is 64 or more, or v is no bit.
pub fn fix(m: Mask, i: u64, v: u64) -> Mask
    ensures { result ≡ fix m i v }
{
    if 64 <= i {
        return m;
    }
    if (v < 2) & free(m, i) {
        return Mask {
            care: m.care | (1 << i),
            value: m.value | (v << i),
        };
    }
    m
}

// Whether the two masks fix no bit unlike.
fn agree(m: Mask, n: Mask) -> bool
    ensures { result ≡ agree m n }
{
    let both = m.care & n.care;
    m.value & both == n.value & both
}

// The mask that fixes what either fixes; 5 for a value outside care in either, 13 where the two fix one bit unlike.
#[tactic(auto, unfolding(crate::specs::Join::join))]
pub fn join(m: Mask, n: Mask) -> Result<Mask, Cause>
    ensures { result ≡ join m n }
{
    unless(inside(m), Cause::Mask)?;
    unless(inside(n), Cause::Mask)?;
    unless(agree(m, n), Cause::Clash)?;
    Ok(Mask {
        care: m.care | n.care,
        value: m.value | n.value,
    })
}

// The mask on the low k bits.
pub fn low(m: Mask, k: u64) -> Mask
    ensures { result ≡ low k m }
{
    Mask {
        care: bits::low(m.care, k),
        value: bits::low(m.value, k),
    }
}

// The mask on the bits from position k on.
pub fn high(m: Mask, k: u64) -> Mask
    ensures { result ≡ high k m }
{
    Mask {
        care: bits::high(m.care, k),
        value: bits::high(m.value, k),
    }
}
