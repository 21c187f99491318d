// Vectors for IEEE 754 addition: those that the source documents print, and cases built from the errors that they describe in words, in every
// format whose words are given.
use crate::ask::{difference, sum};
use crate::words::{EIGHT, Words, after, before};
use std::io;
use tally::Cases;

// (-0) - (+0) = -0, in every mode.
fn negative_zero(cases: &mut Cases<'_, impl Print>, words: Words) -> io::Result<()> {
    for mode in 0..5 {
        difference(cases, words.sized, mode, words.sign, 0, words.sign)?;
    }
    Ok(())
}

// Operands that are infinite, with one that is finite.
fn infinite_operands(cases: &mut Cases<'_, impl Print>, words: Words) -> io::Result<()> {
    let Words {
        sized,
        infinity,
        ..
    } = words;
    let negative = infinity | words.sign;
    difference(cases, sized, 0, infinity, negative, infinity)?;
    sum(cases, sized, 0, negative, before(infinity), negative)?;
    difference(cases, sized, 0, words.unity, infinity, negative)
}

// Sums that are a NaN: of infinities of unlike sign, and of a NaN.
fn no_number(cases: &mut Cases<'_, impl Print>, words: Words) -> io::Result<()> {
    let Words {
        sized,
        sign,
        infinity,
        nan,
        ..
    } = words;
    sum(cases, sized, 0, infinity, infinity | sign, nan)?;
    sum(cases, sized, 0, after(infinity), 1, nan)?;
    difference(cases, sized, 0, infinity, nan | sign, nan)
}

// What the source documents print as numbers or as rules.
pub(crate) fn published(cases: &mut Cases<'_, impl Print>, words: Words) -> io::Result<()> {
    negative_zero(cases, words)?;
    infinite_operands(cases, words)?;
    no_number(cases, words)
}

// Built: a far operand a quarter of a unit away from the larger one, on either side.
fn far_operand(cases: &mut Cases<'_, impl Print>, words: Words) -> io::Result<()> {
    let Words {
        sized,
        unity,
        quarter,
        ..
    } = words;
    sum(cases, sized, 0, unity, quarter, unity)?;
    sum(cases, sized, 2, unity, quarter, after(unity))?;
    difference(cases, sized, 0, unity, quarter, unity)?;
    difference(cases, sized, 1, unity, quarter, before(unity))?;
    difference(cases, sized, 0, unity, after(quarter), before(unity))
}

// Built: ties, to the even neighbour below and above, and away from zero.
fn ties(cases: &mut Cases<'_, impl Print>, words: Words) -> io::Result<()> {
    let Words {
        sized,
        unity,
        half,
        ..
    } = words;
    let odd = after(unity);
    sum(cases, sized, 0, unity, half, unity)?;
    sum(cases, sized, 0, odd, half, after(odd))?;
    sum(cases, sized, 0, unity, after(half), odd)?;
    sum(cases, sized, 4, unity, half, odd)?;
    sum(cases, sized, 4, unity, before(half), unity)
}

// Built: rounding that carries into the next exponent.
fn carried(cases: &mut Cases<'_, impl Print>, words: Words) -> io::Result<()> {
    let Words {
        sized,
        two,
        half,
        ..
    } = words;
    sum(cases, sized, 0, before(two), half, two)?;
    sum(cases, sized, 1, before(two), half, before(two))
}

// Built: rounding that carries out of the format.
fn overflowing(cases: &mut Cases<'_, impl Print>, words: Words) -> io::Result<()> {
    let Words {
        sized,
        infinity,
        ..
    } = words;
    let largest = before(infinity);
    let half = words.half_of_largest;
    sum(cases, sized, 0, largest, half, infinity)?;
    sum(cases, sized, 1, largest, half, largest)?;
    sum(cases, sized, 4, largest, half, infinity)
}

// Built: the largest finite number and the smallest step, in every mode.
fn smallest_step(cases: &mut Cases<'_, impl Print>, words: Words) -> io::Result<()> {
    let largest = before(words.infinity);
    for mode in 0..5 {
        let c = if mode == 2 { words.infinity } else { largest };
        sum(cases, words.sized, mode, largest, 1, c)?;
    }
    Ok(())
}

// Built: e = 0 against e = 1.
fn binades(cases: &mut Cases<'_, impl Print>, words: Words) -> io::Result<()> {
    let Words { sized, normal, .. } = words;
    sum(cases, sized, 0, before(normal), 1, normal)?;
    difference(cases, sized, 0, normal, 1, before(normal))
}

pub(crate) fn built(cases: &mut Cases<'_, impl Print>, words: Words) -> io::Result<()> {
    far_operand(cases, words)?;
    ties(cases, words)?;
    carried(cases, words)?;
    overflowing(cases, words)?;
    smallest_step(cases, words)?;
    binades(cases, words)
}

// Of the eight-bit format: the sum that source document 000 prints; and built, 60 - 10, where rounding up does not give a.
pub(crate) fn eight_bit(cases: &mut Cases<'_, impl Print>) -> io::Result<()> {
    sum(cases, EIGHT, 0, 0x45, 0x2B, 0x4C)?;
    difference(cases, EIGHT, 2, 0x60, 0x10, 0x5F)
}
