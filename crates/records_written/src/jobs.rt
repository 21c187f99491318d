// Pseudo-random jobs by a congruential generator. Every state gives an entry and a room; no state's numbers are told by those of another.
use bounds::Ends;
use format::Format;
use job::{Dropped, Job, Setting, Wanted};
use layout::Entry;
use mask::Mask;

// 2^31 - 1, a prime.
const MODULUS: u64 = 2147483647;

// The next state.
fn next(state: u64) -> u64 {
    state % MODULUS * 48271 % MODULUS
}

// The state after the two that a mask, two words, bounds, or g and its mask are made of.
fn skipped(state: u64) -> u64 {
    next(next(state))
}

// The state of the next job.
pub fn following(state: u64) -> u64 {
    let words = skipped(skipped(skipped(skipped(next(state)))));
    skipped(skipped(skipped(skipped(skipped(words)))))
}

// A word of 64 bits, 16 from each of four other multipliers.
fn word(state: u64) -> u64 {
    let s = state % MODULUS;
    let one = s * 16807 % MODULUS % 65536;
    let two = s * 69621 % MODULUS % 65536;
    let three = s * 39373 % MODULUS % 65536;
    let four = s * 40014 % MODULUS % 65536;
    (one * 65536 + two) * 4294967296 + three * 65536 + four
}

// Nothing fixed, or in two of three cases about half of the bits. Of these one in 16 is malformed: its value is any word.
fn mask(width: u64, state: u64) -> Mask {
    if state % 3 == 0 {
        return Mask { care: 0, value: 0 };
    }
    let care = bits::low(word(state), width);
    let value = word(next(state));
    if state / 3 % 16 == 0 {
        return Mask { care, value };
    }
    Mask {
        care,
        value: care & value,
    }
}

// A random word, or in one of two cases 0.
fn random(width: u64, state: u64) -> u64 {
    if state % 2 == 0 {
        0
    } else {
        bits::low(word(state), width)
    }
}

// A g up to 8, or in one of 37 cases 9, and a mask on its bits. Of these masks one in three fixes nothing, so some jobs state a g alone.
fn dropped(state: u64) -> Dropped {
    let g = state / 48 % 37 / 4;
    Dropped {
        g,
        mask: mask(g + 1, state),
    }
}

// The ends of an interval, both positive, both negative, or the low one negative: it is not above the high one, unless one is a NaN.
fn ends(width: u64, state: u64) -> Ends {
    let places = width.saturating_sub(1);
    let sign = bits::power(places);
    let x = bits::low(word(state), places);
    let y = bits::low(word(next(state)), places);
    let low = x.min(y);
    let high = x.max(y);
    match state / 48 % 3 {
        0 => Ends { low, high },
        1 => Ends {
            low: sign | high,
            high: sign | low,
        },
        _ => Ends {
            low: sign | x,
            high: y,
        },
    }
}

// No bounds, or in one of three cases ends as above. Of these one in 16 has any two words, and one in 16 its ends exchanged.
fn bounds(width: u64, state: u64) -> Option<Ends> {
    if state % 3 != 0 {
        return None;
    }
    if state / 3 % 16 == 0 {
        return Some(Ends {
            low: word(state),
            high: word(next(state)),
        });
    }
    let drawn = ends(width, state);
    if state / 144 % 16 == 0 {
        return Some(Ends {
            low: drawn.high,
            high: drawn.low,
        });
    }
    Some(drawn)
}

fn wanted(width: u64, fixed: u64, bounded: u64) -> Wanted {
    Wanted {
        mask: mask(width, fixed),
        bounds: bounds(width, bounded),
    }
}

// The entry of a state: its numbers are those of the state, its fields those of the states after it.
pub fn entry(state: u64) -> Entry {
    let w = 2 + state % 10;
    let f = 2 + state / 10 % 51;
    let width = w + f + 1;
    let first = next(state);
    let second = skipped(first);
    let third = skipped(second);
    let fourth = skipped(third);
    let words = skipped(fourth);
    let below = skipped(words);
    let a = skipped(below);
    let b = skipped(a);
    let job = Job {
        setting: Setting {
            format: Format { w, f },
            operation: state / 510 % 2,
            mode: state / 1020 % 5,
        },
        a: wanted(width, first, a),
        b: wanted(width, second, b),
        c: wanted(width, third, skipped(b)),
        carries: mask(f + 1, fourth),
        dropped: dropped(below),
    };
    Entry {
        job,
        r1: random(width, words),
        r2: random(width, next(words)),
    }
}

// The room for a state's record: the whole buffer, or in one of four cases any part of it.
pub fn room(state: u64) -> usize {
    if state / 5100 % 4 == 0 {
        (state / 20400 % 142) as usize
    } else {
        141
    }
}
