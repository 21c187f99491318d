// The layout of a job record: which numbers it has, in which order, and by its map.
#![tactic(auto)]

ghost use Rattle.std.specs.Prelude.{◌≡◌, ◌+◌, ◌*◌, ◌<◌};
ghost use Rattle.bits.specs.Bit.{bit};
ghost use Rattle.layout.specs.Layout.{map_of};
ghost use Rattle.layout.specs.Fields.{word_bytes, with_default, layout, field_sizes, ends_of, entry_numbers, presence, second_map, entry_map, mask_at, bounds_at, job_with, entry_with};

use bits::bit_at;
use bounds::Ends;
use format::Format;
use job::below::normalised;
use job::{Dropped, Job, Setting, Wanted};
use mask::Mask;

// A word of up to so many bits is narrow.
const NARROW_BITS: u64 = 32;
// How many bytes a narrow word has.
const NARROW: usize = 4;
// How many any other word has.
const WIDE: usize = 8;
// The bits of both map bytes that have a meaning, as of one number.
pub const MAP_WIDTH: u64 = 11;
// The map bit that announces a second map byte.
pub const ANNOUNCING: u64 = 7;
// The numbers of all fields.
pub const NUMBERS: usize = 20;
// How many of them, the first ones, are of fields that have a default.
const WITH_DEFAULT: usize = 14;

// A job with its two random words: the content of a record.
#[derive(Clone, Copy)]
pub struct Entry {
    pub job: Job,
    pub r1: u64,
    pub r2: u64,
}

// A number of a record: the map bit of its field, and how many bytes it has where that bit stands.
#[derive(Clone, Copy)]
pub struct Slot {
    pub bit: u64,
    pub size: usize,
}

// How many bytes a word has in a record with these widths, whatever they are. The sign is a bit of the word too, so a narrow word has one bit
// less for its fields, and no sum can overflow.
pub fn word_bytes(format: Format) -> usize
    ensures { result ≡ word_bytes format }
{
    if NARROW_BITS <= format.w {
        return WIDE;
    }
    if NARROW_BITS - format.w <= format.f {
        return WIDE;
    }
    NARROW
}

// The numbers in bit order: care and value of the masks of a, b, c and carries, the mode, the random words, g, care and value of the mask
// of the dropped bits, the low and the high bound of a, b and c.
fn layout(word: usize) -> [Slot; NUMBERS]
    ensures { result ≡ layout word }
{
    [
        Slot { bit: 0, size: word },
        Slot { bit: 0, size: word },
        Slot { bit: 1, size: word },
        Slot { bit: 1, size: word },
        Slot { bit: 2, size: word },
        Slot { bit: 2, size: word },
        Slot { bit: 3, size: word },
        Slot { bit: 3, size: word },
        Slot { bit: 4, size: 1 },
        Slot { bit: 5, size: word },
        Slot { bit: 5, size: word },
        Slot { bit: 6, size: 1 },
        Slot { bit: 6, size: 2 },
        Slot { bit: 6, size: 2 },
        Slot { bit: 8, size: word },
        Slot { bit: 8, size: word },
        Slot { bit: 9, size: word },
        Slot { bit: 9, size: word },
        Slot {
            bit: 10,
            size: word,
        },
        Slot {
            bit: 10,
            size: word,
        },
    ]
}

// How many bytes the number has in a record with this map.
fn size(slot: Slot, map: u64) -> usize
    ensures { result ≡ bit map slot.bit * slot.size }
{
    if bit_at(map, slot.bit) == 0 {
        return 0;
    }
    slot.size
}

// How many bytes each number has in a record with words of so many bytes and this map.
pub fn field_sizes(word: usize, map: u64) -> [usize; NUMBERS]
    ensures { result ≡ field_sizes word map }
{
    let slots = layout(word);
    let mut sizes = [0; NUMBERS];
    for (i, &slot) in slots.iter().enumerate() {
        sizes[i] = size(slot, map);
    }
    sizes
}

// The map bits of the fields that have a default: each of their numbers that is not 0 sets the bit of its field.
fn map_of(word: usize, numbers: [u64; NUMBERS]) -> u64
    ensures { result ≡ map_of (with_default word) numbers }
{
    let slots = layout(word);
    let mut map: u64 = 0;
    for (slot, &number) in slots[..WITH_DEFAULT].iter().zip(&numbers) {
        if number != 0 {
            map |= 1 << slot.bit;
        }
    }
    map
}

// The ends of a word's bounds; 0 and 0 where none are stated.
fn ends_of(w: Wanted) -> Ends
    ensures { result ≡ ends_of w.bounds }
{
    w.bounds.unwrap_or(Ends { low: 0, high: 0 })
}

// The numbers of an entry, in the order of the layout; g is 0 where none of the dropped bits is fixed.
pub fn entry_numbers(entry: Entry) -> [u64; NUMBERS]
    ensures { result ≡ entry_numbers entry }
{
    let dropped = normalised(entry.job.dropped);
    let a = ends_of(entry.job.a);
    let b = ends_of(entry.job.b);
    let c = ends_of(entry.job.c);
    [
        entry.job.a.mask.care,
        entry.job.a.mask.value,
        entry.job.b.mask.care,
        entry.job.b.mask.value,
        entry.job.c.mask.care,
        entry.job.c.mask.value,
        entry.job.carries.care,
        entry.job.carries.value,
        entry.job.setting.mode,
        entry.r1,
        entry.r2,
        dropped.g,
        dropped.mask.care,
        dropped.mask.value,
        a.low,
        a.high,
        b.low,
        b.high,
        c.low,
        c.high,
    ]
}

// 1 where bounds of the word are stated, else 0.
fn presence(w: Wanted) -> u64
    ensures { result ≡ presence w.bounds }
{
    w.bounds.is_some() as u64
}

// The second map byte: which of a, b and c have bounds.
fn second_map(job: Job) -> u64
    ensures { result ≡ second_map job }
{
    let a = presence(job.a);
    let b = presence(job.b);
    let c = presence(job.c);
    a + (2 * b + 4 * c)
}

// The map of the entry's record: both map bytes as one number.
pub fn entry_map(entry: Entry) -> u64
    ensures { result ≡ entry_map entry }
{
    let earlier = map_of(word_bytes(entry.job.setting.format), entry_numbers(entry));
    let second = second_map(entry.job);
    if second == 0 {
        return earlier;
    }
    earlier + (128 + 256 * second)
}

// The mask whose care is number i.
fn mask_at(numbers: [u64; NUMBERS], i: usize) -> Mask
    requires { i + 1 < 20 }
    ensures { result ≡ mask_at numbers i }
{
    Mask {
        care: numbers[i],
        value: numbers[i + 1],
    }
}

// The bounds of a field, the low one of which is number i.
fn bounds_at(map: u64, numbers: [u64; NUMBERS], field: u64, i: usize) -> Option<Ends>
    requires { i + 1 < 20 }
    ensures { result ≡ bounds_at map numbers field i }
{
    let low = numbers[i];
    let high = numbers[i + 1];
    if bit_at(map, field) == 0 {
        return None;
    }
    Some(Ends { low, high })
}

// The job of a record with this map and these numbers.
fn job_with(format: Format, operation: u64, map: u64, numbers: [u64; NUMBERS]) -> Job
    ensures { result ≡ job_with format operation map numbers }
{
    let mode = numbers[8];
    let a = Wanted {
        mask: mask_at(numbers, 0),
        bounds: bounds_at(map, numbers, 8, 14),
    };
    let b = Wanted {
        mask: mask_at(numbers, 2),
        bounds: bounds_at(map, numbers, 9, 16),
    };
    let c = Wanted {
        mask: mask_at(numbers, 4),
        bounds: bounds_at(map, numbers, 10, 18),
    };
    let dropped = Dropped {
        g: numbers[11],
        mask: mask_at(numbers, 12),
    };
    Job {
        setting: Setting {
            format,
            operation,
            mode,
        },
        a,
        b,
        c,
        carries: mask_at(numbers, 6),
        dropped,
    }
}

// The entry of a record with this map and these numbers.
pub fn entry_with(format: Format, operation: u64, map: u64, numbers: [u64; NUMBERS]) -> Entry
    ensures { result ≡ entry_with format operation map numbers }
{
    Entry {
        job: job_with(format, operation, map, numbers),
        r1: numbers[9],
        r2: numbers[10],
    }
}
