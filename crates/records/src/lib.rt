// Job records: what stands first in a file, the rest after it, and the writing of a record into a lent buffer.
#![tactic(auto)]

mod fields;

ghost use Rattle.std.specs.Prelude.{◌≡◌, ◌≤◌, ◌<◌, ◌^◌, ◌++◌, eqb, length, get_or, drop};
ghost use Rattle.format.specs.declared.cause.Cause.TheVariants as cause;
ghost use Rattle.format.specs.Cause.{clear, first, unless};
ghost use Rattle.numbers.specs.Numbers.{total, numbers};
ghost use Rattle.layout.specs.Fields.{word_bytes, entry_with, field_sizes, entry_map};
ghost use Rattle.records.specs.Record.{map_bytes, header_bytes, record_cause, record_bytes, map_in, record_length, format_in, entry_in, read_reply, first_in, rest, writing, written};

use bits::bit_at;
use fields::{put_numbers, read_numbers, total};
use format::{Cause, Format, unless};
use job::request_cause;
use layout::{
    ANNOUNCING, Entry, MAP_WIDTH, NUMBERS, entry_map, entry_numbers, entry_with, field_sizes,
    word_bytes,
};
use numbers::wide;

// The bytes of w, f and the operation, which stand after the map.
const SETTING: usize = 3;
// A map with a bit that has no meaning is this or more.
const MAPS: u64 = 1 << MAP_WIDTH;

// The first of the causes 1 to 6, with 14 to 17 after 5 and 18 after 6, that stands against the entry.
pub fn entry_cause(entry: Entry) -> Result<(), Cause>
    ensures { result ≡ record_cause entry }
{
    request_cause(entry.job, entry.r1, entry.r2)
}

// How many bytes a map has: a second one where it is announced.
fn map_bytes(map: u64) -> usize
    ensures { result ≡ map_bytes map }
{
    if bit_at(map, ANNOUNCING) == 0 {
        return 1;
    }
    2
}

// How many bytes stand before the fields of a record with this map.
fn header_bytes(map: u64) -> usize
    ensures { result ≡ header_bytes map }
{
    map_bytes(map) + SETTING
}

// The length of a record of this format with this map.
fn record_length(format: Format, map: u64) -> usize
    ensures { result ≡ record_length (word_bytes format) map }
{
    header_bytes(map) + total(&field_sizes(word_bytes(format), map))
}

// A byte as a number; 0 where there is none.
fn byte_at(s: &[u8], i: usize) -> u64
    ensures { (result ≡ get_or s.now i 0) × (result < 256) }
{
    if i < s.len() {
        return wide(s[i]);
    }
    0
}

// The map of a record: its first byte, and 256 times a second one where that is announced. Without one it is below 256.
fn map_in(s: &[u8]) -> u64
    ensures { (result ≡ map_in s.now) × (result < 256 ^ map_bytes result) }
{
    let first = byte_at(s, 0);
    if map_bytes(first) == 1 {
        return first;
    }
    first + 256 * byte_at(s, 1)
}

// The widths of a record's format, as its bytes after the map say.
fn format_in(s: &[u8], map: u64) -> Format
    requires { map_in s.now ≡ map }
    ensures { result ≡ format_in s.now }
{
    let at = map_bytes(map);
    Format {
        w: byte_at(s, at),
        f: byte_at(s, at + 1),
    }
}

// The entry of a record, from the bytes after its header.
fn decode(s: &[u8], map: u64, format: Format, operation: u64) -> Entry
    requires { total (field_sizes (word_bytes format) map) ≤ length s.now }
    ensures { result ≡ entry_with format operation map (numbers (field_sizes (word_bytes format) map) s.now) }
{
    let sizes = field_sizes(word_bytes(format), map);
    let mut numbers = [0; NUMBERS];
    read_numbers(s, &sizes, &mut numbers);
    entry_with(format, operation, map, numbers)
}

// The entry of a record that is not cut short.
fn entry_in(s: &[u8], map: u64, format: Format) -> Entry
    requires { (map_in s.now ≡ map) × (format_in s.now ≡ format) × (record_length (word_bytes format) map ≤ length s.now) }
    ensures { result ≡ entry_in (word_bytes format) s.now }
{
    let header = header_bytes(map);
    let operation = wide(s[header - 1]);
    decode(&s[header..], map, format, operation)
}

// The reply to an entry whose record has this map and this length. A field that says its default, or an empty second map, would not be
// written, so the maps differ exactly where there is one.
fn read_reply(entry: Entry, map: u64, n: usize) -> Result<Option<(Entry, usize)>, Cause>
    ensures { result ≡ read_reply (first (record_cause entry) (unless (eqb (entry_map entry) map) cause.DefaultField)) entry n }
{
    entry_cause(entry)?; // 10 comes after the causes of the entry
    unless(entry_map(entry) == map, Cause::DefaultField)?;
    Ok(Some((entry, n)))
}

// What stands first in the bytes: an entry with the length of its record, nothing where no byte is left, or the refusal.
pub fn read(s: &[u8]) -> Result<Option<(Entry, usize)>, Cause>
    ensures { result ≡ first_in s.now }
{
    if s.is_empty() {
        return Ok(None);
    }
    let map = map_in(s);
    unless(map < MAPS, Cause::MapBits)?;
    let format = format_in(s, map);
    let n = record_length(format, map);
    unless(n <= s.len(), Cause::Cut)?;
    read_reply(entry_in(s, map, format), map, n)
}

// The bytes after what stands first: after a job's record, all of them on a refusal, none at the end.
pub fn rest(s: &[u8]) -> &[u8]
    ensures { result.now ≡ rest s.now }
{
    match read(s) {
        Ok(Some((_, n))) => &s[n..],
        Ok(None) => s,
        Err(_) => s,
    }
}

// Puts the record of an entry against which no cause stands: the header, then the fields.
fn put_record(buffer: &mut [u8], map: u64, entry: Entry)
    requires { (record_cause entry ≡ clear) × (map ≡ entry_map entry) × (length (record_bytes entry) ≤ length buffer.old) }
    ensures { buffer.new ≡ record_bytes entry ++ drop (length (record_bytes entry)) buffer.old }
{
    let format = entry.job.setting.format;
    let header = [map, format.w, format.f, entry.job.setting.operation];
    put_numbers(buffer, 0, &[map_bytes(map), 1, 1, 1], &header);
    let sizes = field_sizes(word_bytes(format), map);
    let numbers = entry_numbers(entry);
    put_numbers(buffer, header_bytes(map), &sizes, &numbers);
}

// Writes the entry's record to the front of the buffer, and replies with the count of its bytes. Of a field that says its default nothing is
// written, and of a g where none of the dropped bits is fixed neither.
pub fn write(entry: Entry, buffer: &mut [u8]) -> Result<usize, Cause>
    ensures value { result ≡ writing entry buffer.old }
    ensures buffer_after { buffer.new ≡ written entry buffer.old }
{
    entry_cause(entry)?;
    let map = entry_map(entry);
    let n = record_length(entry.job.setting.format, map);
    unless(n <= buffer.len(), Cause::Buffer)?;
    put_record(buffer, map, entry);
    Ok(n)
}
