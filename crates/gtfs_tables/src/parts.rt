// Bytes without a double quote. Line ends part them into records, and commas part a record into its fields.

ghost use Rattle.std.specs.Prelude.{◌≡◌, ◌==◌, ◌∷◌, ◌++◌, [], if◌then◌else◌, length, map, OnOk, slice_index_or, MatchOption};
ghost use Rattle.csv.specs.Writing.{comma};
ghost use Rattle.gtfs_tables.specs.Parts as spec;
ghost use Rattle.gtfs_tables.specs.Parts.{later_parts, parts, IsUnquoted};
ghost use Rattle.gtfs_tables.specs.Records.{records_in};

use desk_io::Memory;
use memchr::{memchr, memchr2};

// Whether a byte ends a line.
fn ends_line(byte: u8) -> bool
    ensures { result ≡ spec.ends_line byte }
{
    byte == b'\r' || byte == b'\n'
}

// The bytes from the next line on that has a byte. A line without one is no record.
fn from_line(bytes: &[u8]) -> &[u8]
    ensures { result.now ≡ spec.from_line bytes.now }
{
    let mut left = bytes;
    'lines: while let [byte, more @ ..] = left {
        if !ends_line(*byte) {
            return left;
        }
        left = more;
    }
    left
}

/// The first line that has a byte, and the bytes behind its end. None where there is no such line.
pub(crate) fn first_line(bytes: &[u8]) -> Option<(&[u8], &[u8])>
    requires { IsUnquoted bytes.now }
    ensures { MatchOption result (records_in bytes.now ≡ [])
        (λ found. (records_in bytes.now ≡ parts found.0.now ∷ records_in found.1.now) × IsUnquoted found.1.now) }
{
    let first = from_line(bytes);
    if first.is_empty() {
        return None;
    }
    match memchr2(b'\r', b'\n', first) {
        Some(end) => Some((&first[..end], &first[end + 1..])),
        None => Some((first, &[])),
    }
}

/// Whether the first line that has a byte has more parts than so many. No clause says so, since it matters for speed alone.
pub(crate) fn is_wide(bytes: &[u8], most: usize) -> bool {
    let first = from_line(bytes);
    let line = match memchr2(b'\r', b'\n', first) {
        Some(end) => &first[..end],
        None => first,
    };
    count_parts(line) > most
}

// How many commas a byte is.
fn comma_count(byte: u8) -> usize
    ensures { result ≡ if byte == comma then 1 else 0 }
{
    if byte == b',' { 1 } else { 0 }
}

/// How many parts a line has.
pub(crate) fn count_parts(line: &[u8]) -> usize
    ensures { result ≡ length (parts line.now) }
{
    let mut count = 1;
    for byte in line {
        count += comma_count(*byte);
    }
    count
}

// The first part of a line, and the bytes behind its comma.
fn first_part(line: &[u8]) -> (&[u8], Option<&[u8]>)
    ensures { parts line.now ≡ result.0.now ∷ later_parts result.1 }
{
    match memchr(b',', line) {
        Some(comma) => (&line[..comma], Some(&line[comma + 1..])),
        None => (line, None),
    }
}

/// Appends a field to others.
pub(crate) fn push_field<'a>(fields: &mut Vec<&'a [u8]>, field: &'a [u8]) -> Result<(), Memory>
    ensures { OnOk result (map (λ field. field.now) fields.new.items ≡ map (λ field. field.now) fields.old.items ++ field.now ∷ []) }
{
    fields.push(field)?;
    Ok(())
}

/// Appends the parts of a line to other fields.
pub(crate) fn push_parts<'a>(fields: &mut Vec<&'a [u8]>, line: &'a [u8]) -> Result<(), Memory>
    ensures { OnOk result (map (λ field. field.now) fields.new.items ≡ map (λ field. field.now) fields.old.items ++ parts line.now) }
{
    let (first, mut behind) = first_part(line);
    push_field(fields, first)?;
    'parts: while let Some(left) = behind {
        let (next, later) = first_part(left);
        push_field(fields, next)?;
        behind = later;
    }
    Ok(())
}

/// The part of a line at this place, which counts from 0. No bytes where it has fewer.
pub(crate) fn part(line: &[u8], place: usize) -> &[u8]
    ensures { result.now ≡ slice_index_or (parts line.now) place [] }
{
    let (mut part, mut behind) = first_part(line);
    for before in 0..place {
        let Some(left) = behind else {
            return &[];
        };
        let (next, later) = first_part(left);
        part = next;
        behind = later;
    }
    part
}
