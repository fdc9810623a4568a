ghost use Rattle.std.specs.Prelude.{◌≡◌, IfOk};
ghost use Rattle.csv.specs.Reading.{strip_bom};
ghost use Rattle.gtfs_tables.specs.Records.{records, records_left, reader_left, IsReader, IsReading, ReadsNext};

use crate::Row;
use crate::field_list::Fields;
use crate::parts::{first_line, is_wide};
use csv::{Reader, ReaderBuilder};
use desk_io::Memory;
use memchr::memchr;
use std::alloc::Global;

/// The records of a file that are left.
#[derive(Drop)]
pub(crate) enum Records<'a> {
    /// Those of bytes without a double quote.
    Lines(&'a [u8]),
    /// Those that `csv` reads.
    Quoted(Reader<&'a [u8]>),
}

// A reader of records of any lengths, with comma and double quote.
fn reader_over(alloc: Global, bytes: &[u8]) -> Reader<&[u8]>
    ensures reading { IsReader result }
    ensures left { reader_left result ≡ records bytes.now }
{
    ReaderBuilder::new()
        .has_headers(false)
        .flexible(true)
        .from_reader(alloc, bytes)
}

// The bytes without a byte-order mark at their front.
fn without_mark(bytes: &[u8]) -> &[u8]
    ensures { result.now ≡ strip_bom bytes.now }
{
    match bytes.strip_prefix(&[0xef, 0xbb, 0xbf]) {
        Some(rest) => rest,
        None => bytes,
    }
}

// In a line a field is found behind those before it. So where there are more columns than these, `csv` reads the file.
const MOST_PARTS: usize = 32;

/// The records of a file. `csv` reads them where the file has a double quote, or many columns.
pub(crate) fn records_of(alloc: Global, bytes: &[u8]) -> Records<'_>
    ensures reading { IsReading result }
    ensures left { records_left result ≡ records bytes.now }
{
    if is_wide(bytes, MOST_PARTS) {
        return Records::Quoted(reader_over(alloc, bytes));
    }
    match memchr(b'"', bytes) {
        Some(_) => Records::Quoted(reader_over(alloc, bytes)),
        None => Records::Lines(without_mark(bytes)),
    }
}

/// Reads the next record, and says whether there was one.
pub(crate) fn next_record(reader: &mut Records<'_>, fields: &mut Fields) -> Result<bool, Memory>
    requires { IsReading reader.old }
    ensures { IfOk result (λ found. ReadsNext reader.old found fields.new reader.new) }
{
    match reader {
        Records::Quoted(reader) => fields.read_quoted(reader),
        Records::Lines(bytes) => {
            let Some((line, left)) = first_line(bytes) else {
                return Ok(false);
            };
            *bytes = left;
            fields.part_line(line)?;
            Ok(true)
        }
    }
}

// The records that `csv` has yet to read.
fn rows_left(
    alloc: Global,
    reader: &mut Reader<&[u8]>,
    fields: &mut Fields,
) -> Result<Vec<Row>, Memory>
    requires { IsReader reader.old }
    ensures { IfOk result (λ rows. rows.items ≡ reader_left reader.old) }
{
    let mut rows = Vec::new(alloc);
    'records: while fields.read_quoted(reader)? {
        rows.push(Row::of(alloc, fields, fields.len())?)?;
    }
    Ok(rows)
}

/// The records of a file, in order: comma-separated, with fields in double quotes where they need them, and of any
/// lengths. One leading byte-order mark is taken off. `csv` reads them, since whoever takes a record without a header may
/// look at each of its fields, however many there are.
pub fn read_rows(alloc: Global, bytes: &[u8]) -> Result<Vec<Row>, Memory>
    ensures { IfOk result (λ rows. rows.items ≡ records bytes.now) }
{
    let mut reader = reader_over(alloc, bytes);
    let mut fields = Fields::new(alloc);
    rows_left(alloc, &mut reader, &mut fields)
}
