ghost use Rattle.std.specs.Prelude.{◌≡◌, ◌≢◌, ℕ, ◌+◌, ◌<◌, ◌≤◌, IfErr, IfOk, List, Ok, Err, None, Result, length, map};
ghost use Rattle.gtfs_tables.specs.declared.fault.FeedFault.{FeedFault};
ghost use Rattle.gtfs_tables.specs.declared.paper.TheConstants.{MOST_BYTES};
ghost use Rattle.gtfs_tables.specs.Fold.{due, longer_from, bytes_read, optional_read, paper_read, rest_read, table_read};
ghost use Rattle.gtfs_tables.specs.Fold.{AreChanged, AreLeft, IsTableChanged, IsTableLeft};
ghost use Rattle.gtfs_tables.specs.Papers.{IsWithinLimit};
ghost use Rattle.gtfs_tables.specs.Reading.{◌>>=◌ as followed_by, Gives, header_in, judged, or_refused, table_in};
ghost use Rattle.gtfs_tables.specs.Records.{records_left, IsReading};
ghost use Rattle.gtfs_tables.specs.Rows.{padded};
ghost use Rattle.gtfs_tables.specs.Table.{TableView, table_from, table_of};

use crate::records::{Records, records_of};
use crate::{FeedFault, Paper, Row};
use desk_io::{Found, Memory};
use std::alloc::Global;

/// What is made of the records of a paper, one after the other.
pub trait RecordReader: Drop {
    /// Where the columns are that it reads.
    type Columns: Drop;

    // What the records so far have given.
    ghost State: { Type 0 };

    ghost state: { Self → Self.State };

    ghost columns_in: { List (List ℕ) → Result Self.Columns FeedFault };

    // What a record gives after those before it. No record changes that.
    ghost step: { Self → Self.Columns → ℕ → Self.State → List (List ℕ) → Result Self.State FeedFault };

    /// The columns that it reads, or the refusal of the header.
    fn columns(&self, header: &Row) -> Result<Self::Columns, FeedFault>
        ensures { Gives (λ columns. columns) result (Self.columns_in header.now) };

    /// Takes in a record, which counts from 1 after the header, or refuses it.
    fn record(&mut self, columns: &Self::Columns, number: u32, row: &Row) -> Result<(), FeedFault>
        ensures gives { Gives (λ _. Self.state self.new) result (Self.step self.old columns.now number (Self.state self.old) row.now) }
        ensures same { Self.step self.new ≡ Self.step self.old };
}

/// A reader that also says what a refused paper leaves of it.
pub trait TracedReader {
    /// Where the columns are that it reads.
    type Columns: Drop;

    // What no record changes.
    ghost Kept: { Type 0 };
    // What the records so far have given.
    ghost State: { Type 0 };

    ghost kept: { Self → Self.Kept };

    ghost state: { Self → Self.State };

    ghost columns_in: { List (List ℕ) → Result Self.Columns FeedFault };

    ghost step: { Self.Kept → Self.Columns → ℕ → Self.State → List (List ℕ) → Result Self.State FeedFault };
    // What a refused record leaves of what those before it gave.
    ghost Leaves: { Self.Kept → Self.Columns → ℕ → Self.State → List (List ℕ) → Self.State → Type 0 };
    // What a record changes at the most, whatever the answer is.
    ghost Changes: { Self.Kept → Self.Columns → List (List ℕ) → Self.State → Self.State → Type 0 };

    /// The columns that it reads, or the refusal of the header.
    fn columns(&self, header: &Row) -> Result<Self::Columns, FeedFault>
        ensures { Gives (λ columns. columns) result (Self.columns_in header.now) };

    /// Takes in a record, which counts from 1 after the header, or refuses it.
    fn record(&mut self, columns: &Self::Columns, number: u32, row: &Row) -> Result<(), FeedFault>
        ensures gives { Gives (λ _. Self.state self.new) result
            (Self.step (Self.kept self.old) columns.now number (Self.state self.old) row.now) }
        ensures left { IfErr result (λ refused. refused ≢ FeedFault.Memory
            → Self.Leaves (Self.kept self.old) columns.now number (Self.state self.old) row.now (Self.state self.new)) }
        ensures changes { Self.Changes (Self.kept self.old) columns.now row.now (Self.state self.old) (Self.state self.new) }
        ensures kept { Self.kept self.new ≡ Self.kept self.old };
}

// The refusal that is due where this one came after so many records. It is that of the first record left that is too long, if
// there is one.
fn due_of(
    paper: Paper,
    width: usize,
    before: u32,
    reader: &mut Records<'_>,
    row: &mut Row,
    refused: FeedFault,
) -> Result<FeedFault, Memory>
    requires reading { IsReading reader.old }
    requires count { before + length (records_left reader.old) ≤ MOST_BYTES }
    ensures { IfOk result (λ fault. fault ≡ due paper (longer_from width (before + 1) (records_left reader.old)) refused) }
{
    let mut number = before;
    'records: while row.read(reader, width)? {
        number += 1;
        if row.len() > width {
            return Ok(FeedFault::RowTooLong(paper, number));
        }
    }
    Ok(refused)
}

// Takes in the records that are left, each padded to the width of the header.
fn read_rest<R: TracedReader>(
    paper: Paper,
    width: usize,
    columns: &R::Columns,
    reader: &mut Records<'_>,
    row: &mut Row,
    records: &mut R,
) -> Result<(), FeedFault>
    requires reading { IsReading reader.old }
    requires count { length (records_left reader.old) ≤ MOST_BYTES }
    ensures gives { Gives (λ _. R.state records.new) result
        (rest_read paper width (R.step (R.kept records.old) columns.now) 1 (R.state records.old) (records_left reader.old)) }
    ensures left { result ≢ Err FeedFault.Memory → longer_from width 1 (records_left reader.old) ≡ None
        → AreLeft (R.step (R.kept records.old) columns.now) (R.Leaves (R.kept records.old) columns.now) 1 (R.state records.old)
        (map (padded width) (records_left reader.old)) (R.state records.new) }
    ensures changed { AreChanged (R.Changes (R.kept records.old) columns.now) (R.state records.old)
        (map (padded width) (records_left reader.old)) (R.state records.new) }
    ensures kept { R.kept records.new ≡ R.kept records.old }
{
    let mut number: u32 = 0;
    'records: while row.read(reader, width)? {
        number += 1;
        if row.len() > width {
            return Err(FeedFault::RowTooLong(paper, number));
        }
        if let Err(refused) = records.record(columns, number, row) {
            return Err(due_of(paper, width, number, reader, row, refused)?);
        }
    }
    Ok(())
}

// Takes in the header and the records of a paper, which a reader is before.
fn read_from<R: TracedReader>(
    paper: Paper,
    reader: &mut Records<'_>,
    row: &mut Row,
    records: &mut R,
) -> Result<(), FeedFault>
    requires reading { IsReading reader.old }
    requires count { length (records_left reader.old) ≤ MOST_BYTES }
    ensures gives { Gives (λ _. R.state records.new) result
        (followed_by (or_refused paper (table_from (records_left reader.old)))
        (table_read R.columns_in (R.step (R.kept records.old)) (R.state records.old))) }
    ensures left { (table : TableView) → table_from (records_left reader.old) ≡ Ok table → result ≢ Err FeedFault.Memory
        → IsTableLeft R.columns_in (R.step (R.kept records.old)) (R.Leaves (R.kept records.old)) (R.state records.old) table
        (R.state records.new) }
    ensures changed { (table : TableView) → table_from (records_left reader.old) ≡ Ok table
        → IsTableChanged R.columns_in (R.Changes (R.kept records.old)) (R.state records.old) table (R.state records.new) }
    ensures kept { R.kept records.new ≡ R.kept records.old }
{
    if !row.read(reader, 0)? {
        return Err(FeedFault::NoHeader(paper));
    }
    let width = row.len();
    match records.columns(row) {
        Ok(columns) => read_rest(paper, width, &columns, reader, row, records),
        Err(refused) => Err(due_of(paper, width, 0, reader, row, refused)?),
    }
}

// Takes in the records of the bytes of a paper.
fn read_bytes<R: TracedReader>(
    alloc: Global,
    paper: Paper,
    bytes: &[u8],
    records: &mut R,
) -> Result<(), FeedFault>
    requires { length bytes.now ≤ MOST_BYTES }
    ensures gives { Gives (λ _. R.state records.new) result
        (bytes_read paper R.columns_in (R.step (R.kept records.old)) (R.state records.old) bytes.now) }
    ensures left { (table : TableView) → table_of bytes.now ≡ Ok table → result ≢ Err FeedFault.Memory
        → IsTableLeft R.columns_in (R.step (R.kept records.old)) (R.Leaves (R.kept records.old)) (R.state records.old) table
        (R.state records.new) }
    ensures changed { (table : TableView) → table_of bytes.now ≡ Ok table
        → IsTableChanged R.columns_in (R.Changes (R.kept records.old)) (R.state records.old) table (R.state records.new) }
    ensures kept { R.kept records.new ≡ R.kept records.old }
{
    let mut reader = records_of(alloc, bytes);
    let mut row = Row::new(alloc);
    read_from(paper, &mut reader, &mut row, records)
}

/// Takes in the records of a paper that must be there, in one pass that keeps none of them; or answers the first refusal. A
/// record that has more fields than the header is refused before all other refusals of columns and records, wherever it is in
/// the file.
pub fn read_traced<R: TracedReader>(
    alloc: Global,
    paper: Paper,
    found: &Found,
    records: &mut R,
) -> Result<(), FeedFault>
    requires { IsWithinLimit found.now }
    ensures gives { Gives (λ _. R.state records.new) result
        (paper_read paper R.columns_in (R.step (R.kept records.old)) (R.state records.old) found.now) }
    ensures left { (table : TableView) → table_in paper found.now ≡ Ok table → result ≢ Err FeedFault.Memory
        → IsTableLeft R.columns_in (R.step (R.kept records.old)) (R.Leaves (R.kept records.old)) (R.state records.old) table
        (R.state records.new) }
    // Also after lack of memory: no more was changed than the first records change.
    ensures changed { (table : TableView) → table_in paper found.now ≡ Ok table
        → IsTableChanged R.columns_in (R.Changes (R.kept records.old)) (R.state records.old) table (R.state records.new) }
    ensures kept { R.kept records.new ≡ R.kept records.old }
{
    match found {
        Found::Missing => Err(FeedFault::Missing(paper)),
        Found::TooLong => Err(FeedFault::TooLong(paper)),
        Found::File(bytes) => read_bytes(alloc, paper, bytes.as_slice(), records),
    }
}

// A reader of which nothing more is asked where a paper is refused.
#[derive(Drop)]
struct Untraced<R>(R);

impl<R: RecordReader> TracedReader for Untraced<R> {
    type Columns = R::Columns;

    ghost Kept = { R.Columns → ℕ → R.State → List (List ℕ) → Result R.State FeedFault };

    ghost State = { R.State };

    ghost kept = { λ read. R.step read.0 };

    ghost state = { λ read. R.state read.0 };

    ghost columns_in = { R.columns_in };

    ghost step = { λ step. step };

    ghost Leaves = { λ _ _ _ _ _ _. Unit {0} };

    ghost Changes = { λ _ _ _ _ _. Unit {0} };

    fn columns(&self, header: &Row) -> Result<R::Columns, FeedFault> {
        self.0.columns(header)
    }

    fn record(&mut self, columns: &R::Columns, number: u32, row: &Row) -> Result<(), FeedFault> {
        self.0.record(columns, number, row)
    }
}

/// The reader with the records of a paper that must be there; or the first refusal, as [`read_traced`] answers it.
pub fn read_records<R: RecordReader>(
    alloc: Global,
    paper: Paper,
    found: &Found,
    records: R,
) -> Result<R, FeedFault>
    requires { IsWithinLimit found.now }
    ensures { Gives R.state result (paper_read paper R.columns_in (R.step records) (R.state records) found.now) }
{
    let mut read = Untraced(records);
    read_traced(alloc, paper, found, &mut read)?;
    Ok(read.0)
}

/// The same of a paper that need not be there; a missing one has no records.
pub fn read_optional<R: RecordReader>(
    alloc: Global,
    paper: Paper,
    found: &Found,
    records: R,
) -> Result<R, FeedFault>
    requires { IsWithinLimit found.now }
    ensures { Gives R.state result (optional_read paper R.columns_in (R.step records) (R.state records) found.now) }
{
    match found {
        Found::Missing => Ok(records),
        Found::TooLong | Found::File(_) => read_records(alloc, paper, found, records),
    }
}

/// The header of a paper by itself, whatever its records are. Where it has none, it is refused as it is whole.
pub fn read_header(alloc: Global, paper: Paper, found: &Found) -> Result<Row, FeedFault>
    ensures { Gives (λ header. header) result (header_in paper found.now) }
{
    let bytes = match found {
        Found::Missing => return Err(FeedFault::Missing(paper)),
        Found::TooLong => return Err(FeedFault::TooLong(paper)),
        Found::File(bytes) => bytes,
    };
    let mut reader = records_of(alloc, bytes.as_slice());
    let mut header = Row::new(alloc);
    if !header.read(&mut reader, 0)? {
        return Err(FeedFault::NoHeader(paper));
    }
    Ok(header)
}

// Takes in no record, and refuses none.
#[derive(Drop)]
struct AnyRecord;

impl RecordReader for AnyRecord {
    ghost use Rattle.gtfs_tables.specs.Reading.{nothing};

    type Columns = ();

    ghost State = { Unit {0} };

    ghost state = { λ _. tt };

    ghost columns_in = { λ _. nothing };

    ghost step = { λ _ _ _ _ _. nothing };

    fn columns(&self, _header: &Row) -> Result<(), FeedFault> {
        Ok(())
    }

    fn record(&mut self, _columns: &(), _number: u32, _row: &Row) -> Result<(), FeedFault> {
        Ok(())
    }
}

/// Whether a paper is a table: no record has more fields than the header. It is for a caller whose records change more than a
/// refused paper may leave.
pub fn judge_table(alloc: Global, paper: Paper, found: &Found) -> Result<(), FeedFault>
    requires { IsWithinLimit found.now }
    ensures { Gives (λ done. done) result (judged paper found.now) }
{
    read_records(alloc, paper, found, AnyRecord)?;
    Ok(())
}
