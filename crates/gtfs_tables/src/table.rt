ghost use Rattle.std.specs.Prelude.{◌≡◌, ◌+◌, ◌-◌, ◌<◌, ◌≤◌, IfErr, IfOk, IfSome, [], Ok, length, slice_index_or};
ghost use Rattle.gtfs_tables.specs.declared.paper.TheConstants.{MOST_BYTES};
ghost use Rattle.gtfs_tables.specs.Records.{records_left, IsReading};
ghost use Rattle.gtfs_tables.specs.Table.{body_of, column_of, table_from, table_of, IsFaultOf};
ghost use Rattle.gtfs_tables.specs.declared.table.TableFault.TheVariants as table_fault;

use crate::Row;
use crate::field_list::Fields;
use crate::records::{Records, next_record, records_of};
use desk_io::Memory;
use std::alloc::{AllocError, AllocFailed, Global};
use std::marker::Model;

/// Why bytes are no table.
#[derive(Clone, Copy)]
pub enum TableFault {
    /// There is no record.
    NoHeader,
    /// This record, counted from 1 after the header, is the first with more fields than the header.
    RowTooLong(u32),
    /// No memory was found.
    Memory,
}

impl From<Memory> for TableFault {
    ghost from_gives = { λ _ fault. fault ≡ table_fault.Memory };

    fn from(_: Memory) -> TableFault {
        TableFault::Memory
    }
}

impl From<AllocError> for TableFault {
    ghost from_gives = { λ _ fault. fault ≡ table_fault.Memory };

    fn from(_: AllocError) -> TableFault {
        TableFault::Memory
    }
}

impl<T: Drop> From<AllocFailed<T>> for TableFault {
    ghost from_gives = { λ _ fault. fault ≡ table_fault.Memory };

    fn from(_: AllocFailed<T>) -> TableFault {
        TableFault::Memory
    }
}

/// A file with a header: its rows are padded with empty fields to the header's length.
pub struct Table {
    header: Row,
    rows: Vec<Row>,
}

impl Drop for Table {
    fn drop(self) {
        let Self { header: _, rows: _ } = self;
    }
}

impl Model for Table {
    ghost use Rattle.gtfs_tables.specs.Table.{TableView, IsTable};

    ghost Value = { TableView };

    ghost view = { λ t. record { header = t.header; rows = t.rows.items } };

    ghost invariant = { λ t. IsTable (record { header = t.header; rows = t.rows.items }) };
}

// The records that are left, each padded to the width.
fn read_body(
    alloc: Global,
    reader: &mut Records<'_>,
    fields: &mut Fields,
    width: usize,
) -> Result<Vec<Row>, TableFault>
    requires reading { IsReading reader.old }
    requires count { length (records_left reader.old) ≤ MOST_BYTES }
    ensures rows { IfOk result (λ rows. body_of width (records_left reader.old) ≡ Ok rows.items) }
    ensures fault { IfErr result (λ fault. IsFaultOf (body_of width (records_left reader.old)) fault) }
{
    let mut rows = Vec::new(alloc);
    'records: while next_record(reader, fields)? {
        if fields.len() > width {
            return Err(TableFault::RowTooLong(rows.len() as u32 + 1));
        }
        rows.push(Row::of(alloc, fields, width)?)?;
    }
    Ok(rows)
}

// The table of the records that are left, the first of which is the header.
fn read_table(
    alloc: Global,
    reader: &mut Records<'_>,
    fields: &mut Fields,
) -> Result<Table, TableFault>
    requires reading { IsReading reader.old }
    requires count { length (records_left reader.old) ≤ MOST_BYTES }
    ensures table { IfOk result (λ table. table_from (records_left reader.old) ≡ Ok table) }
    ensures fault { IfErr result (λ fault. IsFaultOf (table_from (records_left reader.old)) fault) }
{
    if !next_record(reader, fields)? {
        return Err(TableFault::NoHeader);
    }
    let header = Row::of(alloc, fields, fields.len())?;
    let rows = read_body(alloc, reader, fields, header.len())?;
    Ok(Table { header, rows })
}

impl Table {
    /// The table of a file of at most [`MOST_BYTES`](crate::MOST_BYTES) bytes. The first record is the header.
    pub fn read(alloc: Global, bytes: &[u8]) -> Result<Table, TableFault>
        requires { length bytes.now ≤ MOST_BYTES }
        ensures table { IfOk result (λ table. table_of bytes.now ≡ Ok table) }
        ensures fault { IfErr result (λ fault. IsFaultOf (table_of bytes.now) fault) }
    {
        let mut reader = records_of(alloc, bytes);
        let mut fields = Fields::new(alloc);
        read_table(alloc, &mut reader, &mut fields)
    }

    /// The first column whose name, without spaces at both ends, equals the name; columns count from 0.
    pub fn column(&self, name: &str) -> Option<usize>
        ensures first { result ≡ column_of name.now self.now.header }
        ensures within { IfSome result (λ column. column < length self.now.header) }
    {
        self.header.place(name)
    }

    /// The number of records after the header.
    pub fn records(&self) -> u32
        ensures { result ≡ length self.now.rows }
    {
        self.rows.len() as u32
    }

    /// The names of the columns, as the file has them.
    pub fn header(&self) -> &Row
        ensures { result.now ≡ self.now.header }
    {
        &self.header
    }

    /// A record, counted from 1 after the header, with as many fields as the header.
    pub fn row(&self, r: u32) -> &Row
        requires first { 1 ≤ r }
        requires last { r ≤ length self.now.rows }
        ensures value { result.now ≡ slice_index_or self.now.rows (r - 1) [] }
        ensures width { length result.now ≡ length self.now.header }
    {
        &self.rows[r as usize - 1]
    }
}
