ghost use Rattle.std.specs.Prelude.{◌≡◌, ◌≢◌, All, IfErr, IfNone, IfOk, IfSome, IsUtf8, OnOk};
ghost use Rattle.std.specs.Str.{is_utf8};
ghost use Rattle.gtfs_tables.specs.declared.fault.FeedFault.{FeedFault};
ghost use Rattle.gtfs_tables.specs.Papers.{IsWithinLimit, column_name_of};
ghost use Rattle.gtfs_tables.specs.Reading.{Gives, table_in};
ghost use Rattle.gtfs_tables.specs.Table.{column_of};
ghost use Rattle.block_writer.specs.Texts as spec;
ghost use Rattle.block_writer.specs.Texts.{AreTexts, IsFirstBad, IsRefusedFor, IsRefusedPaper, IsTextPaper};

use desk_io::Found;
use gtfs_tables::{Column, FeedFault, Paper, Row, Table, table_in};
use std::alloc::Global;

// Whether a field is UTF-8.
fn is_utf8(field: &[u8]) -> bool
    ensures { result ≡ is_utf8 field.now }
{
    match str::from_utf8(field) {
        Ok(_) => true,
        Err(_) => false,
    }
}

// The first field of a record that is not UTF-8. Most records are ASCII, and then no field is looked at by itself.
fn bad_field(row: &Row) -> Option<usize>
    ensures { result ≡ spec.bad_field row.now }
{
    if row.is_ascii() {
        return None;
    }
    for place in 0..row.len() {
        if !is_utf8(row.field(place)) {
            return Some(place);
        }
    }
    None
}

// Whether a place is the first of a column in a header.
fn stands_at(header: &Row, column: Column, place: usize) -> bool
    ensures { result ≡ spec.is_at place (column_of (column_name_of column) header.now) }
{
    match header.place(column.name()) {
        Some(first) => first == place,
        None => false,
    }
}

// The column of a place in a header.
fn column_at(columns: &[Column], header: &Row, place: usize) -> Column
    ensures { result ≡ spec.column_at columns.now header.now place }
{
    for n in 0..columns.len() {
        if stands_at(header, columns[n], place) {
            return columns[n];
        }
    }
    Column::Other
}

/// Refuses the record of that number where a field of it is not UTF-8. The header is record 0. The header tells in which of
/// these columns the first stands that is not.
pub(crate) fn judge_texts(
    paper: Paper,
    columns: &[Column],
    header: &Row,
    number: u32,
    row: &Row,
) -> Result<(), FeedFault>
    ensures gives { Gives (λ _. row.now) result (spec.texts_in paper columns.now header.now number row.now) }
    ensures texts { OnOk result (All IsUtf8 row.now) }
{
    match bad_field(row) {
        None => Ok(()),
        Some(place) => {
            let column = column_at(columns, header, place);
            Err(FeedFault::NotUtf8(paper, number, column))
        }
    }
}

// The first field of a table that is not UTF-8. It has the number of its record, 0 for the header, and that of its column, from
// 0.
fn first_not_utf8(table: &Table) -> Option<(u32, usize)>
    ensures some { IfSome result (λ bad. IsFirstBad table.now bad.0 bad.1) }
    ensures none { IfNone result (AreTexts table.now) }
{
    if let Some(place) = bad_field(table.header()) {
        return Some((0, place));
    }
    for before in 0..table.records() {
        if let Some(place) = bad_field(table.row(before + 1)) {
            return Some((before + 1, place));
        }
    }
    None
}

// Why a table may not be written again: its first field that is not UTF-8.
fn refusal(paper: Paper, columns: &[Column], table: &Table) -> Option<FeedFault>
    ensures refused { IfSome result (IsRefusedFor paper columns.now table.now) }
    ensures texts { IfNone result (AreTexts table.now) }
{
    let (number, place) = first_not_utf8(table)?;
    let column = column_at(columns, table.header(), place);
    Some(FeedFault::NotUtf8(paper, number, column))
}

/// The table of a paper that must be there, all of whose fields must be UTF-8. The first that is not is refused, in one of
/// these columns, or in another one where its column is none of these.
pub fn read_texts(
    alloc: Global,
    paper: Paper,
    columns: &[Column],
    found: &Found,
) -> Result<Table, FeedFault>
    requires { IsWithinLimit found.now }
    ensures texts { IfOk result (λ table. IsTextPaper (λ read. read ≡ table) (table_in paper found.now)) }
    ensures refused { IfErr result
        (λ refused. refused ≢ FeedFault.Memory → IsRefusedPaper paper columns.now (table_in paper found.now) refused) }
{
    let table = table_in(alloc, paper, found)?;
    match refusal(paper, columns, &table) {
        None => Ok(table),
        Some(refused) => Err(refused),
    }
}
