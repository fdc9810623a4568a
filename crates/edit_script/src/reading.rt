ghost use Rattle.std.specs.Prelude.{◌≡◌, ◌≤◌, All, IfOk, length};
ghost use Rattle.gtfs_tables.specs.Reading.{Gives};
ghost use Rattle.edit_script.specs.Edits.{InForm, IsLineInForm};
ghost use Rattle.edit_script.specs.Forms as spec;
ghost use Rattle.edit_script.specs.Forms.{GivesEdit};

use crate::fields::{filled, minute_in, name_in, shift_in, text_in};
use crate::{Edit, EditFault, Line};
use desk_io::{Memory, Text};
use gtfs_tables::{FeedFault, MOST_RECORDS, Paper, Row, read_rows, without_spaces};
use std::alloc::Global;

// The edit that is a word alone.
fn bare_edit(word: &[u8]) -> Result<Edit, EditFault>
    ensures gives { GivesEdit result (spec.bare_edit word.now) }
    ensures form { IfOk result InForm }
{
    if word == "undo".as_bytes() {
        Ok(Edit::Undo)
    } else if word == "redo".as_bytes() {
        Ok(Edit::Redo)
    } else if word == "show".as_bytes() {
        Ok(Edit::Show)
    } else {
        Err(EditFault::NotAnEdit)
    }
}

// The edit of a word and a trip.
fn trip_edit(alloc: Global, word: &[u8], trip: &[u8]) -> Result<Edit, EditFault>
    ensures gives { GivesEdit result (spec.trip_edit word.now trip.now) }
    ensures form { IfOk result InForm }
{
    let Some(trip) = name_in(trip) else {
        return Err(EditFault::NotAnEdit);
    };
    if word == "cancel".as_bytes() {
        Ok(Edit::Cancel {
            trip: Text::of(alloc, trip)?,
        })
    } else if word == "restore".as_bytes() {
        Ok(Edit::Restore {
            trip: Text::of(alloc, trip)?,
        })
    } else {
        Err(EditFault::NotAnEdit)
    }
}

// The shift of a trip.
fn shift_edit(alloc: Global, trip: &[u8], by: &[u8]) -> Result<Edit, EditFault>
    ensures gives { GivesEdit result (spec.shift_edit trip.now by.now) }
    ensures form { IfOk result InForm }
{
    let Some(trip) = name_in(trip) else {
        return Err(EditFault::NotAnEdit);
    };
    let Some(by) = shift_in(by) else {
        return Err(EditFault::NotAnEdit);
    };
    Ok(Edit::Shift {
        trip: Text::of(alloc, trip)?,
        by,
    })
}

// The extra trip of a record.
fn extra_edit(alloc: Global, row: &Row) -> Result<Edit, EditFault>
    ensures gives { GivesEdit result (spec.extra_edit row.now) }
    ensures form { IfOk result InForm }
{
    let Some(trip) = name_in(row.field(1)) else {
        return Err(EditFault::NotAnEdit);
    };
    let Some(from) = text_in(row.field(2)) else {
        return Err(EditFault::NotAnEdit);
    };
    let Some(to) = text_in(row.field(3)) else {
        return Err(EditFault::NotAnEdit);
    };
    let Some(departs) = minute_in(row.field(4)) else {
        return Err(EditFault::NotAnEdit);
    };
    let Some(arrives) = minute_in(row.field(5)) else {
        return Err(EditFault::NotAnEdit);
    };
    Ok(Edit::Extra {
        trip: Text::of(alloc, trip)?,
        from: Text::of(alloc, from)?,
        to: Text::of(alloc, to)?,
        departs,
        arrives,
    })
}

/// The edit of a record. It is refused as no edit exactly where the record is of no form, and else for lack of memory alone.
pub fn read_edit(alloc: Global, row: &Row) -> Result<Edit, EditFault>
    ensures gives { GivesEdit result (spec.edit_of row.now) }
    ensures form { IfOk result InForm }
{
    let word = without_spaces(row.field(0));
    match filled(row) {
        1 => bare_edit(word),
        2 => trip_edit(alloc, word, row.field(1)),
        3 if word == "shift".as_bytes() => shift_edit(alloc, row.field(1), row.field(2)),
        6 if word == "extra".as_bytes() => extra_edit(alloc, row),
        _ => Err(EditFault::NotAnEdit),
    }
}

// The line of a record.
fn read_line(alloc: Global, row: &Row) -> Result<Line, Memory>
    ensures gives { IfOk result (λ line. line ≡ spec.line_of row.now) }
    ensures form { IfOk result IsLineInForm }
{
    match read_edit(alloc, row) {
        Ok(edit) => Ok(Line::Edit(edit)),
        Err(EditFault::NotAnEdit) => Ok(Line::NotAnEdit),
        Err(_) => Err(Memory),
    }
}

/// The lines of a script, one for each record of the file, which has no header. A file of more than 65,536 records is
/// refused.
pub fn read_script(alloc: Global, paper: Paper, bytes: &[u8]) -> Result<Vec<Line>, FeedFault>
    ensures gives { Gives (λ lines. lines.items) result (spec.script_of paper bytes.now) }
    ensures form { IfOk result (λ lines. All IsLineInForm lines.items) }
{
    let rows = read_rows(alloc, bytes)?;
    if rows.len() > MOST_RECORDS as usize {
        return Err(FeedFault::TooManyRecords(paper));
    }
    let mut lines = Vec::new(alloc);
    for row in &rows {
        lines.push(read_line(alloc, row)?)?;
    }
    Ok(lines)
}
