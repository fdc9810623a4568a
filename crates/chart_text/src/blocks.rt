ghost use Rattle.std.specs.Prelude.{◌≡◌, ◌<◌, ◌++◌, [], All, map, length, slice_index_or, string_bytes, IfOk, OnOk};
ghost use Rattle.std.specs.List.{list_any};
ghost use Rattle.deadhead_matrix.specs.Matrix.{walk};
ghost use Rattle.block_build.specs.Names.{block_name};
ghost use Rattle.chart_text.specs.Blocks as spec;
ghost use Rattle.chart_text.specs.Columns.{IsColumn};

use crate::columns::{COLUMN_MINUTES, column_list};
use block_build::NamedBlocks;
use deadhead_matrix::Matrix;
use desk_io::{Memory, Text};
use std::alloc::Global;
use std::fmt::Write;
use trip_model::Timetable;

/// Whether some minute of the column is at or after `from` and before `to`.
pub fn has_minute(column: u16, from: u64, to: u64) -> bool
    requires { IsColumn column }
    ensures { result ≡ spec.has_minute column from to }
{
    let first = u64::from(COLUMN_MINUTES * column);
    from.max(first) < to.min(first + COLUMN_MINUTES as u64)
}

// Whether some trip of the block runs in the column.
fn runs_in(timetable: &Timetable, block: &[u16], column: u16) -> bool
    requires slots { All (λ s. s < length timetable.now.slots) block.now }
    requires column { IsColumn column }
    ensures { result ≡ list_any (spec.is_running timetable.now column) block.now }
{
    for slot in block {
        let trip = timetable.trip(*slot);
        if has_minute(column, u64::from(trip.departs), u64::from(trip.ends)) {
            return true;
        }
    }
    false
}

// Whether the vehicle walks in the column from the end of the trip in one slot to the start of that in the next.
fn is_walking(timetable: &Timetable, matrix: &Matrix, link: (u16, u16), column: u16) -> bool
    requires slot { link.0 < length timetable.now.slots }
    requires next { link.1 < length timetable.now.slots }
    requires places { length matrix.now.walks ≡ length timetable.now.places }
    requires column { IsColumn column }
    ensures { result ≡ spec.is_walking timetable.now (walk matrix.now) column link }
{
    let (slot, next) = link;
    let trip = timetable.trip(slot);
    let minutes = matrix
        .minutes(trip.to, timetable.trip(next).from)
        .unwrap_or(0);
    let ends = u64::from(trip.ends);
    has_minute(column, ends, ends + u64::from(minutes))
}

// Whether the vehicle of the block walks along one of its links in the column.
fn walks_in(timetable: &Timetable, matrix: &Matrix, block: &[u16], column: u16) -> bool
    requires slots { All (λ s. s < length timetable.now.slots) block.now }
    requires places { length matrix.now.walks ≡ length timetable.now.places }
    requires column { IsColumn column }
    ensures { result ≡ list_any (spec.is_walking timetable.now (walk matrix.now) column) (spec.links block.now) }
{
    for next in 1..block.len() {
        let link = (block[next - 1], block[next]);
        if is_walking(timetable, matrix, link, column) {
            return true;
        }
    }
    false
}

// A block in a column as one character.
fn mark(timetable: &Timetable, matrix: &Matrix, block: &[u16], column: u16) -> char
    requires slots { All (λ s. s < length timetable.now.slots) block.now }
    requires places { length matrix.now.walks ≡ length timetable.now.places }
    requires column { IsColumn column }
    ensures value { result ≡ spec.block_mark timetable.now (walk matrix.now) block.now column }
    ensures ascii { result < 128 }
{
    if runs_in(timetable, block, column) {
        '#'
    } else if walks_in(timetable, matrix, block, column) {
        '~'
    } else {
        '.'
    }
}

fn push_marks(
    text: &mut String,
    timetable: &Timetable,
    matrix: &Matrix,
    block: &[u16],
    columns: &[u16],
) -> Result<(), Memory>
    requires slots { All (λ s. s < length timetable.now.slots) block.now }
    requires places { length matrix.now.walks ≡ length timetable.now.places }
    requires columns { All IsColumn columns.now }
    ensures { OnOk result (string_bytes text.new ≡ string_bytes text.old
        ++ map (spec.block_mark timetable.now (walk matrix.now) block.now) columns.now) }
{
    for column in columns {
        text.push(mark(timetable, matrix, block, *column))?;
    }
    Ok(())
}

/// The line of the block of a number, counted from 0.
pub fn push_block(
    text: &mut String,
    named: &NamedBlocks<'_>,
    columns: &[u16],
    number: usize,
) -> Result<(), Memory>
    requires columns { All IsColumn columns.now }
    requires number { number < length named.now.blocks.now }
    ensures { OnOk result (string_bytes text.new ≡ string_bytes text.old
        ++ spec.block_line named.now.timetable.now (walk named.now.matrix.now) columns.now (block_name named.now.names.now number)
        (slice_index_or named.now.blocks.now number [])) }
{
    let block = named.block(number);
    push_marks(text, named.timetable, named.matrix, block, columns)?;
    writeln!(text, " {}", named.name(number))?;
    Ok(())
}

/// The chart of blocks. Each has a line: one character for each ten minutes, a space and its name. The minutes go from the
/// first departure to the last end of the trips that run. The character is `#` where one of its trips runs in one of these
/// minutes, from its departure until it ends. Else it is `~` where its vehicle runs empty: from the end of a trip for the minutes
/// of the least walk to the next. Else it is `.`. Where no trip runs there are no characters. The form of the chart is this
/// project's own.
pub fn block_chart(alloc: Global, named: &NamedBlocks<'_>) -> Result<Text, Memory>
    ensures { IfOk result (λ text. text ≡ spec.block_chart_text named.now.timetable.now (walk named.now.matrix.now)
        named.now.names.now named.now.blocks.now) }
{
    let columns = column_list(alloc, named.timetable)?;
    let mut text = String::new(alloc);
    for number in 0..named.blocks.len() {
        push_block(&mut text, named, &columns, number)?;
    }
    Ok(Text::wrap(text))
}
