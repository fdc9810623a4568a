ghost use Rattle.std.specs.Prelude.{◌≡◌, ◌<◌, All, IfOk, Some, length};
ghost use Rattle.std.specs.Option.{option_map};
ghost use Rattle.edit_script.specs.Edits.{InForm};
ghost use Rattle.edit_script.specs.Forms as forms;
ghost use Rattle.gtfs_tables.specs.Reading.{Gives};
ghost use Rattle.planner_desk.specs.Forms as spec;
ghost use Rattle.planner_desk.specs.Forms.{IsPlannerLine, line_with};

use crate::{MOST_PLANNER_EDITS, PlannerEdit, PlannerLine};
use desk_io::{Memory, Text};
use edit_script::{Edit, EditFault, read_edit};
use gtfs_tables::{FeedFault, Paper, Row, read_rows};
use std::alloc::Global;

// The text of a field, where it is UTF-8.
fn text_in(field: &[u8]) -> Option<&str>
    ensures { option_map (λ text. text.now) result ≡ forms.text_in field.now }
{
    match str::from_utf8(field) {
        Ok(text) => Some(text),
        Err(_) => None,
    }
}

// The name in a field, where it is UTF-8 and not empty.
fn name_in(field: &[u8]) -> Option<&str>
    ensures { option_map (λ name. name.now) result ≡ forms.name_in field.now }
{
    if field.is_empty() {
        return None;
    }
    text_in(field)
}

// The line of a planner with an edit.
fn line_of(alloc: Global, planner: &str, edit: Edit) -> Result<PlannerLine, Memory>
    requires { InForm edit }
    ensures gives { IfOk result (λ line. line ≡ line_with planner.now (Some edit)) }
    ensures form { IfOk result IsPlannerLine }
{
    match edit {
        Edit::Redo | Edit::Show => Ok(PlannerLine::NotAnEdit),
        edit => Ok(PlannerLine::Edit(PlannerEdit {
            planner: Text::of(alloc, planner)?,
            edit,
        })),
    }
}

// The line of a record.
fn planner_line(alloc: Global, row: &Row) -> Result<PlannerLine, Memory>
    ensures gives { IfOk result (λ line. line ≡ spec.planner_line_of row.now) }
    ensures form { IfOk result IsPlannerLine }
{
    let Some(planner) = name_in(row.field(0)) else {
        return Ok(PlannerLine::NotAnEdit);
    };
    let rest = row.without_first(alloc)?;
    match read_edit(alloc, &rest) {
        Ok(edit) => line_of(alloc, planner, edit),
        Err(EditFault::NotAnEdit) => Ok(PlannerLine::NotAnEdit),
        Err(_) => Err(Memory),
    }
}

/// The lines of a script of planners, one for each record of the file, which has no header. A file of more than 4,096
/// records is refused.
pub fn read_planner_script(alloc: Global, bytes: &[u8]) -> Result<Vec<PlannerLine>, FeedFault>
    ensures gives { Gives (λ lines. lines.items) result (spec.planner_script_of bytes.now) }
    ensures form { IfOk result (λ lines. All IsPlannerLine lines.items) }
{
    let rows = read_rows(alloc, bytes)?;
    if rows.len() > MOST_PLANNER_EDITS as usize {
        return Err(FeedFault::TooManyRecords(Paper::PlannerEdits));
    }
    let mut lines = Vec::new(alloc);
    for row in &rows {
        lines.push(planner_line(alloc, row)?)?;
    }
    Ok(lines)
}
