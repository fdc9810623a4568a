ghost use Rattle.std.specs.Prelude.{◌≡◌, [], ◌∷◌, ◌++◌, All, IfOk, IsUtf8, map, string_bytes};
ghost use Rattle.gtfs_tables.specs.Writing.{record_text};
ghost use Rattle.edit_script.specs.declared.edit.Edit.TheVariants as edit;
ghost use Rattle.edit_script.specs.Edits.{InForm};
ghost use Rattle.edit_script.specs.Lines as spec;

use crate::Edit;
use desk_io::{Memory, Text};
use gtfs_tables::laws::written_text_law;
use gtfs_tables::{RecordWriter, minute_text};
use std::alloc::Global;

/// A number with its sign.
pub(crate) fn signed_text(alloc: Global, value: i16) -> Result<Text, Memory>
    ensures { IfOk result (λ text. text ≡ spec.signed_text value) }
{
    let sign = if value < 0 { "-" } else { "+" };
    Ok(Text::wrap(format!(in alloc; "{sign}{}", value.unsigned_abs())?))
}

// The record of these fields, without its line end.
fn record_line(alloc: Global, fields: &[&[u8]]) -> Result<Text, Memory>
    requires { All IsUtf8 (map (λ field. field.now) fields.now) }
    ensures { IfOk result (λ line. line ++ 10 ∷ [] ≡ record_text (map (λ field. field.now) fields.now)) }
{
    let mut records = RecordWriter::new(alloc);
    records.push(fields)?;
    written_text_law();
    let text = records.into_text()?;
    match text.as_str().strip_suffix('\n') {
        Some(line) => Text::of(alloc, line),
        None => unreachable!(),
    }
}

/// The canonical line of the shift of a trip, without its line end.
pub fn shift_line(alloc: Global, trip: &str, by: i16) -> Result<Text, Memory>
    ensures { IfOk result (λ line. line ++ 10 ∷ [] ≡ record_text (spec.fields_of (edit.Shift trip.now by))) }
{
    let by = signed_text(alloc, by)?;
    record_line(
        alloc,
        &["shift".as_bytes(), trip.as_bytes(), by.as_str().as_bytes()],
    )
}

/// The canonical line of an edit, without its line end.
pub fn edit_line(alloc: Global, edit: &Edit) -> Result<Text, Memory>
    requires { InForm edit.now }
    ensures { IfOk result (λ line. line ++ 10 ∷ [] ≡ record_text (spec.fields_of edit.now)) }
{
    match edit {
        Edit::Shift { trip, by } => shift_line(alloc, trip.as_str(), *by),
        Edit::Cancel { trip } => record_line(
            alloc,
            &["cancel".as_bytes(), trip.as_str().as_bytes()],
        ),
        Edit::Restore { trip } => record_line(
            alloc,
            &["restore".as_bytes(), trip.as_str().as_bytes()],
        ),
        Edit::Extra {
            trip,
            from,
            to,
            departs,
            arrives,
        } => {
            let departs = minute_text(alloc, *departs)?;
            let arrives = minute_text(alloc, *arrives)?;
            record_line(
                alloc,
                &[
                    "extra".as_bytes(),
                    trip.as_str().as_bytes(),
                    from.as_str().as_bytes(),
                    to.as_str().as_bytes(),
                    departs.as_str().as_bytes(),
                    arrives.as_str().as_bytes(),
                ],
            )
        }
        Edit::Undo => record_line(alloc, &["undo".as_bytes()]),
        Edit::Redo => record_line(alloc, &["redo".as_bytes()]),
        Edit::Show => record_line(alloc, &["show".as_bytes()]),
    }
}
