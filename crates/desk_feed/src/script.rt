ghost use Rattle.std.specs.Prelude.{◌≡◌, ◌≢◌, ◌+◌, ◌<◌, ◌≤◌, ◌++◌, length, IfOk, OnOk, Some, string_bytes};
ghost use Rattle.desk_feed.specs.Edited.{IsEdited, refusing_first};
ghost use Rattle.desk_feed.specs.Script as spec;
ghost use Rattle.desk_feed.specs.Script.{IsScript, IsStepped};
ghost use Rattle.edit_script.specs.Edits.{IsLineInForm};

use desk_io::{Memory, Text};
use desk_run::{Ending, Outcome};
use edit_script::laws::machine_law;
use edit_script::{Edit, EditFault, Follower, Line, Script, fault_text, follow_records};
use std::alloc::Global;
use std::fmt::Write;
use trip_model::Timetable;

/// A timetable after the script of its feed, the lines of the records that were refused, and how a run ends by them.
pub struct Edited {
    pub script: Script,
    pub refused: Text,
    pub ending: Ending,
}

impl Drop for Edited {
    fn drop(self) {
        let Self {
            script: _,
            refused: _,
            ending: _,
        } = self;
    }
}

// Appends the trip that the edit of a line names.
fn push_trip(text: &mut String, line: &Line) -> Result<(), Memory>
    ensures { OnOk result (string_bytes text.new ≡ string_bytes text.old ++ spec.trip_text line.now) }
{
    let Line::Edit(edit) = line else {
        return Ok(());
    };
    match edit {
        Edit::Undo | Edit::Redo | Edit::Show => Ok(()),
        _ => {
            write!(text, ", {}", edit.trip())?;
            Ok(())
        }
    }
}

/// Appends what is printed behind the number of a refused record: the trip that it names, and why it is refused.
#[tactic(auto, unfolding(crate::specs::Script::reason_text))]
pub fn push_reason(
    alloc: Global,
    text: &mut String,
    line: &Line,
    refused: &EditFault,
) -> Result<(), Memory>
    requires { refused.now ≢ EditFault.Memory }
    ensures { OnOk result (string_bytes text.new ≡ string_bytes text.old ++ spec.reason_text line.now refused.now) }
{
    text.push_str(": refused")?;
    push_trip(text, line)?;
    writeln!(text, ": {}", fault_text(alloc, refused)?.as_str())?;
    Ok(())
}

/// Appends the line of a refused record.
#[tactic(auto, unfolding(crate::specs::Script::refusal_line))]
pub fn push_refusal(
    alloc: Global,
    text: &mut String,
    number: u32,
    line: &Line,
    refused: &EditFault,
) -> Result<(), Memory>
    requires { refused.now ≢ EditFault.Memory }
    ensures { OnOk result (string_bytes text.new ≡ string_bytes text.old ++ spec.refusal_line number line.now refused.now) }
{
    write!(text, "record {number}")?;
    push_reason(alloc, text, line, refused)
}

// Appends the line of a record, where it is refused.
fn push_if_refused(
    alloc: Global,
    text: &mut String,
    number: u32,
    line: &Line,
    refused: &Option<EditFault>,
) -> Result<(), Memory>
    requires { refused.now ≢ Some EditFault.Memory }
    ensures { OnOk result (string_bytes text.new ≡ string_bytes text.old ++ spec.refusal_text number line.now refused.now) }
{
    match refused {
        None => Ok(()),
        Some(refused) => push_refusal(alloc, text, number, line, refused),
    }
}

/// How a run ends by whether a record was refused.
pub fn ending_by(some: bool) -> Ending
    ensures { result ≡ spec.ending_by some }
{
    if some {
        Ending::EditsRefused
    } else {
        Ending::Done
    }
}

/// Steps a script over a record, whose number is greater than all before: why that is refused, if it is.
pub fn step_script(
    script: &mut Script,
    number: u32,
    line: &Line,
) -> Result<Option<EditFault>, Memory>
    requires form { IsLineInForm line.now }
    requires next { script.old.last < number }
    ensures stepped { IfOk result (λ refused. IsStepped number line.now refused script.old script.new) }
    ensures named { result ≢ Ok (Some EditFault.Memory) }
    ensures last { script.new.last ≤ number }
{
    machine_law();
    let Line::Edit(edit) = line else {
        return Ok(Some(EditFault::NotAnEdit));
    };
    let Err(refused) = script.step(number, edit) else {
        return Ok(None);
    };
    if refused == EditFault::Memory {
        return Err(Memory);
    }
    Ok(Some(refused))
}

// A script that is followed, the lines of the records that were refused, and whether one was.
#[derive(Drop)]
struct Refusals {
    alloc: Global,
    script: Script,
    text: String,
    some: bool,
}

impl Follower<()> for Refusals {
    ghost use Rattle.std.specs.Prelude.{◌<◌, string_bytes};
    ghost use Rattle.edit_script.specs.Edits.{IsLineInForm};
    ghost use Rattle.desk_feed.specs.Script.{AreRefusals};

    type Line = Line;

    ghost Fits = { IsLineInForm };

    ghost IsReady = { λ refusals number. refusals.script.last < number };

    ghost Stands = { λ was _ lines n now _. AreRefusals was.script.timetable lines n now.script (string_bytes now.text) now.some };

    ghost Stops = { λ _ _ _ _. Unit {0} };

    fn follow(&mut self, number: u32, line: &Line, _lent: &mut ()) -> Result<(), Memory> {
        let refused = step_script(&mut self.script, number, line)?;
        push_if_refused(self.alloc, &mut self.text, number, line, &refused)?;
        self.some |= refused.is_some();
        Ok(())
    }
}

/// The timetable of a feed after its script.
pub fn after_script(alloc: Global, timetable: Timetable, lines: &[Line]) -> Result<Edited, Memory>
    requires { IsScript lines.now }
    ensures edited { IfOk result (IsEdited timetable lines.now) }
    ensures places { IfOk result (λ edited. edited.script.timetable.places ≡ timetable.places) }
{
    machine_law();
    let script = Script::open(alloc, timetable)?;
    let mut refusals = Refusals {
        alloc,
        script,
        text: String::new(alloc),
        some: false,
    };
    follow_records(&mut refusals, lines, &mut ())?;
    Ok(Edited {
        script: refusals.script,
        refused: Text::wrap(refusals.text),
        ending: ending_by(refusals.some),
    })
}

/// Puts the lines of the records that were refused, and then a text.
pub fn putting_after(
    alloc: Global,
    refused: &Text,
    text: &Text,
    ending: Ending,
) -> Result<Outcome<'static>, Memory>
    ensures { IfOk result (λ outcome. outcome ≡ refusing_first refused.now text.now ending) }
{
    let all = format!(in alloc; "{}{}", refused.as_str(), text.as_str())?;
    Ok(Outcome::putting(alloc, Text::wrap(all), ending))
}
