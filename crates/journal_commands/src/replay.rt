ghost use Rattle.std.specs.Prelude.{◌≡◌, ◌≢◌, ◌++◌, OnOk, Some, string_bytes};
ghost use Rattle.edit_script.specs.Edits.{IsLineInForm};
ghost use Rattle.journal_commands.specs.Replay as spec;

use desk_feed::{push_reason, push_refusal, step_script};
use desk_io::{Memory, Text};
use edit_script::{Edit, EditFault, Follower, Line, Script, edit_line};
use std::alloc::Global;
use std::fmt::Write;

/// Whose records are taken through the edit machine.
#[derive(Clone, Copy)]
pub(crate) enum Source {
    Journal,
    Edits,
}

/// A script that is taken through records, numbered on from `before`. It has what is put of them, what is kept of them, and
/// whether one was refused.
#[derive(Drop)]
pub(crate) struct Replay {
    pub alloc: Global,
    pub source: Source,
    pub before: u32,
    pub script: Script,
    pub text: String,
    pub kept: Vec<Text>,
    pub some: bool,
}

// Appends what is put of a record.
fn push_answer(
    alloc: Global,
    text: &mut String,
    source: Source,
    number: u32,
    line: &Line,
    refused: &Option<EditFault>,
) -> Result<(), Memory>
    requires { refused.now ≢ Some EditFault.Memory }
    ensures { OnOk result (string_bytes text.new ≡ string_bytes text.old ++ spec.answer_line source number line.now refused.now) }
{
    match (source, refused) {
        (Source::Journal, None) => Ok(()),
        (Source::Journal, Some(refused)) => {
            write!(text, "journal {number}")?;
            push_reason(alloc, text, line, refused)
        }
        (Source::Edits, None) => {
            writeln!(text, "record {number}: ok")?;
            Ok(())
        }
        (Source::Edits, Some(refused)) => push_refusal(alloc, text, number, line, refused),
    }
}

// Keeps the canonical line of an accepted record of the script that is no show.
fn keep_line(
    alloc: Global,
    kept: &mut Vec<Text>,
    source: Source,
    line: &Line,
    refused: &Option<EditFault>,
) -> Result<(), Memory>
    requires { IsLineInForm line.now }
    ensures { OnOk result (kept.new.items ≡ kept.old.items ++ spec.kept_line source line.now refused.now) }
{
    match (source, line, refused) {
        (Source::Journal, _, _) => Ok(()),
        (Source::Edits, Line::Edit(Edit::Show), _) => Ok(()),
        (Source::Edits, Line::Edit(edit), None) => {
            kept.push(edit_line(alloc, edit)?)?;
            Ok(())
        }
        (Source::Edits, Line::Edit(_), Some(_)) => Ok(()),
        (Source::Edits, Line::NotAnEdit, _) => Ok(()),
    }
}

impl Follower<()> for Replay {
    ghost use Rattle.std.specs.Prelude.{◌+◌, ◌<◌, ◌≤◌};
    ghost use Rattle.gtfs_tables.specs.declared.paper.TheConstants.{MOST_RECORDS};
    ghost use Rattle.edit_script.specs.Edits.{IsLineInForm};
    ghost use Rattle.journal_commands.specs.Replayed.{HasReplayed};

    type Line = Line;

    ghost Fits = { IsLineInForm };

    ghost IsReady = { λ replay number. (replay.before ≤ MOST_RECORDS) × (replay.script.last < replay.before + number) };

    ghost Stands = { λ was _ lines n now _. HasReplayed lines n was now };

    ghost Stops = { λ _ _ _ _. Unit {0} };

    fn follow(&mut self, number: u32, line: &Line, _lent: &mut ()) -> Result<(), Memory> {
        let refused = step_script(&mut self.script, self.before + number, line)?;
        push_answer(
            self.alloc,
            &mut self.text,
            self.source,
            number,
            line,
            &refused,
        )?;
        keep_line(self.alloc, &mut self.kept, self.source, line, &refused)?;
        self.some |= refused.is_some();
        Ok(())
    }
}
