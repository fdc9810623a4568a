use desk_core::{Desk, InStep};
use desk_feed::push_refusal;
use desk_io::Memory;
use edit_script::{EditFault, Line};
use std::alloc::Global;

/// A record of a script that was followed: its number, its line, and why it is refused, if it is.
#[derive(Drop)]
pub struct ScriptRecord<'a> {
    pub number: u32,
    pub line: &'a Line,
    pub refused: &'a Option<EditFault>,
}

/// What is put of each record of a script.
pub trait Answers<D: InStep> {
    ghost use Rattle.std.specs.Prelude.{◌≡◌, ◌≢◌, ◌++◌, OnOk, Some, string_bytes};
    ghost use Rattle.deadhead_matrix.specs.Matrix.{MatrixView};
    ghost use Rattle.feed_desk.specs.Answers.{Answer};

    /// What it puts, with the matrix of the places.
    ghost answer: { Self → MatrixView → Answer };

    /// Appends what is put of a record. The desk is that after the record.
    fn push_answer(
        &self,
        text: &mut String,
        desk: &Desk<D>,
        record: &ScriptRecord,
    ) -> Result<(), Memory>
        requires { record.now.refused.now ≢ Some EditFault.Memory }
        ensures { OnOk result (string_bytes text.new ≡ string_bytes text.old ++ answer self.now desk.now.matrix record.now.number
            record.now.line.now desk.now.script.timetable desk.now.plan record.now.refused.now) };
}

/// The lines of refused records alone.
#[derive(Drop)]
pub struct Refusals {
    pub alloc: Global,
}

impl<D: InStep> Answers<D> for Refusals {
    ghost use Rattle.feed_desk.specs.Answers.{refusals};

    ghost answer = { λ _ _. refusals };

    fn push_answer(
        &self,
        text: &mut String,
        _desk: &Desk<D>,
        record: &ScriptRecord,
    ) -> Result<(), Memory> {
        match record.refused {
            None => Ok(()),
            Some(refused) => push_refusal(self.alloc, text, record.number, record.line, refused),
        }
    }
}
