ghost use Rattle.std.specs.Prelude.{◌≡◌, ◌≢◌, ◌+◌, ◌<◌, ◌≤◌, length, IfOk, OnErr, Some};
ghost use Rattle.desk_feed.specs.Schedule.{most_steps};
ghost use Rattle.desk_feed.specs.Script.{IsScript, IsStepped};
ghost use Rattle.edit_script.specs.Edits.{IsLineInForm};
ghost use Rattle.feed_desk.specs.Drawn.{HasFollowed};
ghost use Rattle.feed_desk.specs.Moments.{IsFollowed};
ghost use Rattle.feed_desk.specs.Plans.{most_for, most_to};

use crate::answers::{Answers, ScriptRecord};
use deadhead_matrix::Matrix;
use deadhead_matrix::laws::plan_law;
use deficit_steps::Deficits;
use desk_core::laws::same_edits_law;
use desk_core::{Desk, InStep};
use desk_feed::ending_by;
use desk_io::{Memory, Steps};
use desk_run::Ending;
use edit_script::laws::machine_law;
use edit_script::{EditFault, Follower, Line, Script, follow_records};
use fixed_fleet::laws::plain_blocks_law;
use plan_choice::Likings;
use std::alloc::Global;
use std::sync::ledger::Ledger;
use trip_model::Timetable;
use trip_model::laws::plain_law;

/// A desk after the script of its feed, what was put of the records, and how a run ends by them.
#[derive(Drop)]
pub struct Followed<D: InStep = Deficits> {
    pub desk: Desk<D>,
    pub text: String,
    pub ending: Ending,
}

// A desk that follows records, what is put of these, and whether one was refused.
#[derive(Drop)]
struct Following<A, D: InStep> {
    answers: A,
    desk: Desk<D>,
    text: String,
    some: bool,
}

// Does what a record says: why it is refused, if it is.
fn step_desk<D: InStep, L: Ledger>(
    desk: &mut Desk<D>,
    number: u32,
    line: &Line,
    steps: &mut Steps<L>,
) -> Result<Option<EditFault>, Memory>
    requires form { IsLineInForm line.now }
    requires next { desk.old.script.last < number }
    ensures stepped { IfOk result (λ refused. IsStepped number line.now refused desk.old.script desk.new.script) }
    ensures followed { IfOk result (λ refused. IsFollowed line.now refused desk.old desk.new) }
    ensures matrix { desk.new.matrix ≡ desk.old.matrix }
    ensures named { result ≢ Ok (Some EditFault.Memory) }
    ensures last { desk.new.script.last ≤ number }
    ensures counted { IfOk result (λ refused. steps.new ≤ steps.old + most_for line.now (length desk.new.script.timetable.slots)
        refused) }
    ensures uncounted { OnErr result (steps.new ≡ steps.old) }
{
    machine_law();
    let Line::Edit(edit) = line else {
        return Ok(Some(EditFault::NotAnEdit));
    };
    let Err(refused) = desk.apply(number, edit, steps) else {
        return Ok(None);
    };
    if refused == EditFault::Memory {
        return Err(Memory);
    }
    Ok(Some(refused))
}

impl<A: Answers<D>, D: InStep, L: Ledger> Follower<Steps<L>> for Following<A, D> {
    ghost use Rattle.std.specs.Prelude.{◌≡◌, ◌+◌, ◌<◌, ◌≤◌, length, string_bytes};
    ghost use Rattle.edit_script.specs.Edits.{IsLineInForm};
    ghost use Rattle.feed_desk.specs.Moments.{IsAnswered};
    ghost use Rattle.feed_desk.specs.Plans.{most_to};

    type Line = Line;

    ghost Fits = { IsLineInForm };

    ghost IsReady = { λ following number. following.desk.script.last < number };

    ghost Stands = { λ was had lines n now steps. (now.answers ≡ was.answers)
        × IsAnswered (A.answer was.answers was.desk.matrix) was.desk.script.timetable lines was.desk had n now.desk (string_bytes now.text)
        now.some steps };

    ghost Stops = { λ was had lines steps. steps ≤ had + most_to was.desk.script.timetable lines (length lines) };

    fn follow(&mut self, number: u32, line: &Line, steps: &mut Steps<L>) -> Result<(), Memory> {
        let refused = step_desk(&mut self.desk, number, line, steps)?;
        // Their clauses say that the plan is certified, and that the timetable is valid.
        let _plan = self.desk.plan();
        let _slots = self.desk.timetable().slots();
        let record = ScriptRecord {
            number,
            line,
            refused: &refused,
        };
        self.answers
            .push_answer(&mut self.text, &self.desk, &record)?;
        self.some |= refused.is_some();
        Ok(())
    }
}

/// Schedules the base timetable of a feed, by the least plan that is liked best, and follows its script with a desk.
pub fn follow_script<A: Answers<D> + Drop, D: InStep, L: Ledger>(
    alloc: Global,
    timetable: Timetable,
    lines: &[Line],
    matrix: Matrix,
    likings: &Likings,
    answers: A,
    steps: &mut Steps<L>,
) -> Result<Followed<D>, Memory>
    requires script { IsScript lines.now }
    requires places { length timetable.places ≡ length matrix.walks }
    ensures followed { IfOk result (HasFollowed (A.answer answers matrix) timetable lines.now matrix likings.now) }
    ensures counted { steps.new ≤ steps.old + (most_steps (length timetable.slots) + most_to timetable lines.now (length lines.now)) }
{
    plan_law();
    plain_law();
    plain_blocks_law();
    same_edits_law();
    machine_law();
    // Their clauses say that no pull is longer than a day, that the plan is certified, and that the timetable is valid.
    let _places = matrix.places();
    let script = Script::open(alloc, timetable)?;
    let desk = Desk::open(alloc, script, matrix, likings, steps)?;
    let _plan = desk.plan();
    let _slots = desk.timetable().slots();
    let mut following = Following {
        answers,
        desk,
        text: String::new(alloc),
        some: false,
    };
    follow_records(&mut following, lines, steps)?;
    Ok(Followed {
        desk: following.desk,
        text: following.text,
        ending: ending_by(following.some),
    })
}
