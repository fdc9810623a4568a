ghost use Rattle.std.specs.Prelude.{◌≡◌, ◌++◌, [], length, IfOk, OnOk, string_bytes};
ghost use Rattle.edit_script.specs.Edits.{InForm};
ghost use Rattle.planners_command.specs.Answers as spec;
ghost use Rattle.planners_command.specs.Reading.{IsPlannerScript};
ghost use Rattle.planners_command.specs.Stepped.{AreAnswers, IsStepped, IsTold, IsToldIn};
ghost use Rattle.planner_desk.specs.Forms.{IsPlannerLine};

use desk_io::{Memory, Text};
use edit_script::{EditFault, Follower, edit_line, fault_text, follow_records};
use planner_desk::{PlannerEdit, PlannerFault, PlannerLine, Planners};
use std::alloc::Global;
use std::fmt::Write;

/// Planners whose records are followed, what was put of these, and whether one was refused.
#[derive(Drop)]
pub(crate) struct PlannerAnswers {
    pub alloc: Global,
    pub planners: Planners,
    pub text: String,
    pub some: bool,
}

// The trip of the last record of a planner, where one stands.
fn last_trip<'p>(planners: &'p Planners, planner: &Text) -> &'p str
    ensures { result.now ≡ spec.last_trip planner.now planners.now.standing }
{
    match planners.last_of(planner) {
        Some(place) => planners.standing_edit(place).edit.trip(),
        None => "",
    }
}

// Appends the trip of a refusal.
fn push_trip(
    text: &mut String,
    planners: &Planners,
    line: &PlannerLine,
    refused: &PlannerFault,
) -> Result<(), Memory>
    ensures { OnOk result (string_bytes text.new ≡ string_bytes text.old ++ spec.trip_text planners.now.standing line.now refused.now) }
{
    let PlannerLine::Edit(asked) = line else {
        return Ok(());
    };
    let trip = match refused {
        PlannerFault::Refused(_) => asked.edit.trip(),
        PlannerFault::HeldBy(_) => last_trip(planners, &asked.planner),
        PlannerFault::NotAnEdit | PlannerFault::NothingToUndo | PlannerFault::Memory => return Ok(
            (),
        ),
    };
    write!(text, ", {trip}")?;
    Ok(())
}

// Why a record is refused.
fn planner_fault_text(alloc: Global, refused: &PlannerFault) -> Result<Text, Memory>
    requires { IsTold refused.now }
    ensures { IfOk result (λ text. text ≡ spec.planner_fault_text refused.now) }
{
    match refused {
        PlannerFault::NotAnEdit => fault_text(alloc, &EditFault::NotAnEdit),
        PlannerFault::Refused(refused) => fault_text(alloc, refused),
        PlannerFault::NothingToUndo => fault_text(alloc, &EditFault::NothingToUndo),
        PlannerFault::HeldBy(number) => Ok(Text::wrap(format!(in alloc;
            "held by record {number}"
        )?)),
        PlannerFault::Memory => unreachable!(),
    }
}

// Appends what is put of a record, where the planners stand as before it or it is accepted.
#[tactic(auto, unfolding(crate::specs::Answers::answer_line))]
fn push_answer(
    alloc: Global,
    text: &mut String,
    planners: &Planners,
    number: u32,
    line: &PlannerLine,
    refused: &Option<PlannerFault>,
) -> Result<(), Memory>
    requires { IsToldIn refused.now }
    ensures { OnOk result (string_bytes text.new ≡ string_bytes text.old
        ++ spec.answer_line number planners.now.standing line.now refused.now) }
{
    let Some(refused) = refused else {
        writeln!(text, "planner {number}: ok")?;
        return Ok(());
    };
    write!(text, "planner {number}: refused")?;
    push_trip(text, planners, line, refused)?;
    let why = planner_fault_text(alloc, refused)?;
    writeln!(text, ": {}", why.as_str())?;
    Ok(())
}

// Does what a record says: why it is refused, if it is.
fn step_planners(
    planners: &mut Planners,
    number: u32,
    line: &PlannerLine,
) -> Result<Option<PlannerFault>, Memory>
    requires { IsPlannerLine line.now }
    ensures stepped { IfOk result (λ refused. IsStepped number line.now refused planners.old planners.new) }
    ensures told { IfOk result IsToldIn }
{
    let PlannerLine::Edit(asked) = line else {
        return Ok(Some(PlannerFault::NotAnEdit));
    };
    match planners.step(number, asked) {
        Ok(()) => Ok(None),
        // No timetable refuses an edit for lack of memory.
        Err(PlannerFault::Memory | PlannerFault::Refused(EditFault::Memory)) => Err(Memory),
        Err(refused) => Ok(Some(refused)),
    }
}

impl Follower<()> for PlannerAnswers {
    ghost use Rattle.planners_command.specs.Stepped.{AreAnswers};
    ghost use Rattle.planner_desk.specs.Forms.{IsPlannerLine};

    type Line = PlannerLine;

    ghost Fits = { IsPlannerLine };

    ghost IsReady = { λ _ _. Unit {0} };

    ghost Stands = { λ was _ lines n now _. AreAnswers was.planners.base lines n now };

    ghost Stops = { λ _ _ _ _. Unit {0} };

    fn follow(&mut self, number: u32, line: &PlannerLine, _lent: &mut ()) -> Result<(), Memory> {
        let refused = step_planners(&mut self.planners, number, line)?;
        push_answer(
            self.alloc,
            &mut self.text,
            &self.planners,
            number,
            line,
            &refused,
        )?;
        self.some |= refused.is_some();
        Ok(())
    }
}

/// Takes the lines of planners who did nothing yet, one after the other, and puts what becomes of each.
pub(crate) fn answer_all(
    alloc: Global,
    planners: Planners,
    lines: &[PlannerLine],
) -> Result<PlannerAnswers, Memory>
    requires script { IsPlannerScript lines.now }
    requires opened { planners.standing ≡ [] }
    ensures { IfOk result (AreAnswers planners.base lines.now (length lines.now)) }
{
    let mut answers = PlannerAnswers {
        alloc,
        planners,
        text: String::new(alloc),
        some: false,
    };
    follow_records(&mut answers, lines, &mut ())?;
    Ok(answers)
}

// Appends a record that stands.
#[tactic(auto, unfolding(crate::specs::Answers::asked_line))]
fn push_record(alloc: Global, text: &mut String, asked: &PlannerEdit) -> Result<(), Memory>
    requires { InForm asked.now.edit }
    ensures { OnOk result (string_bytes text.new ≡ string_bytes text.old ++ spec.asked_line asked.now) }
{
    let line = edit_line(alloc, &asked.edit)?;
    writeln!(text, " {}: {}", asked.planner.as_str(), line.as_str())?;
    Ok(())
}

/// Appends the records that stand, in their order.
pub(crate) fn push_standing(
    alloc: Global,
    text: &mut String,
    planners: &Planners,
) -> Result<(), Memory>
    ensures { OnOk result (string_bytes text.new ≡ string_bytes text.old ++ spec.standing_text planners.now.standing) }
{
    for at in 0..planners.standing().len() {
        push_record(alloc, text, planners.standing_edit(at))?;
    }
    Ok(())
}
