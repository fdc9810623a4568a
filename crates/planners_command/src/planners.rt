ghost use Rattle.std.specs.Prelude.{◌≡◌, ◌+◌, ◌≤◌, length, IfOk, ◌*◌, ◌++◌, pos};
ghost use Rattle.desk_feed.specs.Commands.{said_to};
ghost use Rattle.desk_feed.specs.Feed.{standing};
ghost use Rattle.desk_feed.specs.Schedule.{most_steps};
ghost use Rattle.desk_feed.specs.Script.{IsScript};
ghost use Rattle.desk_run.specs.Outside.{outside};
ghost use Rattle.desk_run.specs.Performs.{Performs};
ghost use Rattle.planners_command.specs.Moments.{timetable_after};
ghost use Rattle.planners_command.specs.Planners as spec;
ghost use Rattle.planners_command.specs.Planners.{PutsPlanners, IsPlanners, planners_asked};
ghost use Rattle.planners_command.specs.Reading.{IsPlannerScript};

use crate::answers::{answer_all, push_standing};
use crate::numbers::push_numbers;
use crate::reading::read_lines;
use deadhead_matrix::Matrix;
use desk_feed::{
    Edited, FeedCommand, OnFeed, Said, after_script, feed_papers, matrix_of, putting_after, refuse,
};
use desk_io::{Memory, Shelf, Sink, Steps, Text};
use desk_keeper::Keeper;
use desk_run::{Ending, Outcome, perform};
use gtfs_tables::{FeedFault, Paper};
use planner_desk::laws::{folding_law, machine_law, undo_law};
use planner_desk::{PlannerLine, Planners};
use std::alloc::Global;
use std::sync::ledger::Ledger;

// How a run ends: as one with refused edits where a record of a planner is refused, and else as after the script.
fn ending_with(some: bool, after_script: Ending) -> Ending
    ensures { result ≡ spec.ending_with some after_script }
{
    if some {
        Ending::EditsRefused
    } else {
        after_script
    }
}

// What is put of the lines of planners over a timetable after its script.
fn planned<L: Ledger>(
    alloc: Global,
    edited: &Edited,
    matrix: &Matrix,
    lines: &[PlannerLine],
    steps: &mut Steps<L>,
) -> Result<Outcome<'static>, Memory>
    requires places { length edited.now.script.timetable.places ≡ length matrix.now.walks }
    requires script { IsPlannerScript lines.now }
    ensures planned { IfOk result (PutsPlanners edited.now.refused edited.now.ending edited.now.script.timetable matrix.now lines.now) }
    ensures counted { steps.new ≤ steps.old + most_steps (length (timetable_after edited.now.script.timetable lines.now).slots) }
{
    let base = edited.script.timetable();
    let copy = base.copy(alloc)?;
    let planners = Planners::open(alloc, copy)?;
    let answers = answer_all(alloc, planners, lines)?;
    let mut text = answers.text;
    push_standing(alloc, &mut text, &answers.planners)?;
    let timetable = answers.planners.timetable();
    push_numbers(alloc, &mut text, timetable, matrix, steps)?;
    let ending = ending_with(answers.some, edited.ending);
    putting_after(alloc, &edited.refused, &Text::wrap(text), ending)
}

// What is put of what a feed says and of the lines of planners.
fn planned_on<L: Ledger>(
    said: Said,
    lines: &[PlannerLine],
    steps: &mut Steps<L>,
) -> Result<Outcome<'static>, Memory>
    requires pulls { length said.pulls ≡ length said.timetable.places }
    requires script { IsScript said.lines.now }
    requires lines { IsPlannerScript lines.now }
    ensures planned { IfOk result (IsPlanners (said_to said.entry) lines.now) }
    ensures counted { steps.new ≤ steps.old + most_steps (length (timetable_after (standing (said_to said.entry)) lines.now).slots) }
{
    machine_law();
    undo_law();
    folding_law();
    let pulls = said.pulls;
    let rules = said.rules;
    let matrix = matrix_of(said.alloc, &said.timetable, said.deadheads, pulls, rules)?;
    let edited = after_script(said.alloc, said.timetable, said.lines)?;
    planned(said.alloc, &edited, &matrix, lines, steps)
}

#[derive(Drop)]
struct FollowPlanners;

impl FeedCommand for FollowPlanners {
    ghost use Rattle.planners_command.specs.Planners.{planners_does};

    ghost asks = { λ _. planners_does };

    fn outcome<'a, L: Ledger>(
        &self,
        said: Said<'a, '_>,
        steps: &mut Steps<L>,
    ) -> Result<Outcome<'a>, Memory> {
        match read_lines(said.alloc, said.read) {
            Ok(lines) => planned_on(said, &lines, steps),
            Err(FeedFault::Memory) => Err(Memory),
            Err(refused) => refuse(said.alloc, &refused),
        }
    }
}

/// The command `planners`: what becomes of each record of `planner_edits.csv` over the timetable after the script. Then the
/// records that stand, and the numbers of the timetable with their edits. It answers the status.
#[tactic(auto, unfolding(crate::specs::Planners::planners_asked))]
pub fn run_planners<S: Shelf, O: Sink, K: Keeper, L: Ledger>(
    alloc: Global,
    shelf: &mut S,
    out: &mut O,
    keeper: &mut K,
    steps: &mut Steps<L>,
) -> u8
    ensures { let at = outside S.state S.history O.state O.history K.state K.history in
        Performs planners_asked (at shelf.old out.old keeper.old) (at shelf.new out.new keeper.new) result steps.old steps.new }
{
    let papers = feed_papers!(Paper::PlannerEdits);
    let command = OnFeed::with(FollowPlanners, &papers);
    perform(&command, alloc, shelf, out, keeper, steps)
}
