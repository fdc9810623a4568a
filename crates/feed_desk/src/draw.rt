ghost use Rattle.std.specs.Prelude.{◌≡◌, ◌+◌, ◌<◌, ◌≤◌, length, All, IfOk};
ghost use Rattle.desk_core.specs.Counts.{blocks_in};
ghost use Rattle.desk_feed.specs.Schedule.{most_steps};
ghost use Rattle.desk_feed.specs.Script.{IsScript};
ghost use Rattle.feed_desk.specs.Drawn.{HasDrawn};
ghost use Rattle.feed_desk.specs.Plans.{most_to};

use crate::answers::Refusals;
use crate::follow::follow_script;
use block_build::{Blocks, blocks_of};
use deadhead_matrix::Matrix;
use deficit_steps::Deficits;
use desk_core::{Desk, InStep};
use desk_io::{Memory, Steps, Text};
use desk_run::Ending;
use edit_script::Line;
use plan_choice::Likings;
use std::alloc::Global;
use std::sync::ledger::Ledger;
use trip_model::Timetable;

/// A desk after the script of its feed, the blocks of its plan, the lines of refused records, and how a run ends by them.
pub struct Drawn<D: InStep = Deficits> {
    pub desk: Desk<D>,
    pub blocks: Blocks,
    pub refused: Text,
    pub ending: Ending,
}

impl<D: InStep> Drop for Drawn<D> {
    fn drop(self) {
        let Self {
            desk: _,
            blocks: _,
            refused: _,
            ending: _,
        } = self;
    }
}

/// The blocks of the plan of a desk.
pub fn blocks_now<D: InStep>(alloc: Global, desk: &Desk<D>) -> Result<Blocks, Memory>
    ensures are { IfOk result (λ blocks. blocks ≡ blocks_in desk.now.script.timetable desk.now.plan) }
    ensures within { IfOk result (All (All (λ s. s < length desk.now.script.timetable.slots))) }
{
    blocks_of(alloc, desk.timetable(), desk.plan().links())
}

/// The desk after the script of a feed, with the blocks of its plan. The plan before the script is, of all least ones, that which is
/// liked best.
pub fn draw_after<D: InStep, L: Ledger>(
    alloc: Global,
    timetable: Timetable,
    lines: &[Line],
    matrix: Matrix,
    likings: &Likings,
    steps: &mut Steps<L>,
) -> Result<Drawn<D>, Memory>
    requires script { IsScript lines.now }
    requires places { length timetable.places ≡ length matrix.walks }
    ensures drawn { IfOk result (HasDrawn timetable lines.now matrix likings.now) }
    ensures within { IfOk result (λ drawn. All (All (λ s. s < length drawn.desk.script.timetable.slots)) drawn.blocks) }
    ensures counted { steps.new ≤ steps.old + (most_steps (length timetable.slots) + most_to timetable lines.now (length lines.now)) }
{
    let answers = Refusals { alloc };
    let followed = follow_script(alloc, timetable, lines, matrix, likings, answers, steps)?;
    let blocks = blocks_now(alloc, &followed.desk)?;
    Ok(Drawn {
        desk: followed.desk,
        blocks,
        refused: Text::wrap(followed.text),
        ending: followed.ending,
    })
}
