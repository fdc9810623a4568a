ghost use Rattle.std.specs.Prelude.{◌≡◌, ◌+◌, ◌≤◌, length, OnOk, string_bytes};
ghost use Rattle.desk_feed.specs.Schedule.{most_steps};
ghost use Rattle.planners_command.specs.Stepped.{HasNumbers};

use block_build::empty_minutes;
use deadhead_matrix::Matrix;
use deficit_steps::fixed_of;
use desk_feed::push_numbers_line;
use desk_io::{Memory, Steps};
use feed_schedule::schedule_of;
use fixed_fleet::laws::plain_blocks_law;
use std::alloc::Global;
use std::sync::ledger::Ledger;
use trip_model::Timetable;
use trip_model::laws::plain_law;

/// Appends the numbers of a timetable: the fewest vehicles without deadheads, and of the blocks of a plan from scratch.
pub(crate) fn push_numbers<L: Ledger>(
    alloc: Global,
    text: &mut String,
    timetable: &Timetable,
    matrix: &Matrix,
    steps: &mut Steps<L>,
) -> Result<(), Memory>
    requires places { length timetable.now.places ≡ length matrix.now.walks }
    ensures numbers { OnOk result (HasNumbers timetable.now matrix.now (string_bytes text.old) (string_bytes text.new)) }
    ensures counted { steps.new ≤ steps.old + most_steps (length timetable.now.slots) }
{
    plain_law();
    plain_blocks_law();
    // Its clause says that the timetable is valid.
    let _slots = timetable.slots();
    let fixed = fixed_of(alloc, timetable, steps)?;
    let schedule = schedule_of(alloc, timetable, matrix, steps)?;
    let vehicles = schedule.blocks.len();
    let minutes = empty_minutes(timetable, matrix, &schedule.blocks);
    push_numbers_line(text, fixed, vehicles, minutes)
}
