ghost use Rattle.std.specs.Prelude.{◌≡◌, IfOk};
ghost use Rattle.desk_run.specs.Reading.{IsAmong, papers_of};
ghost use Rattle.gtfs_tables.specs.Reading.{Gives};
ghost use Rattle.gtfs_tables.specs.declared.paper.Paper.TheVariants as paper;
ghost use Rattle.planners_command.specs.Reading as spec;
ghost use Rattle.planners_command.specs.Reading.{IsPlannerScript};

use desk_run::Read;
use gtfs_tables::{FeedFault, Paper, optional_bytes};
use planner_desk::{PlannerLine, read_planner_script};
use std::alloc::Global;

/// The lines of the planners, none where they have no file.
pub(crate) fn read_lines(alloc: Global, read: &Read) -> Result<Vec<PlannerLine>, FeedFault>
    requires { IsAmong (papers_of read.now.pages) paper.PlannerEdits }
    ensures gives { Gives (λ lines. lines.items) result (spec.lines_in read.now) }
    ensures script { IfOk result (λ lines. IsPlannerScript lines.items) }
{
    match optional_bytes(Paper::PlannerEdits, read.found(Paper::PlannerEdits))? {
        Some(bytes) => read_planner_script(alloc, bytes),
        None => Ok(Vec::new(alloc)),
    }
}
