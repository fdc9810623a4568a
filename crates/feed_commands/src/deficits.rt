ghost use Rattle.desk_run.specs.Outside.{outside};
ghost use Rattle.desk_run.specs.Performs.{Performs};
ghost use Rattle.feed_commands.specs.Deficits.{deficits_asked};

use deficit_steps::{deficit_lines, deficits_of};
use desk_feed::{OnFeed, Stands, TextCommand};
use desk_io::{Memory, Shelf, Sink, Steps, Text};
use desk_keeper::Keeper;
use desk_run::perform;
use std::alloc::Global;
use std::sync::ledger::Ledger;

#[derive(Drop)]
struct ShowDeficits;

impl TextCommand for ShowDeficits {
    ghost use Rattle.feed_commands.specs.Deficits.{deficits_shown};

    ghost asks = { λ _. deficits_shown };

    fn text<L: Ledger>(&self, stands: Stands, steps: &mut Steps<L>) -> Result<Text, Memory> {
        let deficits = deficits_of(stands.alloc, stands.timetable, steps)?;
        deficit_lines(stands.alloc, stands.timetable, &deficits)
    }
}

/// The command `deficits`: the deficit function of each place, with its maximum and the first minute of that. The sum of the
/// maxima is the fewest vehicles without deadheads. It answers the status.
#[tactic(auto, unfolding(crate::specs::Deficits::deficits_asked))]
pub fn run_deficits<S: Shelf, O: Sink, K: Keeper, L: Ledger>(
    alloc: Global,
    shelf: &mut S,
    out: &mut O,
    keeper: &mut K,
    steps: &mut Steps<L>,
) -> u8
    ensures { let at = outside S.state S.history O.state O.history K.state K.history in
        Performs deficits_asked (at shelf.old out.old keeper.old) (at shelf.new out.new keeper.new) result steps.old steps.new }
{
    perform(
        &OnFeed::text(ShowDeficits),
        alloc,
        shelf,
        out,
        keeper,
        steps,
    )
}
