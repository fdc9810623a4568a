ghost use Rattle.std.specs.Prelude.{◌≡◌, ◌+◌, ◌<◌, ◌≤◌, length, All, IfOk};
ghost use Rattle.block_names.specs.Names.{names_of};
ghost use Rattle.desk_run.specs.Outside.{outside};
ghost use Rattle.desk_run.specs.Performs.{Performs};
ghost use Rattle.plan_commands.specs.Chart.{chart_asked, chart_text};

use block_build::NamedBlocks;
use block_names::Naming;
use chart_text::{block_chart, deficit_chart};
use desk_feed::{OnFeed, Said, matrix_of, putting_after};
use desk_io::{Memory, Shelf, Sink, Steps, Text};
use desk_keeper::Keeper;
use desk_run::{Outcome, perform};
use feed_desk::{Drawn, draw_after};
use feed_likings::read_likings;
use feed_naming::{NamingCommand, OnNames};
use std::alloc::Global;
use std::sync::ledger::Ledger;

// The charts of the deficits and of the blocks after a script.
fn charts(alloc: Global, drawn: &Drawn, naming: &Naming) -> Result<Text, Memory>
    requires slots { All (All (λ s. s < length drawn.now.desk.script.timetable.slots)) drawn.now.blocks }
    ensures { IfOk result (λ text. text ≡ chart_text drawn.now.desk.script.timetable drawn.now.desk.matrix
        (names_of naming.now drawn.now.blocks) drawn.now.blocks) }
{
    let timetable = drawn.desk.timetable();
    let above = deficit_chart(alloc, timetable, drawn.desk.deficits())?;
    let names = naming.names(alloc, &drawn.blocks)?;
    let named = NamedBlocks {
        timetable,
        matrix: drawn.desk.matrix(),
        blocks: &drawn.blocks,
        names: &names,
    };
    let below = block_chart(alloc, &named)?;
    Ok(Text::wrap(format!(in alloc; "{}{}", above.as_str(), below.as_str())?))
}

#[derive(Drop)]
struct ShowChart;

impl NamingCommand for ShowChart {
    ghost use Rattle.plan_commands.specs.Chart.{chart_named};

    ghost asks = { λ _. chart_named };

    fn outcome<'a, L: Ledger>(
        &self,
        said: Said<'a, '_>,
        naming: &Naming,
        steps: &mut Steps<L>,
    ) -> Result<Outcome<'a>, Memory> {
        let pulls = said.pulls;
        let rules = said.rules;
        let matrix = matrix_of(said.alloc, &said.timetable, said.deadheads, pulls, rules)?;
        let likings = read_likings(said.alloc, said.settings, said.read, &said.timetable)?;
        let drawn = draw_after(
            said.alloc,
            said.timetable,
            said.lines,
            matrix,
            &likings,
            steps,
        )?;
        let text = charts(said.alloc, &drawn, naming)?;
        putting_after(said.alloc, &drawn.refused, &text, drawn.ending)
    }
}

/// The command `chart`: charts of the deficits and of the blocks of the plan after the script, ten minutes a character. It answers
/// the status.
#[tactic(auto, unfolding(crate::specs::Chart::chart_asked))]
pub fn run_chart<S: Shelf, O: Sink, K: Keeper, L: Ledger>(
    alloc: Global,
    shelf: &mut S,
    out: &mut O,
    keeper: &mut K,
    steps: &mut Steps<L>,
) -> u8
    ensures { let at = outside S.state S.history O.state O.history K.state K.history in
        Performs chart_asked (at shelf.old out.old keeper.old) (at shelf.new out.new keeper.new) result steps.old steps.new }
{
    perform(
        &OnFeed::of(OnNames(ShowChart)),
        alloc,
        shelf,
        out,
        keeper,
        steps,
    )
}
