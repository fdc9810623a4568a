ghost use Rattle.std.specs.Prelude.{◌≡◌, ◌+◌, ◌*◌, ◌<◌, ◌≤◌, length, All, IfOk};
ghost use Rattle.block_names.specs.Names.{names_of};
ghost use Rattle.joined_command.specs.Joined.{boards_outcome, joined_asked, joined_of};
ghost use Rattle.deadhead_matrix.specs.Fitting.{network_of};
ghost use Rattle.deficit_steps.specs.Holds.{Holds};
ghost use Rattle.desk_run.specs.Outside.{outside};
ghost use Rattle.desk_run.specs.Performs.{Performs};
ghost use Rattle.joined_deficits.specs.declared.limits.TheConstants.{MOST_MOVES};
ghost use Rattle.trip_model.specs.Blocking.{IsBlocking};
ghost use Rattle.trip_model.specs.Deficit.{live_moves};

use block_build::NamedBlocks;
use block_names::Naming;
use deficit_steps::Deficits;
use desk_feed::{OnFeed, Said, matrix_of};
use desk_io::{Memory, Shelf, Sink, Steps, Text};
use desk_keeper::Keeper;
use desk_run::{Outcome, Writing, perform};
use feed_desk::{Drawn, draw_after};
use feed_likings::read_likings;
use feed_naming::{NamingCommand, OnNames};
use joined_deficits::laws::{entries_law, joined_law};
use joined_deficits::{boards_text, joined_deficits, joined_lines, joined_moves};
use std::alloc::Global;
use std::sync::ledger::Ledger;

// The deficits of all moves of the blocks beside those of the trips alone.
fn joined_text<L: Ledger>(
    alloc: Global,
    named: &NamedBlocks<'_>,
    before: &Deficits,
    steps: &mut Steps<L>,
) -> Result<Text, Memory>
    requires blocking { IsBlocking (network_of named.now.timetable.now named.now.matrix.now) named.now.blocks.now }
    requires held { Holds before.now (live_moves named.now.timetable.now.slots) }
    requires rows { length before.now ≡ length named.now.timetable.now.places }
    ensures text { IfOk result (λ text. text ≡ joined_of named.now.timetable.now named.now.matrix.now named.now.blocks.now) }
    ensures counted { steps.new ≤ steps.old + 28 * MOST_MOVES }
{
    let timetable = named.timetable;
    let moves = joined_moves(alloc, named)?;
    let joined = joined_deficits(alloc, timetable.places(), &moves, steps)?;
    joined_lines(alloc, timetable, &joined, before, named.blocks.len())
}

// What is written and put of the plan after a script.
fn boarded<L: Ledger>(
    alloc: Global,
    naming: &Naming,
    drawn: &Drawn,
    steps: &mut Steps<L>,
) -> Result<Outcome<'static>, Memory>
    requires slots { All (All (λ s. s < length drawn.now.desk.script.timetable.slots)) drawn.now.blocks }
    requires blocking { IsBlocking (network_of drawn.now.desk.script.timetable drawn.now.desk.matrix) drawn.now.blocks }
    ensures boarded { IfOk result (λ outcome.
        outcome ≡ boards_outcome drawn.now.refused drawn.now.ending (names_of naming.now drawn.now.blocks)
        drawn.now.desk.script.timetable
        drawn.now.desk.matrix drawn.now.blocks) }
    ensures counted { steps.new ≤ steps.old + 28 * MOST_MOVES }
{
    let names = naming.names(alloc, &drawn.blocks)?;
    let named = NamedBlocks {
        timetable: drawn.desk.timetable(),
        matrix: drawn.desk.matrix(),
        blocks: &drawn.blocks,
        names: &names,
    };
    let boards = boards_text(alloc, &named)?;
    let writing = Writing::of(alloc, "boards.csv", boards)?;
    let writes = vec![in alloc; writing]?;
    let text = joined_text(alloc, &named, drawn.desk.deficits(), steps)?;
    let text = format!(in alloc; "{}{}", drawn.refused.as_str(), text.as_str())?;
    Ok(Outcome::of(writes, None, Text::wrap(text), drawn.ending))
}

#[derive(Drop)]
struct WriteBoards;

impl NamingCommand for WriteBoards {
    ghost use Rattle.joined_command.specs.Joined.{joined_named};

    ghost asks = { λ _. joined_named };

    fn outcome<'a, L: Ledger>(
        &self,
        said: Said<'a, '_>,
        naming: &Naming,
        steps: &mut Steps<L>,
    ) -> Result<Outcome<'a>, Memory> {
        entries_law();
        joined_law();
        let pulls = said.pulls;
        let rules = said.rules;
        let matrix = matrix_of(said.alloc, &said.timetable, said.deadheads, pulls, rules)?;
        let likings = read_likings(said.alloc, said.settings, said.read, &said.timetable)?;
        let drawn = draw_after(
            said.alloc,
            said.timetable,
            said.lines,
            matrix,
            &likings,
            steps,
        )?;
        boarded(said.alloc, naming, &drawn, steps)
    }
}

/// The command `joined`: the deficits with the deadheads of least blocks put in. Their maxima add up to the number of blocks, or
/// where rules of pairs forbid some pairs perhaps to fewer. `boards.csv` has the running board of each vehicle. It answers the
/// status.
#[tactic(auto, unfolding(crate::specs::Joined::joined_asked))]
pub fn run_joined<S: Shelf, O: Sink, K: Keeper, L: Ledger>(
    alloc: Global,
    shelf: &mut S,
    out: &mut O,
    keeper: &mut K,
    steps: &mut Steps<L>,
) -> u8
    ensures { let at = outside S.state S.history O.state O.history K.state K.history in
        Performs joined_asked (at shelf.old out.old keeper.old) (at shelf.new out.new keeper.new) result steps.old steps.new }
{
    perform(
        &OnFeed::of(OnNames(WriteBoards)),
        alloc,
        shelf,
        out,
        keeper,
        steps,
    )
}
