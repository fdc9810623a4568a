ghost use Rattle.std.specs.Prelude.{◌≡◌, ◌<◌, pos, length, All, IfOk};
ghost use Rattle.trip_model.specs.Blocking.{IsFewest};
ghost use Rattle.trip_model.specs.Fleet.{deficit_sum};
ghost use Rattle.trip_model.specs.Links.{AreLinks, blocks_along};
ghost use Rattle.trip_model.specs.Order.{by_departure};
ghost use Rattle.trip_model.specs.Plain.{plain_network, trip_moves};
ghost use Rattle.fixed_fleet.specs.Rule.{first_in_first_out};
ghost use Rattle.desk_run.specs.Outside.{outside};
ghost use Rattle.desk_run.specs.Performs.{Performs};
ghost use Rattle.feed_commands.specs.Fixed.{IsFixedText, fixed_asked};

use block_build::{Blocks, NamedBlocks, block_lines, blocks_of};
use block_names::Naming;
use deadhead_matrix::{Deadheads, Matrix, Pulls};
use desk_feed::{OnFeed, Said, after_script, putting_after};
use desk_io::{Memory, Shelf, Sink, Steps, Text};
use desk_keeper::Keeper;
use desk_run::{Outcome, perform};
use feed_naming::{NamingCommand, OnNames};
use fixed_fleet::fixed_links;
use std::alloc::Global;
use std::sync::ledger::Ledger;
use trip_model::Timetable;
use trip_model::laws::plain_law;

// The blocks that the trips make without deadheads, first in, first out.
fn fixed_blocks(alloc: Global, timetable: &Timetable) -> Result<Blocks, Memory>
    ensures rule { IfOk result (λ blocks. blocks ≡ blocks_along
        (first_in_first_out (trip_moves timetable.now.slots)) (by_departure (trip_moves timetable.now.slots))) }
    ensures linked { IfOk result (λ blocks. AreLinks (plain_network (trip_moves timetable.now.slots))
        (first_in_first_out (trip_moves timetable.now.slots))) }
    ensures fewest { IfOk result (IsFewest (plain_network (trip_moves timetable.now.slots))) }
    ensures number { IfOk result (λ blocks. pos (length blocks) ≡ deficit_sum timetable.now) }
    ensures within { IfOk result (All (All (λ s. s < length timetable.now.slots))) }
{
    plain_law();
    let links = fixed_links(alloc, timetable)?;
    blocks_of(alloc, timetable, &links)
}

// The lines of the blocks without deadheads, and their number. No least walk is asked for: no vehicle runs empty but out of
// the depot and home.
fn fixed_text(
    alloc: Global,
    timetable: &Timetable,
    pulls: Pulls,
    naming: &Naming,
) -> Result<Text, Memory>
    requires { length pulls ≡ length timetable.now.places }
    ensures { IfOk result (IsFixedText timetable.now pulls naming.now) }
{
    let blocks = fixed_blocks(alloc, timetable)?;
    let mut matrix = Matrix::of(alloc, &Deadheads::none(alloc)?, timetable.places())?;
    matrix.set_pulls(pulls);
    let names = naming.names(alloc, &blocks)?;
    let named = NamedBlocks {
        timetable,
        matrix: &matrix,
        blocks: &blocks,
        names: &names,
    };
    let lines = block_lines(alloc, &named, "")?;
    let lines = lines.as_str();
    Ok(Text::wrap(format!(in alloc; "{lines}fixed {}\n", blocks.len())?))
}

#[derive(Drop)]
struct ShowFixed;

impl NamingCommand for ShowFixed {
    ghost use Rattle.feed_commands.specs.Fixed.{fixed_named};

    ghost asks = { λ _. fixed_named };

    fn outcome<'a, L: Ledger>(
        &self,
        said: Said<'a, '_>,
        naming: &Naming,
        _steps: &mut Steps<L>,
    ) -> Result<Outcome<'a>, Memory> {
        let alloc = said.alloc;
        let pulls = said.pulls;
        let edited = after_script(alloc, said.timetable, said.lines)?;
        let text = fixed_text(alloc, edited.script.timetable(), pulls, naming)?;
        putting_after(alloc, &edited.refused, &text, edited.ending)
    }
}

/// The command `fixed`: blocks without deadheads, as few as there can be, and their number. It answers the status.
#[tactic(auto, unfolding(crate::specs::Fixed::fixed_asked))]
pub fn run_fixed<S: Shelf, O: Sink, K: Keeper, L: Ledger>(
    alloc: Global,
    shelf: &mut S,
    out: &mut O,
    keeper: &mut K,
    steps: &mut Steps<L>,
) -> u8
    ensures { let at = outside S.state S.history O.state O.history K.state K.history in
        Performs fixed_asked (at shelf.old out.old keeper.old) (at shelf.new out.new keeper.new) result steps.old steps.new }
{
    perform(
        &OnFeed::of(OnNames(ShowFixed)),
        alloc,
        shelf,
        out,
        keeper,
        steps,
    )
}
