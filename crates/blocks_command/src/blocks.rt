ghost use Rattle.std.specs.Prelude.{◌≡◌, ◌+◌, ◌≤◌, ◌++◌, length, All, None, IfOk, OnOk, string_bytes};
ghost use Rattle.blocks_command.specs.Answers.{numbers_text};
ghost use Rattle.desk_run.specs.Outside.{outside};
ghost use Rattle.desk_run.specs.Performs.{Performs};
ghost use Rattle.blocks_command.specs.Blocks.{IsNamedBy, blocks_asked, plan_files, plans_outcome};
ghost use Rattle.deadhead_matrix.specs.Pulls.{IsPull};
ghost use Rattle.desk_feed.specs.Edited.{standing_after};
ghost use Rattle.desk_feed.specs.Schedule.{most_steps};
ghost use Rattle.desk_feed.specs.Script.{IsScript};
ghost use Rattle.feed_desk.specs.Plans.{ArePlanned, most_to, plan_at};

use crate::answers::{Numbers, push_numbers};
use block_build::{NamedBlocks, SlotPrices, blocks_text, prices_text};
use block_names::Naming;
use claim_files::laws::accepted_law;
use deadhead_matrix::Matrix;
use desk_core::Desk;
use desk_feed::{OnFeed, Said, matrix_of};
use desk_io::{Memory, Shelf, Sink, Steps, Text};
use desk_keeper::Keeper;
use desk_run::{Outcome, Writing, perform};
use edit_script::Line;
use feed_desk::{Followed, blocks_now, follow_script};
use feed_likings::read_likings;
use feed_names::laws::names_law;
use feed_naming::{NamingCommand, OnNames};
use gtfs_tables::Paper;
use plan_choice::Likings;
use std::alloc::Global;
use std::sync::ledger::Ledger;
use trip_model::Timetable;

// The two files of the plan of a desk.
fn files_of(alloc: Global, desk: &Desk, naming: &Naming) -> Result<Vec<Writing<'static>>, Memory>
    ensures files { IfOk result (λ writes. writes.items
        ≡ plan_files desk.now.script.timetable desk.now.matrix naming.now desk.now.plan) }
    ensures named { OnOk result (IsNamedBy naming.now desk.now.script.timetable desk.now.plan) }
{
    let timetable = desk.timetable();
    let plan = desk.plan();
    let blocks = blocks_now(alloc, desk)?;
    let names = naming.names(alloc, &blocks)?;
    let named = NamedBlocks {
        timetable,
        matrix: desk.matrix(),
        blocks: &blocks,
        names: &names,
    };
    let blocks = blocks_text(alloc, &named)?;
    let prices = SlotPrices {
        timetable,
        leave: plan.leave(),
        enter: plan.enter(),
    };
    let prices = prices_text(alloc, &prices)?;
    let first = Writing::of(alloc, Paper::Blocks.file_name(), blocks)?;
    let second = Writing::of(alloc, Paper::Prices.file_name(), prices)?;
    Ok(vec![in alloc; first, second]?)
}

// The files of the last plan, and behind what was put of the records the numbers after them all.
fn finished(alloc: Global, followed: Followed, naming: &Naming) -> Result<Outcome<'static>, Memory>
    ensures done { IfOk result (λ outcome. outcome ≡ record {
      writes = plan_files followed.desk.script.timetable followed.desk.matrix naming.now followed.desk.plan;
      lines = None;
      text = string_bytes followed.text ++ numbers_text followed.desk.script.timetable followed.desk.matrix followed.desk.plan;
      ending = followed.ending;
    }) }
    ensures named { OnOk result (IsNamedBy naming.now followed.desk.script.timetable followed.desk.plan) }
{
    let Followed {
        desk,
        mut text,
        ending,
    } = followed;
    let writes = files_of(alloc, &desk, naming)?;
    push_numbers(&mut text, &desk)?;
    Ok(Outcome::of(writes, None, Text::wrap(text), ending))
}

// What is written and put of a timetable, the lines of its script and its matrix.
fn planned<L: Ledger>(
    alloc: Global,
    timetable: Timetable,
    lines: &[Line],
    matrix: Matrix,
    likings: &Likings,
    naming: &Naming,
    steps: &mut Steps<L>,
) -> Result<Outcome<'static>, Memory>
    requires script { IsScript lines.now }
    requires places { length timetable.places ≡ length matrix.walks }
    ensures are { OnOk result (ArePlanned timetable lines.now matrix likings.now) }
    ensures pulls { OnOk result (All IsPull matrix.pulls) }
    ensures named { OnOk result (IsNamedBy naming.now (standing_after timetable lines.now)
        (plan_at timetable lines.now matrix likings.now (length lines.now))) }
    ensures done { IfOk result (λ outcome. outcome ≡ plans_outcome timetable lines.now matrix likings.now naming.now) }
    ensures counted { steps.new ≤ steps.old + (most_steps (length timetable.slots) + most_to timetable lines.now (length lines.now)) }
{
    let answers = Numbers { alloc, naming };
    let followed = follow_script(alloc, timetable, lines, matrix, likings, answers, steps)?;
    finished(alloc, followed, naming)
}

#[derive(Drop)]
struct WriteBlocks;

impl NamingCommand for WriteBlocks {
    ghost use Rattle.blocks_command.specs.Blocks.{blocks_named};

    ghost asks = { λ _. blocks_named };

    fn outcome<'a, L: Ledger>(
        &self,
        said: Said<'a, '_>,
        naming: &Naming,
        steps: &mut Steps<L>,
    ) -> Result<Outcome<'a>, Memory> {
        accepted_law();
        names_law();
        let alloc = said.alloc;
        let pulls = said.pulls;
        let rules = said.rules;
        let matrix = matrix_of(alloc, &said.timetable, said.deadheads, pulls, rules)?;
        let likings = read_likings(alloc, said.settings, said.read, &said.timetable)?;
        planned(
            alloc,
            said.timetable,
            said.lines,
            matrix,
            &likings,
            naming,
            steps,
        )
    }
}

/// The command `blocks`. After each record of the script it puts the fewest vehicles without deadheads, the fewest with them,
/// and their fewest empty minutes. After all records `blocks.csv` has the blocks that reach these, and `prices.csv` the dual
/// prices that prove it. It answers the status.
#[tactic(auto, unfolding(crate::specs::Blocks::blocks_asked))]
pub fn run_blocks<S: Shelf, O: Sink, K: Keeper, L: Ledger>(
    alloc: Global,
    shelf: &mut S,
    out: &mut O,
    keeper: &mut K,
    steps: &mut Steps<L>,
) -> u8
    ensures { let at = outside S.state S.history O.state O.history K.state K.history in
        Performs blocks_asked (at shelf.old out.old keeper.old) (at shelf.new out.new keeper.new) result steps.old steps.new }
{
    perform(
        &OnFeed::of(OnNames(WriteBlocks)),
        alloc,
        shelf,
        out,
        keeper,
        steps,
    )
}
