ghost use Rattle.std.specs.Prelude.{ℕ};
ghost use Rattle.desk_run.specs.Outside.{Outside, outside};
ghost use Rattle.desk_run.specs.Performs.{Performs};
ghost use Rattle.blocks_command.specs.Blocks.{blocks_asked};
ghost use Rattle.plan_commands.specs.Check.{check_asked};
ghost use Rattle.two_runs.specs.Confirmed.{Confirms, RunsInTurn};

use blocks_command::run_blocks;
use desk_io::{Shelf, Sink, Steps};
use desk_keeper::Keeper;
use plan_commands::run_check;
use std::alloc::Global;
use std::sync::ledger::Ledger;

/// A law: a `check` says yes to what `blocks` wrote, with the same vehicles and empty minutes. It may run at any later time, on
/// another shelf, with another sink. Each paper that it reads has to be as `blocks` left it.
pub fn later_law()
    ensures { (before left later after : Outside) (first second n m k l : ℕ) → Performs blocks_asked before left first n m
        → Performs check_asked later after second k l → Confirms before.world left.world later.world after.world first second }
{}

/// `blocks`, and then `check` over the same shelf, which confirms it. It answers both statuses.
pub fn run_blocks_and_check<S: Shelf, O: Sink, K: Keeper, L: Ledger>(
    alloc: Global,
    shelf: &mut S,
    out: &mut O,
    keeper: &mut K,
    steps: &mut Steps<L>,
) -> (u8, u8)
    ensures { let at = outside S.state S.history O.state O.history K.state K.history in
        RunsInTurn (at shelf.old out.old keeper.old) (at shelf.new out.new keeper.new) result.0 result.1 steps.old steps.new }
{
    later_law();
    let first = run_blocks(alloc, shelf, out, keeper, steps);
    let second = run_check(alloc, shelf, out, keeper, steps);
    (first, second)
}
