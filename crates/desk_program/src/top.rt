ghost use Rattle.desk_run.specs.Outside.{outside};
ghost use Rattle.desk_program.specs.Commands as spec;
ghost use Rattle.desk_program.specs.Runs.{IsRun};

use crate::{CommandName, command_of, put_usage};
use audit_command::run_audit;
use blocks_command::run_blocks;
use desk_io::{Shelf, Sink, Steps, Text};
use desk_keeper::Keeper;
use feed_commands::{run_deficits, run_fixed};
use joined_command::run_joined;
use journal_commands::{run_keep, run_kept};
use lowering_commands::{run_chains, run_shifts};
use plan_commands::{run_chart, run_check};
use planners_command::run_planners;
use sample_command::run_sample;
use std::alloc::Global;
use std::sync::ledger::Ledger;
use write_command::run_write;

/// The whole program over the words after its name, a shelf, a sink and a keeper. It answers the status.
pub fn run<S: Shelf, O: Sink, K: Keeper, L: Ledger>(
    alloc: Global,
    words: &[Text],
    shelf: &mut S,
    out: &mut O,
    keeper: &mut K,
    steps: &mut Steps<L>,
) -> u8
    ensures { let at = outside S.state S.history O.state O.history K.state K.history in
        IsRun (spec.command_of words.now) (at shelf.old out.old keeper.old) (at shelf.new out.new keeper.new) result steps.old steps.new }
{
    match command_of(words) {
        None => put_usage(shelf, out, keeper),
        Some(CommandName::Deficits) => run_deficits(alloc, shelf, out, keeper, steps),
        Some(CommandName::Fixed) => run_fixed(alloc, shelf, out, keeper, steps),
        Some(CommandName::Blocks) => run_blocks(alloc, shelf, out, keeper, steps),
        Some(CommandName::Check) => run_check(alloc, shelf, out, keeper, steps),
        Some(CommandName::Write) => run_write(alloc, shelf, out, keeper, steps),
        Some(CommandName::Chart) => run_chart(alloc, shelf, out, keeper, steps),
        Some(CommandName::Chains) => run_chains(alloc, shelf, out, keeper, steps),
        Some(CommandName::Shifts) => run_shifts(alloc, shelf, out, keeper, steps),
        Some(CommandName::Keep) => run_keep(alloc, shelf, out, keeper, steps),
        Some(CommandName::Kept) => run_kept(alloc, shelf, out, keeper, steps),
        Some(CommandName::Joined) => run_joined(alloc, shelf, out, keeper, steps),
        Some(CommandName::Planners) => run_planners(alloc, shelf, out, keeper, steps),
        Some(CommandName::Audit) => run_audit(alloc, shelf, out, keeper, steps),
        Some(CommandName::Sample(trips)) => run_sample(alloc, trips, shelf, out, keeper, steps),
    }
}
