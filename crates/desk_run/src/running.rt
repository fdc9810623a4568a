ghost use Rattle.desk_run.specs.Order.{IsInOrder, status_by};
ghost use Rattle.desk_run.specs.Outside.{outside};
ghost use Rattle.desk_run.specs.Performs.{Performs};
ghost use Rattle.desk_run.specs.Runs.{Attempts, Follows, RunsAs};

use crate::carrying::carry_out;
use crate::command::Command;
use crate::fault::RunFault;
use crate::reading::{Read, load, read_papers};
use crate::status::{KEEPER_FAULT, NO_MEMORY, READ_FAULT, WRITE_FAULT};
use desk_io::{Shelf, Sink, Steps};
use desk_keeper::Keeper;
use std::alloc::Global;
use std::sync::ledger::Ledger;

// The run of a command, up to the first call that is refused.
fn attempt<C: Command, S: Shelf, O: Sink, K: Keeper, L: Ledger>(
    command: &C,
    alloc: Global,
    shelf: &mut S,
    out: &mut O,
    keeper: &mut K,
    steps: &mut Steps<L>,
) -> Result<u8, RunFault>
    ensures { let at = outside S.state S.history O.state O.history K.state K.history in let before = at shelf.old out.old keeper.old in
        let after = at shelf.new out.new keeper.new in
        Follows (C.asked command.now) before.world
        (λ found. Attempts (C.asked command.now) found result before.world after.world
        × IsInOrder (C.asked command.now) found before after (status_by result)) steps.old steps.new }
{
    let pages = read_papers(alloc, shelf, command.papers())?;
    let journal = load(alloc, keeper, command.keeps())?;
    let read = Read { pages, journal };
    let outcome = command.outcome(alloc, &read, steps)?;
    carry_out(alloc, &outcome, shelf, out, keeper)
}

// The run of a command, apart from `perform`, whose contract follows from this one.
fn answered<C: Command, S: Shelf, O: Sink, K: Keeper, L: Ledger>(
    command: &C,
    alloc: Global,
    shelf: &mut S,
    out: &mut O,
    keeper: &mut K,
    steps: &mut Steps<L>,
) -> u8
    ensures { let at = outside S.state S.history O.state O.history K.state K.history in let before = at shelf.old out.old keeper.old in
        let after = at shelf.new out.new keeper.new in
        Follows (C.asked command.now) before.world
        (λ found. RunsAs (C.asked command.now) found before.world after.world result
        × IsInOrder (C.asked command.now) found before after result) steps.old steps.new }
{
    match attempt(command, alloc, shelf, out, keeper, steps) {
        Ok(status) => status,
        Err(RunFault::Read) => READ_FAULT,
        Err(RunFault::Write) => WRITE_FAULT,
        Err(RunFault::Keeper) => KEEPER_FAULT,
        Err(RunFault::Memory) => NO_MEMORY,
    }
}

/// The run of a command: it reads what the command asks for, and carries out what it gives. It answers the status.
pub fn perform<C: Command, S: Shelf, O: Sink, K: Keeper, L: Ledger>(
    command: &C,
    alloc: Global,
    shelf: &mut S,
    out: &mut O,
    keeper: &mut K,
    steps: &mut Steps<L>,
) -> u8
    ensures { let at = outside S.state S.history O.state O.history K.state K.history in
        Performs (C.asked command.now) (at shelf.old out.old keeper.old) (at shelf.new out.new keeper.new) result steps.old steps.new }
{
    answered(command, alloc, shelf, out, keeper, steps)
}
