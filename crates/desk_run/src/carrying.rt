ghost use Rattle.std.specs.Prelude.{◌≡◌, [], ◌∷◌, ◌++◌};
ghost use Rattle.desk_io.specs.History as history;
ghost use Rattle.desk_io.specs.History.{Come};
ghost use Rattle.desk_io.specs.Shelf.{Writes};
ghost use Rattle.desk_run.specs.Becomes.{AppendsSome, Becomes, WritesAll};
ghost use Rattle.desk_run.specs.Order.{CallsToCarry, append_of, writes_of};
ghost use Rattle.desk_run.specs.Outside.{histories};
ghost use Rattle.desk_run.specs.World.{world};

use crate::fault::RunFault;
use crate::outcome::{Outcome, Writing};
use desk_io::{Shelf, ShelfFault, Sink, put_all};
use desk_keeper::{Keeper, KeeperFault, Lines};
use std::alloc::Global;

// Writes one file.
fn write_one<S: Shelf>(alloc: Global, shelf: &mut S, writing: &Writing) -> Result<(), ShelfFault>
    ensures writes { Writes writing.now.name writing.now.bytes result (S.state shelf.old) (S.state shelf.new) }
    ensures noted { S.history shelf.new ≡ S.history shelf.old ++ history.Write writing.now.name writing.now.bytes ∷ [] }
{
    shelf.write(alloc, writing.name.as_str(), writing.bytes.as_slice())
}

// Writes the files in their order, up to the first that is refused.
fn write_all<S: Shelf>(alloc: Global, shelf: &mut S, writes: &[Writing]) -> Result<(), RunFault>
    ensures writes { WritesAll writes.now result (S.state shelf.old) (S.state shelf.new) }
    ensures come { Come (writes_of writes.now) result (S.history shelf.old) (S.history shelf.new) }
{
    for writing in writes {
        match write_one(alloc, shelf, writing) {
            Ok(()) => {}
            Err(ShelfFault::Failed) => return Err(RunFault::Write),
            Err(ShelfFault::Memory) => return Err(RunFault::Memory),
        }
    }
    Ok(())
}

// Appends the lines, where there are any to append.
fn append<K: Keeper>(alloc: Global, keeper: &mut K, lines: &Option<Lines>) -> Result<(), RunFault>
    ensures appends { AppendsSome lines.now result (K.state keeper.old) (K.state keeper.new) }
    ensures come { Come (append_of lines.now) result (K.history keeper.old) (K.history keeper.new) }
{
    let Some(lines) = lines else {
        return Ok(());
    };
    match keeper.append_all(alloc, lines.as_slice()) {
        Ok(()) => Ok(()),
        Err(KeeperFault::Failed) => Err(RunFault::Keeper),
        Err(KeeperFault::Memory) => Err(RunFault::Memory),
        Err(KeeperFault::TooLong) => unreachable!(),
    }
}

/// Carries an outcome out: writes its files, appends its lines and then puts its text by one call, up to the first refused
/// call. Answers the status of its ending.
pub fn carry_out<S: Shelf, O: Sink, K: Keeper>(
    alloc: Global,
    outcome: &Outcome,
    shelf: &mut S,
    out: &mut O,
    keeper: &mut K,
) -> Result<u8, RunFault>
    ensures becomes { let at = world S.state O.state K.state in
        Becomes outcome.now result (at shelf.old out.old keeper.old) (at shelf.new out.new keeper.new) }
    ensures calls { let at = histories S.history O.history K.history in
        CallsToCarry outcome.now result (at shelf.old out.old keeper.old) (at shelf.new out.new keeper.new) }
{
    write_all(alloc, shelf, &outcome.writes)?;
    append(alloc, keeper, &outcome.lines)?;
    match put_all(out, outcome.text.as_str().as_bytes()) {
        Ok(()) => Ok(outcome.ending.status()),
        Err(_) => Err(RunFault::Write),
    }
}
