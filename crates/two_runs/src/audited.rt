ghost use Rattle.desk_run.specs.Outside.{outside};
ghost use Rattle.two_runs.specs.Audited.{WritesAndAudits};

use audit_command::run_audit;
use desk_io::{Shelf, Sink, Steps};
use desk_keeper::Keeper;
use std::alloc::Global;
use std::sync::ledger::Ledger;
use write_command::run_write;
use written_laws::laws::plan_law;

/// `write`, and then `audit` over another shelf. It finds the written blocks least where the written feed is laid on that shelf
/// and can be audited. It can where the script adds no trip, cancels none, and moves no time to 100:00:00 or later. Also
/// neither file may be too long or begin with a byte-order mark. That holds where both runs come to their end and both shelves
/// tell their files. It answers both statuses.
pub fn run_write_and_audit<S: Shelf, A: Shelf, O: Sink, K: Keeper, L: Ledger>(
    alloc: Global,
    shelf: &mut S,
    laid: &mut A,
    out: &mut O,
    keeper: &mut K,
    steps: &mut Steps<L>,
) -> (u8, u8)
    ensures { let before = outside S.state S.history O.state O.history K.state K.history in
        let after = outside A.state A.history O.state O.history K.state K.history in
        WritesAndAudits (before shelf.old out.old keeper.old) (S.state shelf.new) (S.history shelf.new) (A.state laid.old)
        (A.history laid.old) (after laid.new out.new keeper.new)
        result.0 result.1 steps.old steps.new }
{
    plan_law();
    let first = run_write(alloc, shelf, out, keeper, steps);
    let second = run_audit(alloc, laid, out, keeper, steps);
    (first, second)
}
