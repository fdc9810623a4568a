ghost use Rattle.desk_run.specs.Outside.{histories};
ghost use Rattle.desk_run.specs.World.{world};
ghost use Rattle.desk_program.specs.Runs.{HasUsageCause, PutsUsage, UsageInOrder};

use desk_io::{Shelf, Sink, put_all};
use desk_keeper::Keeper;
use desk_run::{USAGE, WRITE_FAULT};

/// What is put for words of no form.
pub const USAGE_LINE: &str =
    "usage: blockdesk deficits|fixed|blocks|check|write|chart|chains|shifts|keep|kept|joined|planners|audit FOLDER, or blockdesk sample N\n";

/// The run of words of no form: it puts the usage line and answers 2, or 6 where the sink has counted a fault. It takes no
/// memory, and the shelf and the keeper only so that its clauses can say that they stay as they are.
pub fn put_usage<S: Shelf, O: Sink, K: Keeper>(shelf: &mut S, out: &mut O, keeper: &mut K) -> u8
    ensures run { let at = world S.state O.state K.state in
        PutsUsage (at shelf.old out.old keeper.old) (at shelf.new out.new keeper.new) result }
    ensures cause { let at = world S.state O.state K.state in
        HasUsageCause (at shelf.old out.old keeper.old) (at shelf.new out.new keeper.new) result }
    ensures order { let at = histories S.history O.history K.history in
        UsageInOrder result (at shelf.old out.old keeper.old) (at shelf.new out.new keeper.new) }
{
    match put_all(out, USAGE_LINE.as_bytes()) {
        Ok(()) => USAGE,
        Err(_) => WRITE_FAULT,
    }
}
