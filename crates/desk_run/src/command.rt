ghost use Rattle.std.specs.Prelude.{◌≡◌, ◌+◌, ◌≤◌, IfOk};
ghost use Rattle.desk_run.specs.Commands.{Asked, IsGiven};
ghost use Rattle.desk_run.specs.Reading.{papers_of};

use crate::outcome::Outcome;
use crate::reading::Read;
use desk_io::{Memory, Steps};
use gtfs_tables::Paper;
use std::alloc::Global;
use std::sync::ledger::Ledger;

/// What a command of the program brings: what it asks to read, and the outcome that it gives of that.
pub trait Command {
    /// What it asks.
    ghost asked: { Self → Asked };

    /// The papers that it reads, in their order.
    fn papers(&self) -> &[Paper]
        ensures { result.now ≡ (asked self.now).papers };

    /// Whether it reads the journal besides, after all papers.
    fn keeps(&self) -> bool
        ensures { result ≡ (asked self.now).keeps };

    /// What it does after what it has read.
    fn outcome<'a, L: Ledger>(
        &self,
        alloc: Global,
        read: &'a Read,
        steps: &mut Steps<L>,
    ) -> Result<Outcome<'a>, Memory>
        requires { papers_of read.now.pages ≡ (asked self.now).papers }
        ensures given { IfOk result (IsGiven (asked self.now) read.now) }
        ensures counted { steps.new ≤ steps.old + (asked self.now).most read.now };
}
