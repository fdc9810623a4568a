ghost use Rattle.std.specs.Prelude.{◌≡◌, ◌≢◌, ◌≤◌, List, [], ◌∷◌, ◌++◌, length, IfOk, Err};
ghost use Rattle.desk_io.specs.History.{Append, Call, Load};
ghost use Rattle.desk_io.specs.History.{loading_of};
ghost use Rattle.desk_keeper.specs.Keeper.{KeeperState, Tells, Loads, Appends, answer_of};
ghost use Rattle.desk_keeper.specs.declared.keeper.KeeperFault.TheVariants as keeper_fault;

use crate::Lines;
use desk_io::{LoadAnswer, Memory, Text};
use std::alloc::Global;
use thiserror::Error;

/// Why a journal was not loaded or not appended to. It is as it was.
#[derive(Clone, Copy, Debug, Drop, PartialEq, Eq, Error)]
pub enum KeeperFault {
    /// Loading or appending failed, and the keeper has counted it.
    #[error("loading or appending to the journal failed")]
    Failed,
    /// The journal has more lines than were asked for at most. Only a load answers this.
    #[error("the journal has too many lines")]
    TooLong,
    /// No memory was found.
    #[error("out of memory")]
    Memory,
}

impl From<Memory> for KeeperFault {
    ghost from_gives = { λ _ fault. fault ≡ keeper_fault.Memory };

    fn from(_: Memory) -> KeeperFault {
        KeeperFault::Memory
    }
}

/// What is noted of the answer to a load.
pub fn answer_of(loaded: &Result<Lines, KeeperFault>) -> LoadAnswer<'_>
    ensures { loading_of result ≡ answer_of loaded.now }
{
    match loaded {
        Ok(lines) => LoadAnswer::Lines(lines.as_slice()),
        Err(KeeperFault::TooLong) => LoadAnswer::TooLong,
        Err(_) => LoadAnswer::Refused,
    }
}

/// A place that keeps a journal, lines of text in the order in which they were appended.
pub trait Keeper {
    /// The journal, where it tells that, and how many calls have failed.
    ghost state: { Self → KeeperState };

    /// The calls that came to it, in their order, and what the loads answered.
    ghost history: { Self → List Call };

    /// The lines of the journal, at most `limit`. The journal stays as it is.
    fn load(&mut self, alloc: Global, limit: u32) -> Result<Lines, KeeperFault>
        // No more lines than were asked for, of every keeper.
        ensures bound { IfOk result (λ lines. length lines ≤ limit) }
        // Where the keeper tells its journal, the answer is exactly that, or that it has too many lines.
        ensures found { Tells (state self.old).journal limit result }
        // A fault is counted, and every other answer leaves the keeper as it was.
        ensures state { Loads result (state self.old) (state self.new) }
        // The call is noted with its answer.
        ensures noted { history self.new ≡ history self.old ++ Load (answer_of result) ∷ [] };

    /// Appends all lines in their order, or none of them.
    fn append_all(&mut self, alloc: Global, lines: &[Text]) -> Result<(), KeeperFault>
        ensures appends { Appends lines.now result (state self.old) (state self.new) }
        // No number of lines is too great.
        ensures fits { result ≢ Err KeeperFault.TooLong }
        ensures noted { history self.new ≡ history self.old ++ Append lines.now ∷ [] };
}
