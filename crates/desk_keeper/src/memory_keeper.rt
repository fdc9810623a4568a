ghost use Rattle.std.specs.Prelude.{◌≡◌, ◌≢◌, ◌⊎◌, ◌↔◌, ◌<◌, ◌≤◌, [], true, length, IfOk, IfErr, OnOk, IsErr, Some, Err};
ghost use Rattle.desk_io.specs.Calls.{calls_at_first, after_call, after_fault, fails_next};
ghost use Rattle.desk_keeper.specs.Keeper.{Tells, Loads, Appends};

use crate::{Keeper, KeeperFault, Lines, answer_of};
use desk_io::{Calls, History, Memory, Request, Text};
use std::alloc::Global;

/// A keeper in memory, which tells its journal. Those of its calls fail that are listed when it is made.
#[derive(Drop)]
pub struct MemoryKeeper {
    journal: Vec<Text>,
    calls: Calls,
    history: History,
}

// A copy of the lines.
fn copies(alloc: Global, lines: &[Text]) -> Result<Vec<Text>, Memory>
    ensures { IfOk result (λ copies. copies.items ≡ lines.now) }
{
    let mut copies = Vec::new(alloc);
    for line in lines {
        copies.push(Text::of(alloc, line.as_str())?)?;
    }
    Ok(copies)
}

impl MemoryKeeper {
    ghost use Rattle.desk_keeper.specs.MemoryKeeper.{journal_of, calls_of, keeper_history_of, keeper_state_of};

    /// An empty journal. The list names the calls that fail, loads and appends counted together from 1.
    pub fn open(alloc: Global, fails: Vec<u32>) -> MemoryKeeper
        ensures empty { journal_of result ≡ [] }
        ensures calls { calls_of result ≡ calls_at_first fails.items }
        ensures history { keeper_history_of result ≡ [] }
    {
        MemoryKeeper {
            journal: Vec::new(alloc),
            calls: Calls::new(fails),
            history: History::new(),
        }
    }

    /// The journal.
    pub fn lines(&self) -> &[Text]
        ensures { (keeper_state_of self.now).journal ≡ Some result.now }
    {
        &self.journal
    }

    // A copy of the journal, as a load that does not fail answers it.
    fn copy(&self, alloc: Global, limit: u32) -> Result<Lines, KeeperFault>
        ensures lines { IfOk result (λ lines. (lines ≡ journal_of self.now) × (length lines ≤ limit)) }
        ensures refused { IfErr result (λ fault. (fault ≡ KeeperFault.Memory)
            ⊎ ((fault ≡ KeeperFault.TooLong) × (limit < length (journal_of self.now)))) }
    {
        if self.journal.len() > limit as usize {
            return Err(KeeperFault::TooLong);
        }
        Ok(Lines::wrap(copies(alloc, &self.journal)?))
    }

    // Counts a call, and a fault where the call is listed.
    fn enter(&mut self) -> Result<(), KeeperFault>
        ensures journal { journal_of self.new ≡ journal_of self.old }
        ensures fails { IsErr result ↔ (fails_next (calls_of self.old) ≡ true) }
        ensures counted { OnOk result (calls_of self.new ≡ after_call (calls_of self.old)) }
        ensures once { IfErr result (λ fault. (fault ≡ KeeperFault.Failed)
            × (calls_of self.new ≡ after_fault (after_call (calls_of self.old)))) }
        ensures never_falls { (calls_of self.old).faults ≤ (calls_of self.new).faults }
        ensures history { keeper_history_of self.new ≡ keeper_history_of self.old }
    {
        if self.calls.enter() {
            self.calls.fault();
            return Err(KeeperFault::Failed);
        }
        Ok(())
    }
}

impl Keeper for MemoryKeeper {
    ghost use Rattle.std.specs.Prelude.{◌≡◌, ◌≢◌, ◌↔◌, ◌≤◌, [], ◌∷◌, ◌++◌, true, length, IfOk, Err};
    ghost use Rattle.desk_io.specs.Calls.{after_call, after_fault, fails_next};
    ghost use Rattle.desk_io.specs.History.{Append, Load};
    ghost use Rattle.desk_keeper.specs.Keeper.{Tells, Loads, Appends, answer_of};
    ghost use Rattle.desk_keeper.specs.MemoryKeeper.{calls_of, keeper_history_of, keeper_state_of};

    ghost state = { keeper_state_of };

    ghost history = { keeper_history_of };

    fn load(&mut self, alloc: Global, limit: u32) -> Result<Lines, KeeperFault>
        ensures bound { IfOk result (λ lines. length lines ≤ limit) }
        ensures found { Tells (keeper_state_of self.old).journal limit result }
        ensures state { Loads result (keeper_state_of self.old) (keeper_state_of self.new) }
        ensures noted { keeper_history_of self.new ≡ keeper_history_of self.old ++ Load (answer_of result) ∷ [] }
        // It fails exactly at the listed calls.
        ensures fails { (result ≡ Err KeeperFault.Failed) ↔ (fails_next (calls_of self.old) ≡ true) }
        ensures counted { (calls_of self.new).made ≡ (after_call (calls_of self.old)).made }
        ensures listed { (calls_of self.new).listed ≡ (calls_of self.old).listed }
        ensures once { result ≡ Err KeeperFault.Failed → calls_of self.new ≡ after_fault (after_call (calls_of self.old)) }
    {
        let result = match self.enter() {
            Ok(()) => self.copy(alloc, limit),
            Err(fault) => Err(fault),
        };
        self.history = self.history.then(&Request::Load(answer_of(&result)));
        result
    }

    fn append_all(&mut self, alloc: Global, lines: &[Text]) -> Result<(), KeeperFault>
        ensures appends { Appends lines.now result (keeper_state_of self.old) (keeper_state_of self.new) }
        ensures fits { result ≢ Err KeeperFault.TooLong }
        ensures noted { keeper_history_of self.new ≡ keeper_history_of self.old ++ Append lines.now ∷ [] }
        // It fails exactly at the listed calls.
        ensures fails { (result ≡ Err KeeperFault.Failed) ↔ (fails_next (calls_of self.old) ≡ true) }
        ensures counted { (calls_of self.new).made ≡ (after_call (calls_of self.old)).made }
        ensures listed { (calls_of self.new).listed ≡ (calls_of self.old).listed }
        ensures once { result ≡ Err KeeperFault.Failed → calls_of self.new ≡ after_fault (after_call (calls_of self.old)) }
    {
        self.history = self.history.then(&Request::Append(lines));
        self.enter()?;
        let mut copies = copies(alloc, lines)?;
        match self.journal.append(&mut copies) {
            Ok(()) => Ok(()),
            Err(_) => Err(KeeperFault::Memory),
        }
    }
}
