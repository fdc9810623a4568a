ghost use Rattle.std.specs.Prelude.{◌≡◌, ◌+◌, List, [], ◌∷◌, ◌++◌};
ghost use Rattle.std.specs.Borrow.{ftrue};
ghost use Rattle.pair_search.specs.Looks.{looks_code};
ghost use Rattle.pair_search.specs.declared.look.Look.{Look};

use crate::look::Look;
use desk_io::Steps;
use std::marker::Model;
use std::sync::ledger::Ledger;

/// The looks of searches, for proofs alone: it takes no bytes, and nothing is done for it when the program runs.
#[derive(Drop)]
pub struct Looks {
    pub ghost list: { List Look } by { looks_code },
}

impl Model for Looks {
    ghost also_owns = { λ _. ftrue };
}

impl Looks {
    /// No look was taken.
    pub fn new() -> Looks
        ensures { result.list ≡ [] }
    {
        Looks {}
    }

    // These looks, and then one more.
    fn then(&self, _look: &Look) -> Looks
        ensures { result.list ≡ self.now.list ++ _look.now ∷ [] }
    {
        Looks {}
    }

    /// Takes one more look, which is a step.
    pub(crate) fn take<L: Ledger>(&mut self, look: Look, steps: &mut Steps<L>)
        ensures list { self.new.list ≡ self.old.list ++ look ∷ [] }
        ensures counted { steps.new ≡ steps.old + 1 }
    {
        *self = self.then(&look);
        steps.tick();
    }
}
