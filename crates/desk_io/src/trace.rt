ghost use Rattle.std.specs.Prelude.{◌≡◌, List, [], ◌∷◌, ◌++◌};
ghost use Rattle.std.specs.Borrow.{ftrue};
ghost use Rattle.desk_io.specs.System.{Asked, asked_of, trace_code};

use crate::system_call::SystemCall;
use std::marker::Model;

/// What the system was asked, and what it answered, for proofs alone: it takes no bytes, and nothing is done for it when the
/// program runs.
#[derive(Drop)]
pub struct Trace {
    pub ghost asked: { List Asked } by { trace_code },
}

impl Model for Trace {
    ghost also_owns = { λ _. ftrue };
}

impl Trace {
    /// Nothing was asked.
    pub fn new() -> Trace
        ensures { result.asked ≡ [] }
    {
        Trace {}
    }

    /// What was asked so far, and then one call more.
    pub fn then(&self, _call: &SystemCall<'_>) -> Trace
        ensures { result.asked ≡ self.now.asked ++ asked_of _call.now ∷ [] }
    {
        Trace {}
    }
}
