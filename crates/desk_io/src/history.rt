ghost use Rattle.std.specs.Prelude.{◌≡◌, List, [], ◌∷◌, ◌++◌};
ghost use Rattle.std.specs.Borrow.{ftrue};
ghost use Rattle.desk_io.specs.History.{Call, call_of, calls_code};

use crate::request::Request;
use std::marker::Model;

/// The calls that came to a shelf, a sink or a keeper, reads and loads with their answers, for proofs alone: it takes no bytes, and nothing is done for it when the
/// program runs.
#[derive(Drop)]
pub struct History {
    pub ghost calls: { List Call } by { calls_code },
}

impl Model for History {
    ghost also_owns = { λ _. ftrue };
}

impl History {
    /// No call came.
    pub fn new() -> History
        ensures { result.calls ≡ [] }
    {
        History {}
    }

    /// These calls, and then one more.
    pub fn then(&self, _request: &Request<'_>) -> History
        ensures { result.calls ≡ self.now.calls ++ call_of _request.now ∷ [] }
    {
        History {}
    }
}
