use crate::system::System;
use crate::{History, Request, Sink, SinkFault};

/// Standard output. It tells nothing of what it has taken, counts its faults, and tells which calls came, and what was asked of the
/// system.
#[derive(Drop)]
pub struct OutSink<Y: System + Drop> {
    system: Y,
    faults: u64,
    history: History,
}

impl<Y: System + Drop> OutSink<Y> {
    ghost use Rattle.std.specs.Prelude.{◌≡◌, [], None};
    ghost use Rattle.desk_io.specs.OutSink.{out_history_of, out_state_of, out_system_of};

    /// Standard output, as the system has it. No fault was counted, and no call came.
    pub fn over(system: Y) -> OutSink<Y>
        ensures state { out_state_of result ≡ record { written = None; faults = 0 } }
        ensures history { out_history_of result ≡ [] }
        ensures system { out_system_of result ≡ system }
    {
        OutSink {
            system,
            faults: 0,
            history: History::new(),
        }
    }
}

impl<Y: System + Drop> Sink for OutSink<Y> {
    ghost use Rattle.std.specs.Prelude.{◌≡◌, ◌<◌, ◌≤◌, [], ◌∷◌, ◌++◌, length, take, IfOk, OnErr};
    ghost use Rattle.desk_io.specs.History.{Put};
    ghost use Rattle.desk_io.specs.OutSink.{AsksToPut, out_history_of, out_state_of, out_system_of};
    ghost use Rattle.desk_io.specs.Sink.{PutFailed, put_bytes};

    ghost state = { out_state_of };

    ghost history = { out_history_of };

    fn put(&mut self, piece: &[u8]) -> Result<usize, SinkFault>
        requires { 0 < length piece.now }
        ensures some { IfOk result (λ count. 0 < count) }
        ensures within { IfOk result (λ count. count ≤ length piece.now) }
        ensures taken { IfOk result (λ count. out_state_of self.new ≡ put_bytes (take count piece.now) (out_state_of self.old)) }
        ensures failed { OnErr result (PutFailed (out_state_of self.old) (out_state_of self.new)) }
        ensures noted { out_history_of self.new ≡ out_history_of self.old ++ Put piece.now ∷ [] }
        // The answer is what the system answered, of this piece.
        ensures asked { AsksToPut piece.now result (Y.trace (out_system_of self.old)) (Y.trace (out_system_of self.new)) }
    {
        self.history = self.history.then(&Request::Put(piece));
        match self.system.print(piece) {
            Ok(count) if count > 0 => Ok(count),
            _ => {
                self.faults = self.faults.saturating_add(1);
                Err(SinkFault::Failed)
            }
        }
    }
}
