ghost use Rattle.std.specs.Prelude.{◌≡◌, ◌<◌, ◌≤◌, List, [], ◌∷◌, ◌++◌, length, take, IfOk, OnOk, OnErr};
ghost use Rattle.desk_io.specs.History.{Call, Put};
ghost use Rattle.desk_io.specs.Sink.{SinkState, put_bytes, PutFailed, PutsCome, PutsPrefix};

use thiserror::Error;

/// Why bytes were not put.
#[derive(Clone, Copy, Debug, Drop, PartialEq, Eq, Error)]
pub enum SinkFault {
    /// Writing failed, and the sink has counted it.
    #[error("writing failed")]
    Failed,
}

/// A place that takes bytes, one after the other.
pub trait Sink {
    /// What it has taken, where it tells that, and how many puts have failed.
    ghost state: { Self → SinkState };

    /// The puts that came to it, in their order.
    ghost history: { Self → List Call };

    /// Takes the first bytes of a piece, and says how many.
    fn put(&mut self, piece: &[u8]) -> Result<usize, SinkFault>
        requires { 0 < length piece.now }
        ensures some { IfOk result (λ count. 0 < count) }
        ensures within { IfOk result (λ count. count ≤ length piece.now) }
        ensures taken { IfOk result (λ count. state self.new ≡ put_bytes (take count piece.now) (state self.old)) }
        ensures failed { OnErr result (PutFailed (state self.old) (state self.new)) }
        // The put is noted, whatever is answered.
        ensures noted { history self.new ≡ history self.old ++ Put piece.now ∷ [] };
}

/// Puts all the bytes, or a prefix of them where the sink has counted a fault. Each put is given all that is left.
/// It takes no memory.
pub fn put_all<O: Sink>(out: &mut O, bytes: &[u8]) -> Result<(), SinkFault>
    ensures all { OnOk result (O.state out.new ≡ put_bytes bytes.now (O.state out.old)) }
    ensures prefix { OnErr result (PutsPrefix bytes.now (O.state out.old) (O.state out.new)) }
    ensures come { PutsCome bytes.now result (O.history out.old) (O.history out.new) }
{
    let mut done = 0;
    while done < bytes.len() {
        done += out.put(&bytes[done..])?;
    }
    Ok(())
}
