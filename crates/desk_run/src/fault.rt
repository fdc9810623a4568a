ghost use Rattle.std.specs.Prelude.{◌≡◌};
ghost use Rattle.desk_run.specs.declared.fault.RunFault.TheVariants as run_fault;

use desk_io::Memory;

/// Why a run did not come to its end.
#[derive(Clone, Copy)]
pub enum RunFault {
    /// A read failed, and the shelf has counted it.
    Read,
    /// A write or a put failed, and the shelf or the sink has counted it.
    Write,
    /// The keeper of the journal failed, and has counted it.
    Keeper,
    /// No memory was found.
    Memory,
}

impl From<Memory> for RunFault {
    ghost from_gives = { λ _ fault. fault ≡ run_fault.Memory };

    fn from(_: Memory) -> RunFault {
        RunFault::Memory
    }
}
