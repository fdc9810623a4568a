ghost use Rattle.std.specs.Prelude.{◌≡◌, List, [], ◌∷◌, ◌++◌, IfOk};
ghost use Rattle.std.specs.Result.{result_ok};
ghost use Rattle.desk_io.specs.History.{Call, Read, Write};
ghost use Rattle.desk_io.specs.Shelf.{ShelfState, Tells, FitsIn, Reads, Writes};
ghost use Rattle.desk_io.specs.declared.shelf.ShelfFault.TheVariants as shelf_fault;

use crate::{Bytes, Memory};
use std::alloc::Global;
use thiserror::Error;

/// What a read finds under a name.
#[derive(Drop)]
pub enum Found {
    /// The file, whole.
    File(Bytes),
    /// There is no such file.
    Missing,
    /// The file has more bytes than were asked for at most.
    TooLong,
}

/// Why a file was not read or not written.
#[derive(Clone, Copy, Debug, Drop, PartialEq, Eq, Error)]
pub enum ShelfFault {
    /// Reading or writing failed, and the shelf has counted it.
    #[error("reading or writing a file failed")]
    Failed,
    /// No memory was found, and nothing changed.
    #[error("out of memory")]
    Memory,
}

impl From<Memory> for ShelfFault {
    ghost from_gives = { λ _ fault. fault ≡ shelf_fault.Memory };

    fn from(_: Memory) -> ShelfFault {
        ShelfFault::Memory
    }
}

/// A place that holds named files.
pub trait Shelf {
    /// What it holds, where it tells that, and how many reads and writes have failed.
    ghost state: { Self → ShelfState };

    /// The calls that came to it, in their order, and what the reads answered.
    ghost history: { Self → List Call };

    /// Reads a file of at most `limit` bytes. The files stay as they are.
    fn read(&mut self, alloc: Global, name: &str, limit: u64) -> Result<Found, ShelfFault>
        // No file is longer than was asked for, on every shelf.
        ensures bound { IfOk result (FitsIn limit) }
        // Where the shelf tells its files, the answer is exactly the file of that name.
        ensures found { IfOk result (Tells (state self.old).files name.now limit) }
        // A fault is counted, and every other answer leaves the shelf as it was.
        ensures state { Reads result (state self.old) (state self.new) }
        // The call is noted with its answer, and with none where it was refused.
        ensures noted { history self.new ≡ history self.old ++ Read name.now (result_ok result) ∷ [] };

    /// Writes a file whole, in the place of one of that name.
    fn write(&mut self, alloc: Global, name: &str, bytes: &[u8]) -> Result<(), ShelfFault>
        ensures writes { Writes name.now bytes.now result (state self.old) (state self.new) }
        ensures noted { history self.new ≡ history self.old ++ Write name.now bytes.now ∷ [] };
}
