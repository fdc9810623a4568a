ghost use Rattle.std.specs.Prelude.{◌≡◌, ◌↔◌, [], not, true, IfOk, OnOk, OnErr, IsErrOf, Some, Err, option_map};
ghost use Rattle.std.specs.FinMap.{empty, get};
ghost use Rattle.desk_io.specs.Shelf.{FitsIn, Tells, Reads, Writes, with_file};
ghost use Rattle.desk_io.specs.Calls.{calls_at_first, after_call, after_fault, fails_next};

use crate::calls::Calls;
use crate::{Bytes, Found, History, Memory, Request, Shelf, ShelfFault, Text};
use std::alloc::Global;
use std::collections::VecDeque;

/// A shelf in memory, which tells its files. Those of its calls fail that are listed when it is made.
#[derive(Drop)]
pub struct MemoryShelf {
    // What was laid or written, the last first.
    log: VecDeque<(Text, Bytes)>,
    reads: Calls,
    writes: Calls,
    history: History,
}

impl MemoryShelf {
    ghost use Rattle.desk_io.specs.MemoryShelf.{files_of, reads_of, writes_of, shelf_history_of, shelf_state_of};
    ghost use Rattle.desk_io.specs.Shelf.{found_in};

    /// An empty shelf. The lists name the reads and the writes, each counted from 1, that fail.
    pub fn open(alloc: Global, read_fails: Vec<u32>, write_fails: Vec<u32>) -> MemoryShelf
        ensures files { files_of result ≡ empty }
        ensures reads { reads_of result ≡ calls_at_first read_fails.items }
        ensures writes { writes_of result ≡ calls_at_first write_fails.items }
        ensures history { shelf_history_of result ≡ [] }
    {
        MemoryShelf {
            log: VecDeque::new(alloc),
            reads: Calls::new(read_fails),
            writes: Calls::new(write_fails),
            history: History::new(),
        }
    }

    /// Places a file, in the place of one of that name. It is no write and is not counted as one.
    pub fn lay(&mut self, alloc: Global, name: &str, bytes: &[u8]) -> Result<(), Memory>
        ensures laid { OnOk result (shelf_state_of self.new ≡ with_file name.now bytes.now (shelf_state_of self.old)) }
        ensures err { OnErr result (shelf_state_of self.new ≡ shelf_state_of self.old) }
        ensures reads { reads_of self.new ≡ reads_of self.old }
        ensures writes { writes_of self.new ≡ writes_of self.old }
        ensures history { shelf_history_of self.new ≡ shelf_history_of self.old }
    {
        let name = Text::of(alloc, name)?;
        let bytes = Bytes::of(alloc, bytes)?;
        self.log.push_front((name, bytes))?;
        Ok(())
    }

    /// The bytes of a file.
    pub fn file(&self, name: &str) -> Option<&[u8]>
        ensures { option_map (λ bytes. bytes.now) result ≡ get (files_of self.now) name.now }
    {
        for (key, bytes) in self.log.iter() {
            if key.as_str() == name {
                return Some(bytes.as_slice());
            }
        }
        None
    }

    // A copy of the file, as a read that does not fail answers it.
    fn find(&self, alloc: Global, name: &str, limit: u64) -> Result<Found, ShelfFault>
        ensures found { IfOk result (λ found. found ≡ found_in (files_of self.now) name.now limit) }
        ensures bound { IfOk result (FitsIn limit) }
        ensures fault { OnErr result (result ≡ Err ShelfFault.Memory) }
    {
        match self.file(name) {
            None => Ok(Found::Missing),
            Some(bytes) if bytes.len() as u64 <= limit => {
                Ok(Found::File(Bytes::of(alloc, bytes)?))
            }
            Some(_) => Ok(Found::TooLong),
        }
    }
}

impl Shelf for MemoryShelf {
    ghost use Rattle.std.specs.Prelude.{◌≡◌, ◌↔◌, [], ◌∷◌, ◌++◌, true, false, IfOk, OnOk, Err};
    ghost use Rattle.std.specs.FinMap.{insert};
    ghost use Rattle.std.specs.Result.{result_ok};
    ghost use Rattle.desk_io.specs.History.{Read, Write};
    ghost use Rattle.desk_io.specs.Shelf.{FitsIn, Tells, Reads, Writes, with_file};
    ghost use Rattle.desk_io.specs.Calls.{after_call, after_fault, fails_next};
    ghost use Rattle.desk_io.specs.MemoryShelf.{files_of, reads_of, writes_of, shelf_history_of, shelf_state_of, first_half};

    ghost state = { shelf_state_of };

    ghost history = { shelf_history_of };

    fn read(&mut self, alloc: Global, name: &str, limit: u64) -> Result<Found, ShelfFault>
        ensures bound { IfOk result (FitsIn limit) }
        ensures found { IfOk result (Tells (shelf_state_of self.old).files name.now limit) }
        ensures state { Reads result (shelf_state_of self.old) (shelf_state_of self.new) }
        ensures noted { shelf_history_of self.new ≡ shelf_history_of self.old ++ Read name.now (result_ok result) ∷ [] }
        // It fails exactly at the listed calls.
        ensures fails { (result ≡ Err ShelfFault.Failed) ↔ (fails_next (reads_of self.old) ≡ true) }
        ensures counted { (reads_of self.new).made ≡ (after_call (reads_of self.old)).made }
        ensures listed { (reads_of self.new).listed ≡ (reads_of self.old).listed }
        ensures once { result ≡ Err ShelfFault.Failed → reads_of self.new ≡ after_fault (after_call (reads_of self.old)) }
        ensures writes { writes_of self.new ≡ writes_of self.old }
    {
        let result = if self.reads.enter() {
            self.reads.fault();
            Err(ShelfFault::Failed)
        } else {
            self.find(alloc, name, limit)
        };
        self.history = self.history.then(&Request::Read(name, &result));
        result
    }

    fn write(&mut self, alloc: Global, name: &str, bytes: &[u8]) -> Result<(), ShelfFault>
        ensures writes { Writes name.now bytes.now result (shelf_state_of self.old) (shelf_state_of self.new) }
        ensures noted { shelf_history_of self.new ≡ shelf_history_of self.old ++ Write name.now bytes.now ∷ [] }
        // It fails at the listed calls alone, and at no other.
        ensures fails { result ≡ Err ShelfFault.Failed → fails_next (writes_of self.old) ≡ true }
        ensures succeeds { OnOk result (fails_next (writes_of self.old) ≡ false) }
        // What fails leaves the first half of the bytes.
        ensures half { result ≡ Err ShelfFault.Failed → files_of self.new ≡ insert (files_of self.old) name.now (first_half bytes.now) }
        ensures counted { (writes_of self.new).made ≡ (after_call (writes_of self.old)).made }
        ensures listed { (writes_of self.new).listed ≡ (writes_of self.old).listed }
        ensures once { result ≡ Err ShelfFault.Failed → writes_of self.new ≡ after_fault (after_call (writes_of self.old)) }
        ensures reads { reads_of self.new ≡ reads_of self.old }
    {
        self.history = self.history.then(&Request::Write(name, bytes));
        let fails = self.writes.enter();
        let kept = if fails {
            &bytes[..bytes.len() / 2]
        } else {
            bytes
        };
        self.lay(alloc, name, kept)?;
        if fails {
            self.writes.fault();
            return Err(ShelfFault::Failed);
        }
        Ok(())
    }
}
