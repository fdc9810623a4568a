ghost use Rattle.std.specs.Prelude.{Err};

use crate::system::System;
use crate::system_call::Refusal;
use crate::whole_files::{read_file, write_file};
use crate::{Found, History, Request, Shelf, ShelfFault, Text};
use std::alloc::Global;

/// A real folder. It tells nothing of its files, counts its faults, and tells which calls came, and what was asked of the system.
#[derive(Drop)]
pub struct FolderShelf<Y: System + Drop> {
    system: Y,
    folder: Text,
    read_faults: u64,
    write_faults: u64,
    history: History,
}

impl<Y: System + Drop> FolderShelf<Y> {
    ghost use Rattle.std.specs.Prelude.{◌≡◌, [], None};
    ghost use Rattle.desk_io.specs.FolderShelf.{fault_of, folder_history_of, folder_of, folder_state_of, system_of};
    ghost use Rattle.desk_io.specs.Shelf.{Reads, Writes};

    /// The folder at this path, as the system has it. It is not looked at before the first call. No fault was counted, and no call
    /// came.
    pub fn over(system: Y, folder: Text) -> FolderShelf<Y>
        ensures state { folder_state_of result ≡ record { files = None; read_faults = 0; write_faults = 0 } }
        ensures history { folder_history_of result ≡ [] }
        ensures system { system_of result ≡ system }
        ensures folder { folder_of result ≡ folder }
    {
        FolderShelf {
            system,
            folder,
            read_faults: 0,
            write_faults: 0,
            history: History::new(),
        }
    }

    // What a read answers to a refusal. Every one but lack of memory is counted.
    fn unread(&mut self, why: Refusal) -> ShelfFault
        ensures fault { result ≡ fault_of why }
        ensures state { Reads {T = Unit {0}} (Err result) (folder_state_of self.old) (folder_state_of self.new) }
        ensures history { folder_history_of self.new ≡ folder_history_of self.old }
        ensures system { system_of self.new ≡ system_of self.old }
    {
        match why {
            Refusal::Memory => ShelfFault::Memory,
            _ => {
                self.read_faults = self.read_faults.saturating_add(1);
                ShelfFault::Failed
            }
        }
    }

    // What a write answers to a refusal. Every one but lack of memory is counted.
    fn unwritten(&mut self, why: Refusal) -> ShelfFault
        ensures fault { result ≡ fault_of why }
        ensures state { Writes {T = Unit {0}} [] [] (Err result) (folder_state_of self.old) (folder_state_of self.new) }
        ensures history { folder_history_of self.new ≡ folder_history_of self.old }
        ensures system { system_of self.new ≡ system_of self.old }
    {
        match why {
            Refusal::Memory => ShelfFault::Memory,
            _ => {
                self.write_faults = self.write_faults.saturating_add(1);
                ShelfFault::Failed
            }
        }
    }
}

impl<Y: System + Drop> Shelf for FolderShelf<Y> {
    ghost use Rattle.std.specs.Prelude.{◌≡◌, [], ◌∷◌, ◌++◌, IfOk, Result};
    ghost use Rattle.std.specs.Result.{result_ok};
    ghost use Rattle.desk_io.specs.FolderShelf.{AsksForRead, AsksForWrite, folder_history_of, folder_of, folder_state_of, system_of};
    ghost use Rattle.desk_io.specs.History.{Read, Write};
    ghost use Rattle.desk_io.specs.Shelf.{FitsIn, Reads, Tells, Writes};

    ghost state = { folder_state_of };

    ghost history = { folder_history_of };

    fn read(&mut self, alloc: Global, name: &str, limit: u64) -> Result<Found, ShelfFault>
        ensures bound { IfOk result (FitsIn limit) }
        ensures found { IfOk result (Tells (folder_state_of self.old).files name.now limit) }
        ensures state { Reads result (folder_state_of self.old) (folder_state_of self.new) }
        ensures noted { folder_history_of self.new ≡ folder_history_of self.old ++ Read name.now (result_ok result) ∷ [] }
        // The answer is what the system answered, of this file.
        ensures asked { AsksForRead (folder_of self.old) name.now limit result (Y.trace (system_of self.old)) (Y.trace (system_of self.new)) }
    {
        let result = match read_file(&mut self.system, alloc, self.folder.as_str(), name, limit) {
            Ok(found) => Ok(found),
            Err(why) => Err(self.unread(why)),
        };
        self.history = self.history.then(&Request::Read(name, &result));
        result
    }

    fn write(&mut self, alloc: Global, name: &str, bytes: &[u8]) -> Result<(), ShelfFault>
        ensures writes { Writes name.now bytes.now result (folder_state_of self.old) (folder_state_of self.new) }
        ensures noted { folder_history_of self.new ≡ folder_history_of self.old ++ Write name.now bytes.now ∷ [] }
        // The answer is what the system answered, of this file and these bytes.
        ensures asked { AsksForWrite (folder_of self.old) name.now bytes.now result (Y.trace (system_of self.old))
            (Y.trace (system_of self.new)) }
    {
        self.history = self.history.then(&Request::Write(name, bytes));
        match write_file(&mut self.system, alloc, self.folder.as_str(), name, bytes) {
            Ok(()) => Ok(()),
            Err(why) => Err(self.unwritten(why)),
        }
    }
}
