ghost use Rattle.std.specs.Prelude.{◌≡◌, ◌≢◌, ◌≤◌, List, [], ◌∷◌, ◌++◌, length, Bool, IfOk, IfErr, Ok, Err};
ghost use Rattle.std.specs.IoError.{error_kind};
ghost use Rattle.desk_io.specs.System.{Asked, Open, Read, Look, Create, CreateNew, Write, Sync, Rename, Remove, Print, bytes_by};
ghost use Rattle.desk_io.specs.System.{count_by, plain_by, refused_by};

use crate::Bytes;
use crate::system_call::{Refusal, SystemCall};
use crate::trace::Trace;
use std::alloc::Global;
use std::fs::{self, File, OpenFile};
use std::io::{self, ErrorKind, Read, Write};
use std::rt::Files;

/// What a real folder and standard output ask the operating system. Each call is noted with its answer.
pub trait System {
    /// An open file.
    type File: Drop;

    /// What was asked, and what was answered, in this order.
    ghost trace: { Self → List Asked };

    /// Opens a file for reading.
    fn open(&mut self, path: &str) -> Result<Self::File, Refusal>
        ensures noted { trace self.new ≡ trace self.old ++ Open path.now (refused_by result) ∷ [] };

    /// Reads a file from where it stands, at most so many bytes.
    fn read(&mut self, alloc: Global, file: Self::File, most: u64) -> Result<Bytes, Refusal>
        ensures noted { trace self.new ≡ trace self.old ++ Read most (bytes_by result) (refused_by result) ∷ [] };

    /// Whether a plain file is there that may be written, and no link.
    fn look(&mut self, path: &str) -> Result<bool, Refusal>
        ensures noted { trace self.new ≡ trace self.old ++ Look path.now (plain_by result) (refused_by result) ∷ [] };

    /// Opens a file for writing: it is emptied, or made where there is none.
    fn create(&mut self, path: &str) -> Result<Self::File, Refusal>
        ensures noted { trace self.new ≡ trace self.old ++ Create path.now (refused_by result) ∷ [] };

    /// Makes a file where nothing has that name, and opens it for writing.
    fn create_new(&mut self, path: &str) -> Result<Self::File, Refusal>
        ensures noted { trace self.new ≡ trace self.old ++ CreateNew path.now (refused_by result) ∷ [] };

    /// Writes all bytes to an open file.
    fn write(&mut self, file: &mut Self::File, bytes: &[u8]) -> Result<(), Refusal>
        ensures noted { trace self.new ≡ trace self.old ++ Write bytes.now (refused_by result) ∷ [] };

    /// Puts all that was written of a file on the disk, and closes it.
    fn sync(&mut self, file: Self::File) -> Result<(), Refusal>
        ensures noted { trace self.new ≡ trace self.old ++ Sync (refused_by result) ∷ [] };

    /// Gives a file another path, in the place of the file that is there.
    fn rename(&mut self, from: &str, to: &str) -> Result<(), Refusal>
        ensures noted { trace self.new ≡ trace self.old ++ Rename from.now to.now (refused_by result) ∷ [] };

    /// Removes a file.
    fn remove(&mut self, path: &str) -> Result<(), Refusal>
        ensures noted { trace self.new ≡ trace self.old ++ Remove path.now (refused_by result) ∷ [] };

    /// Prints the first of these bytes, and says how many.
    fn print(&mut self, bytes: &[u8]) -> Result<usize, Refusal>
        ensures within { IfOk result (λ count. count ≤ length bytes.now) }
        ensures noted { trace self.new ≡ trace self.old ++ Print bytes.now (count_by result) (refused_by result) ∷ [] };
}

// Why the system refused, by its error.
fn refusal_of(error: &io::Error) -> Refusal
    ensures not_there { error_kind error.now ≡ ErrorKind.NotFound → result ≡ Refusal.NotThere }
    ensures taken { error_kind error.now ≡ ErrorKind.AlreadyExists → result ≡ Refusal.Taken }
    ensures memory { error_kind error.now ≡ ErrorKind.OutOfMemory → result ≡ Refusal.Memory }
    ensures other { error_kind error.now ≢ ErrorKind.NotFound → error_kind error.now ≢ ErrorKind.AlreadyExists
        → error_kind error.now ≢ ErrorKind.OutOfMemory → result ≡ Refusal.Other }
{
    match error.kind() {
        ErrorKind::NotFound => Refusal::NotThere,
        ErrorKind::AlreadyExists => Refusal::Taken,
        ErrorKind::OutOfMemory => Refusal::Memory,
        _ => Refusal::Other,
    }
}

// What the system answered, with why it refused.
fn answered<T>(answer: io::Result<T>) -> Result<T, Refusal>
    ensures done { IfOk answer (λ x. result ≡ Ok x) }
    ensures only { IfOk result (λ x. answer ≡ Ok x) }
{
    match answer {
        Ok(value) => Ok(value),
        Err(error) => Err(refusal_of(&error)),
    }
}

// Why a call was refused, if it was.
fn refused<T>(answer: &Result<T, Refusal>) -> Option<Refusal>
    ensures { result ≡ refused_by answer.now }
{
    match answer {
        Ok(_) => None,
        Err(refusal) => Some(*refusal),
    }
}

/// The system that a runtime reaches. That each call is the one that it notes is trusted: no clause can say it.
#[derive(Drop)]
pub struct Host<'a, R: Files + Print> {
    rt: &'a R,
    trace: Trace,
}

impl<'a, R: Files + Print> Host<'a, R> {
    ghost use Rattle.std.specs.Prelude.{◌≡◌, [], ◌∷◌, ◌++◌};
    ghost use Rattle.desk_io.specs.System.{asked_of};
    ghost use Rattle.desk_io.specs.Host.{host_trace_of};

    /// The system of this runtime, of which nothing was asked.
    pub fn of(rt: &'a R) -> Host<'a, R>
        ensures { host_trace_of result ≡ [] }
    {
        Host {
            rt,
            trace: Trace::new(),
        }
    }

    // Notes a call with its answer.
    fn note(&mut self, call: &SystemCall<'_>)
        ensures { host_trace_of self.new ≡ host_trace_of self.old ++ asked_of call.now ∷ [] }
    {
        self.trace = self.trace.then(call);
    }
}

impl<'a, R: Files + Print> System for Host<'a, R> {
    type File = R::File;

    ghost use Rattle.desk_io.specs.Host.{host_trace_of};

    ghost trace = { host_trace_of };

    fn open(&mut self, path: &str) -> Result<R::File, Refusal> {
        let opened = answered(fs::open(self.rt, path));
        self.note(&SystemCall::Open(path, refused(&opened)));
        opened
    }

    fn read(&mut self, alloc: Global, file: R::File, most: u64) -> Result<Bytes, Refusal> {
        let read = answered(read_most(alloc, file, most));
        let bytes = match &read {
            Ok(bytes) => bytes.as_slice(),
            Err(_) => b"",
        };
        self.note(&SystemCall::Read(most, bytes, refused(&read)));
        read
    }

    fn look(&mut self, path: &str) -> Result<bool, Refusal> {
        let seen = answered(is_plain(self.rt, path));
        let plain = match seen {
            Ok(plain) => plain,
            Err(_) => false,
        };
        self.note(&SystemCall::Look(path, plain, refused(&seen)));
        seen
    }

    fn create(&mut self, path: &str) -> Result<R::File, Refusal> {
        let created = answered(fs::create(self.rt, path));
        self.note(&SystemCall::Create(path, refused(&created)));
        created
    }

    fn create_new(&mut self, path: &str) -> Result<R::File, Refusal> {
        let mut options = File::options();
        let created = answered(options.write(true).create_new(true).open(self.rt, path));
        self.note(&SystemCall::CreateNew(path, refused(&created)));
        created
    }

    fn write(&mut self, file: &mut R::File, bytes: &[u8]) -> Result<(), Refusal> {
        let written = answered(file.write_all(bytes));
        self.note(&SystemCall::Write(bytes, refused(&written)));
        written
    }

    fn sync(&mut self, file: R::File) -> Result<(), Refusal> {
        let synced = answered(file.sync_all());
        self.note(&SystemCall::Sync(refused(&synced)));
        synced
    }

    fn rename(&mut self, from: &str, to: &str) -> Result<(), Refusal> {
        let renamed = answered(fs::rename(self.rt, from, to));
        self.note(&SystemCall::Rename(from, to, refused(&renamed)));
        renamed
    }

    fn remove(&mut self, path: &str) -> Result<(), Refusal> {
        let removed = answered(fs::remove_file(self.rt, path));
        self.note(&SystemCall::Remove(path, refused(&removed)));
        removed
    }

    fn print(&mut self, bytes: &[u8]) -> Result<usize, Refusal> {
        let taken = answered(self.rt.write_some(bytes));
        let count = match taken {
            Ok(count) => count,
            Err(_) => 0,
        };
        self.note(&SystemCall::Print(bytes, count, refused(&taken)));
        taken
    }
}

// Whether a plain file is there that may be written, and no link.
fn is_plain(rt: &impl Files, path: &str) -> io::Result<bool> {
    let seen = fs::symlink_metadata(rt, path)?;
    Ok(seen.is_file() && !seen.permissions().readonly())
}

// The first bytes of a file, at most so many.
fn read_most<I: Read + Drop>(alloc: Global, file: I, most: u64) -> io::Result<Bytes> {
    let mut bytes = Vec::new(alloc);
    file.take(most).read_to_end(&mut bytes)?;
    Ok(Bytes::wrap(bytes))
}
