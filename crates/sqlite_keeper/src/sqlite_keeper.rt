ghost use Rattle.std.specs.Prelude.{◌≡◌, ◌+◌, length, nat_le, if◌then◌else◌, pos, Ok, Err};

use crate::database::{Ask, Database};
use desk_io::{History, Request, Text};
use desk_keeper::{Keeper, KeeperFault, Lines, answer_of};
use sqlite::{Error, ErrorCode};
use sqlite_resolve::CompileError;
use std::alloc::Global;

/// A keeper over the file `journal.db` in a folder. It tells nothing of its journal, counts its faults, and
/// tells which calls came, and what the loads answered.
#[derive(Drop)]
pub struct SqliteKeeper<'a> {
    rt: &'a HostRuntime,
    folder: Text,
    // None before the first call, and after a call that failed.
    database: Option<Database>,
    faults: u64,
    history: History,
}

impl<'a> SqliteKeeper<'a> {
    ghost use Rattle.std.specs.Prelude.{◌≡◌, [], length, nat_le, if◌then◌else◌, None, Ok, Err, IfOk, IfErr};
    ghost use Rattle.desk_keeper.specs.Keeper.{Loads};
    ghost use Rattle.std.specs.Prelude.{false, is_ok};
    ghost use Rattle.sqlite_keeper.specs.SqliteKeeper.{has_succeeded, is_open, journal_folder_of, keeper_history_of};
    ghost use Rattle.sqlite_keeper.specs.SqliteKeeper.{keeper_state_of, refusal_of};

    /// The journal in this folder. The file is not opened before the first call. No fault was counted, and no call came.
    pub fn over(rt: &'a HostRuntime, folder: Text) -> SqliteKeeper<'a>
        ensures state { keeper_state_of result ≡ record { journal = None; faults = 0 } }
        ensures history { keeper_history_of result ≡ [] }
        ensures folder { journal_folder_of result ≡ folder }
    {
        SqliteKeeper {
            rt,
            folder,
            database: None,
            faults: 0,
            history: History::new(),
        }
    }

    // The database, opened where it is not open yet. It is put back once a call has succeeded.
    fn open(&mut self) -> Result<Database, Error>
        ensures taken { is_open self.new ≡ false }
        ensures state { keeper_state_of self.new ≡ keeper_state_of self.old }
        ensures history { keeper_history_of self.new ≡ keeper_history_of self.old }
    {
        match self.database.take() {
            Some(database) => Ok(database),
            None => Database::open(self.rt, self.folder.as_str()),
        }
    }

    // Does what is asked of the database, which is closed where that fails.
    fn ask(&mut self, alloc: Global, ask: Ask) -> Result<Vec<Text>, Error>
        ensures open { is_open self.new ≡ is_ok result }
        ensures state { keeper_state_of self.new ≡ keeper_state_of self.old }
        ensures history { keeper_history_of self.new ≡ keeper_history_of self.old }
    {
        let (database, lines) = self.open()?.answer(alloc, ask)?;
        self.database = Some(database);
        Ok(lines)
    }

    // What a call answers to what the database answered. An error that says lack of memory is answered as that. Every other one
    // is counted.
    fn answer(&mut self, answered: Result<Vec<Text>, Error>) -> Result<Vec<Text>, KeeperFault>
        ensures done { IfOk answered (λ lines. result ≡ Ok lines) }
        ensures refused { IfErr answered (λ error. result ≡ Err (refusal_of error)) }
        ensures succeeded { has_succeeded result ≡ is_ok answered }
        ensures open { is_open self.new ≡ is_open self.old }
        ensures state { Loads result (keeper_state_of self.old) (keeper_state_of self.new) }
        ensures history { keeper_history_of self.new ≡ keeper_history_of self.old }
    {
        match answered {
            Ok(lines) => Ok(lines),
            Err(
                Error::SqliteFailure(ErrorCode::OutOfMemory)
                | Error::SqlInputError(CompileError::OutOfMemory),
            ) => Err(KeeperFault::Memory),
            Err(_) => {
                self.faults = self.faults.saturating_add(1);
                Err(KeeperFault::Failed)
            }
        }
    }

    // What a load answers to the lines that the database gave. There may be one line too many.
    fn answer_load(
        &mut self,
        found: Result<Vec<Text>, Error>,
        limit: u32,
    ) -> Result<Lines, KeeperFault>
        ensures found { IfOk found (λ lines. result ≡ (if nat_le (length lines.items) limit then Ok lines.items
            else Err KeeperFault.TooLong)) }
        ensures refused { IfErr found (λ error. result ≡ Err (refusal_of error)) }
        ensures succeeded { has_succeeded result ≡ is_ok found }
        ensures open { is_open self.new ≡ is_open self.old }
        ensures state { Loads result (keeper_state_of self.old) (keeper_state_of self.new) }
        ensures history { keeper_history_of self.new ≡ keeper_history_of self.old }
    {
        within(self.answer(found)?, limit)
    }
}

// The lines, where there are at most so many.
fn within(lines: Vec<Text>, limit: u32) -> Result<Lines, KeeperFault>
    ensures { result ≡ (if nat_le (length lines.items) limit then Ok lines.items else Err KeeperFault.TooLong) }
{
    if lines.len() > limit as usize {
        return Err(KeeperFault::TooLong);
    }
    Ok(Lines::wrap(lines))
}

// How many lines are asked for, so that one too many is seen.
fn asked(limit: u32) -> i64
    ensures { result ≡ pos (limit + 1) }
{
    i64::from(limit) + 1
}

impl<'a> Keeper for SqliteKeeper<'a> {
    ghost use Rattle.std.specs.Prelude.{◌≡◌, ◌≢◌, ◌≤◌, [], ◌∷◌, ◌++◌, length, IfOk, Err};
    ghost use Rattle.desk_io.specs.History.{Append, Load};
    ghost use Rattle.desk_keeper.specs.Keeper.{Appends, Loads, Tells, answer_of};
    ghost use Rattle.sqlite_keeper.specs.SqliteKeeper.{has_succeeded, is_open, keeper_history_of, keeper_state_of};

    ghost state = { keeper_state_of };

    ghost history = { keeper_history_of };

    fn load(&mut self, alloc: Global, limit: u32) -> Result<Lines, KeeperFault>
        ensures bound { IfOk result (λ lines. length lines ≤ limit) }
        ensures found { Tells (keeper_state_of self.old).journal limit result }
        ensures state { Loads result (keeper_state_of self.old) (keeper_state_of self.new) }
        ensures noted { keeper_history_of self.new ≡ keeper_history_of self.old ++ Load (answer_of result) ∷ [] }
        // The database is open exactly where it answered no error.
        ensures open { is_open self.new ≡ has_succeeded result }
    {
        let found = self.ask(alloc, Ask::FirstLines(asked(limit)));
        let result = self.answer_load(found, limit);
        self.history = self.history.then(&Request::Load(answer_of(&result)));
        result
    }

    fn append_all(&mut self, alloc: Global, lines: &[Text]) -> Result<(), KeeperFault>
        ensures appends { Appends lines.now result (keeper_state_of self.old) (keeper_state_of self.new) }
        ensures fits { result ≢ Err KeeperFault.TooLong }
        ensures noted { keeper_history_of self.new ≡ keeper_history_of self.old ++ Append lines.now ∷ [] }
        // The database is open exactly where it answered no error.
        ensures open { is_open self.new ≡ has_succeeded result }
    {
        self.history = self.history.then(&Request::Append(lines));
        let appended = self.ask(alloc, Ask::Append(lines));
        self.answer(appended)?;
        Ok(())
    }
}
