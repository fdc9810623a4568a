//! The journal of edits in a database of SQLite's format.
//!
//! [`SqliteKeeper`] is a `Keeper` over the file `journal.db` of a folder, table
//! `journal(seq INTEGER PRIMARY KEY, line TEXT NOT NULL)`. The file is opened at the first call, and made where it
//! is not there. Other programs then find it locked, until a call fails or the keeper is dropped. Each append is one
//! transaction.
//!
//! `blockdesk` shows a use, in `src/outer.rt`.
//!
//! It tells nothing of its journal. So the contract that the crates above use is that of every `Keeper`. A load answers no more
//! lines than the limit of the call. `Failed` comes only where the count of faults rose.
//!
//! The contracts cite `SqliteKeeper` (what it is seen as, and what it answers to an error of the database). Of `desk_keeper`
//! they cite `Keeper` (what loads and appends do to a keeper).
#![tactic(auto)]

mod database;
mod sqlite_keeper;

pub use sqlite_keeper::SqliteKeeper;
