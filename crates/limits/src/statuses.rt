ghost use Rattle.std.specs.Prelude.{◌≡◌};

use desk_run::{
    DONE, EDITS_REFUSED, FEED_REFUSED, KEEPER_FAULT, NO, NO_MEMORY, READ_FAULT, USAGE, WRITE_FAULT,
};

/// The status of each way in which a run ends.
pub struct Statuses {
    /// All is done, and no edit was refused.
    pub done: u8,
    /// An edit was refused.
    pub edits_refused: u8,
    /// The words name no command.
    pub usage: u8,
    /// A file was refused.
    pub feed_refused: u8,
    /// The answer is no.
    pub no: u8,
    /// A read failed.
    pub read_fault: u8,
    /// A write failed.
    pub write_fault: u8,
    /// The journal failed.
    pub keeper_fault: u8,
    /// No memory was found.
    pub no_memory: u8,
}

/// The statuses, in numbers.
pub fn all_statuses() -> Statuses
    ensures { result ≡ record {
      done = 0;
      edits_refused = 1;
      usage = 2;
      feed_refused = 3;
      no = 4;
      read_fault = 5;
      write_fault = 6;
      keeper_fault = 7;
      no_memory = 8;
    } }
{
    Statuses {
        done: DONE,
        edits_refused: EDITS_REFUSED,
        usage: USAGE,
        feed_refused: FEED_REFUSED,
        no: NO,
        read_fault: READ_FAULT,
        write_fault: WRITE_FAULT,
        keeper_fault: KEEPER_FAULT,
        no_memory: NO_MEMORY,
    }
}
