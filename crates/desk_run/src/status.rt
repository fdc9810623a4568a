ghost use Rattle.std.specs.Prelude.{◌≡◌};
ghost use Rattle.desk_run.specs.Outcome.{status_of};

/// All that was asked for is done.
pub const DONE: u8 = 0;

/// All is done, but that at least one edit was refused.
pub const EDITS_REFUSED: u8 = 1;

/// The words name no command, and the usage line was printed.
pub const USAGE: u8 = 2;

/// The feed is refused, and the line of its first refusal was printed.
pub const FEED_REFUSED: u8 = 3;

/// What was judged does not hold.
pub const NO: u8 = 4;

/// A read failed: nothing was written, appended or printed.
pub const READ_FAULT: u8 = 5;

/// A write failed, or standard output did.
pub const WRITE_FAULT: u8 = 6;

/// The journal could not be loaded or appended to. It is as it was.
pub const KEEPER_FAULT: u8 = 7;

/// No memory was found: nothing was appended or printed.
pub const NO_MEMORY: u8 = 8;

/// How a run ends that comes to its end.
#[derive(Clone, Copy)]
pub enum Ending {
    /// All that was asked for is done.
    Done,
    /// All is done, but that at least one edit was refused.
    EditsRefused,
    /// The feed is refused.
    FeedRefused,
    /// What was judged does not hold.
    No,
}

impl Ending {
    /// The status that the run answers.
    pub fn status(self) -> u8
        ensures { result ≡ status_of self }
    {
        match self {
            Ending::Done => DONE,
            Ending::EditsRefused => EDITS_REFUSED,
            Ending::FeedRefused => FEED_REFUSED,
            Ending::No => NO,
        }
    }
}
