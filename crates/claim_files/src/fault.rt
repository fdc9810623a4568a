ghost use Rattle.std.specs.Prelude.{◌≡◌};
ghost use Rattle.claim_files.specs.Claims as spec;

use gtfs_tables::{FeedFault, Paper};

/// Why two files are no claim. Records are counted from 1 after the header; 0 is the header.
#[derive(Clone, Copy)]
pub enum ClaimFault {
    /// The file is not there.
    Missing(Paper),
    /// The file has more bytes than may be read.
    TooLong(Paper),
    /// The record is not of the form of its file.
    NotForm(Paper, u32),
    /// No memory was found.
    Memory,
}

// The record at which a file is refused; 0 where it is refused for its header.
fn refused_at(refused: &FeedFault) -> u32
    ensures { result ≡ spec.refused_at refused.now }
{
    match refused {
        FeedFault::RowTooLong(_, number)
        | FeedFault::NotUtf8(_, number, _)
        | FeedFault::EmptyField(_, number, _)
        | FeedFault::BadNumber(_, number, _)
        | FeedFault::DuplicateRow(_, number)
        | FeedFault::TooManyTrips(number) => *number,
        _ => 0,
    }
}

/// Why a file is no part of a claim, by why it is refused.
pub(crate) fn claim_fault(paper: Paper, refused: &FeedFault) -> ClaimFault
    ensures { result ≡ spec.claim_fault_of paper refused.now }
{
    match refused {
        FeedFault::Missing(_) => ClaimFault::Missing(paper),
        FeedFault::TooLong(_) => ClaimFault::TooLong(paper),
        FeedFault::Memory => ClaimFault::Memory,
        _ => ClaimFault::NotForm(paper, refused_at(refused)),
    }
}
