ghost use Rattle.std.specs.FinMap.{empty, insert};
ghost use Rattle.std.specs.Prelude.{◌≡◌, ◌≤◌, [], IfOk, OnOk};
ghost use Rattle.desk_io.specs.Calls.{calls_at_first};
ghost use Rattle.desk_io.specs.MemoryShelf.{files_of, reads_of, writes_of};
ghost use Rattle.feed_sample.specs.Sample.{feed_files, sample_files};
ghost use Rattle.gtfs_tables.specs.Papers.{file_name_of};

use crate::texts::{deadheads_text, stop_times_text, trips_text};
use desk_io::{Memory, MemoryShelf};
use gtfs_tables::Paper;
use std::alloc::Global;

/// The most trips that a sample has: as many as a timetable may have.
pub const MOST_SAMPLE: u32 = 4096;

// Lays a file of the feed, in place of one that was there.
fn lay(alloc: Global, shelf: &mut MemoryShelf, paper: Paper, text: &str) -> Result<(), Memory>
    ensures files { OnOk result (files_of shelf.new ≡ insert (files_of shelf.old) (file_name_of paper) text.now) }
    ensures reads { reads_of shelf.new ≡ reads_of shelf.old }
    ensures writes { writes_of shelf.new ≡ writes_of shelf.old }
{
    shelf.lay(alloc, paper.file_name(), text.as_bytes())
}

// Lays the files of a sample but for its script.
fn lay_feed(alloc: Global, shelf: &mut MemoryShelf, trips: u32) -> Result<(), Memory>
    requires trips { trips ≤ MOST_SAMPLE }
    requires empty { files_of shelf.old ≡ empty }
    ensures files { OnOk result (files_of shelf.new ≡ feed_files trips) }
    ensures reads { reads_of shelf.new ≡ reads_of shelf.old }
    ensures writes { writes_of shelf.new ≡ writes_of shelf.old }
{
    let text = trips_text(alloc, trips)?;
    lay(alloc, shelf, Paper::Trips, &text)?;
    let text = stop_times_text(alloc, trips)?;
    lay(alloc, shelf, Paper::StopTimes, &text)?;
    let text = deadheads_text(alloc)?;
    lay(alloc, shelf, Paper::Deadheads, &text)
}

/// A shelf in memory with the files of the sample of so many trips, and no others. None of its calls fails.
pub fn sample_shelf(alloc: Global, trips: u32) -> Result<MemoryShelf, Memory>
    requires { trips ≤ MOST_SAMPLE }
    ensures files { IfOk result (λ shelf. files_of shelf ≡ sample_files trips) }
    ensures reads { IfOk result (λ shelf. reads_of shelf ≡ calls_at_first []) }
    ensures writes { IfOk result (λ shelf. writes_of shelf ≡ calls_at_first []) }
{
    let mut shelf = MemoryShelf::open(alloc, Vec::new(alloc), Vec::new(alloc));
    lay_feed(alloc, &mut shelf, trips)?;
    if trips > 0 {
        lay(alloc, &mut shelf, Paper::Edits, "cancel,S0\nundo\n")?;
    }
    Ok(shelf)
}
