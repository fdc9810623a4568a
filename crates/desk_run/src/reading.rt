ghost use Rattle.std.specs.Prelude.{◌≡◌, true, [], ◌∷◌, ◌++◌, IfOk, OnErr};
ghost use Rattle.std.specs.Result.{result_ok};
ghost use Rattle.desk_io.specs.History as history;
ghost use Rattle.desk_io.specs.Shelf.{Tells};
ghost use Rattle.gtfs_tables.specs.Papers.{file_name_of, IsWithinLimit};
ghost use Rattle.gtfs_tables.specs.declared.paper.TheConstants.{MOST_BYTES};
ghost use Rattle.desk_run.specs.Order.{StopsAtPaper, load_of, reads_of};
ghost use Rattle.desk_run.specs.Reading.{AreRead, IsAmong, IsLoaded, LoadsJournal, ReadsPapers, found_of, papers_of};

use crate::RunFault;
use desk_io::{Found, Shelf, ShelfFault};
use desk_keeper::{Keeper, KeeperFault, Lines};
use gtfs_tables::{MOST_BYTES, MOST_RECORDS, Paper};
use std::alloc::Global;
use std::marker::Model;

/// A paper, and what was found of its file.
#[derive(Drop)]
pub struct Page {
    pub paper: Paper,
    pub found: Found,
}

/// What was loaded of the journal.
#[derive(Drop)]
pub enum Loaded {
    /// The command asks for no journal.
    Unasked,
    /// The whole journal.
    Lines(Lines),
    /// The journal has more lines than it may have.
    TooLong,
}

/// What a command has read: the papers that it asks for, in their order, and the journal. No paper is longer than a file
/// may be.
pub struct Read {
    pub(crate) pages: Vec<Page>,
    pub(crate) journal: Loaded,
}

impl Drop for Read {
    fn drop(self) {
        let Self {
            pages: _,
            journal: _,
        } = self;
    }
}

impl Model for Read {
    ghost use Rattle.std.specs.Prelude.{All};
    ghost use Rattle.gtfs_tables.specs.Papers.{IsWithinLimit};
    ghost use Rattle.desk_run.specs.Reading.{ReadView};

    ghost Value = { ReadView };

    ghost view = { λ r. record { pages = r.pages.items; journal = r.journal } };

    ghost invariant = { λ r. All (λ page. IsWithinLimit page.found) r.pages.items };
}

impl Read {
    ghost use Rattle.std.specs.Prelude.{IfOk};
    ghost use Rattle.desk_run.specs.Reading.{AreRead, ReadsPapers};
    ghost use Rattle.desk_run.specs.declared.reading.Loaded.TheVariants as loaded;

    /// What a shelf has of papers, one after the other, and no journal. The first read that fails ends it.
    pub fn of_papers<S: Shelf>(
        alloc: Global,
        shelf: &mut S,
        papers: &[Paper],
    ) -> Result<Read, RunFault>
        ensures read { IfOk result (λ read. AreRead (S.state shelf.old).files papers.now read.pages) }
        ensures journal { IfOk result (λ read. read.journal ≡ loaded.Unasked) }
        ensures state { ReadsPapers result (S.state shelf.old) (S.state shelf.new) }
    {
        let pages = read_papers(alloc, shelf, papers)?;
        Ok(Read {
            pages,
            journal: Loaded::Unasked,
        })
    }

    /// What was found of a paper, which has to be one of those that were read.
    pub fn found(&self, paper: Paper) -> &Found
        requires { IsAmong (papers_of self.now.pages) paper }
        ensures found { result.now ≡ found_of self.now.pages paper }
        ensures within { IsWithinLimit result.now }
    {
        for page in &self.pages {
            if paper.file_name() == page.paper.file_name() {
                return &page.found;
            }
        }
        unreachable!()
    }

    /// What was loaded of the journal.
    pub fn journal(&self) -> &Loaded
        ensures { result.now ≡ self.now.journal }
    {
        &self.journal
    }
}

// What the shelf has of a paper.
fn read_paper<S: Shelf>(alloc: Global, shelf: &mut S, paper: Paper) -> Result<Found, RunFault>
    ensures within { IfOk result IsWithinLimit }
    ensures told { IfOk result (Tells (S.state shelf.old).files (file_name_of paper) MOST_BYTES) }
    ensures state { ReadsPapers result (S.state shelf.old) (S.state shelf.new) }
    ensures noted { S.history shelf.new ≡ S.history shelf.old ++ history.Read (file_name_of paper) (result_ok result) ∷ [] }
{
    match shelf.read(alloc, paper.file_name(), MOST_BYTES) {
        Ok(found) => Ok(found),
        Err(ShelfFault::Failed) => Err(RunFault::Read),
        Err(ShelfFault::Memory) => Err(RunFault::Memory),
    }
}

/// Reads the papers, one after the other. The first read that fails ends it.
pub(crate) fn read_papers<S: Shelf>(
    alloc: Global,
    shelf: &mut S,
    papers: &[Paper],
) -> Result<Vec<Page>, RunFault>
    ensures read { IfOk result (λ pages. AreRead (S.state shelf.old).files papers.now pages.items) }
    ensures state { ReadsPapers result (S.state shelf.old) (S.state shelf.new) }
    ensures come { IfOk result (λ pages. S.history shelf.new ≡ S.history shelf.old ++ reads_of pages.items) }
    ensures stops { OnErr result (StopsAtPaper papers.now (S.history shelf.old) (S.history shelf.new)) }
{
    // The memory for all pages is taken first, so that it is not wanted once a paper was read.
    let mut pages = match Vec::with_capacity(alloc, papers.len()) {
        Ok(pages) => pages,
        Err(_) => return Err(RunFault::Memory),
    };
    for paper in papers {
        let found = read_paper(alloc, shelf, *paper)?;
        let page = Page {
            paper: *paper,
            found,
        };
        pages.push_reserved(page);
    }
    Ok(pages)
}

/// Loads the journal, where it is asked for.
pub(crate) fn load<K: Keeper>(
    alloc: Global,
    keeper: &mut K,
    keeps: bool,
) -> Result<Loaded, RunFault>
    ensures loaded { IfOk result (IsLoaded keeps (K.state keeper.old).journal) }
    ensures state { LoadsJournal keeps result (K.state keeper.old) (K.state keeper.new) }
    ensures come { IfOk result (λ journal. K.history keeper.new ≡ K.history keeper.old ++ load_of journal) }
    ensures refused { OnErr result ((keeps ≡ true) × (K.history keeper.new ≡ K.history keeper.old ++ history.Load history.Refused ∷ [])) }
{
    if !keeps {
        return Ok(Loaded::Unasked);
    }
    match keeper.load(alloc, MOST_RECORDS) {
        Ok(lines) => Ok(Loaded::Lines(lines)),
        Err(KeeperFault::TooLong) => Ok(Loaded::TooLong),
        Err(KeeperFault::Failed) => Err(RunFault::Keeper),
        Err(KeeperFault::Memory) => Err(RunFault::Memory),
    }
}
