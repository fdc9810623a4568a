ghost use Rattle.std.specs.Prelude.{◌≡◌, ◌≢◌, ℕ, ◌<◌, ◌≤◌, [], ◌∷◌, ◌++◌, length, slice_index_or, slice_set, All, Err, IfOk};
ghost use Rattle.gtfs_tables.specs.Reading.{Gives};
ghost use Rattle.trip_model.specs.declared.limits.TheConstants.{MOST_PLACES};
ghost use Rattle.assignment_model.specs.declared.limits.TheConstants.{MOST_DEADHEAD};
ghost use Rattle.gtfs_tables.specs.Papers.{IsWithinLimit};
ghost use Rattle.deadhead_matrix.specs.Deadheads.{deadheads_of, has_entry, with_entries, with_entry};
ghost use Rattle.deadhead_matrix.specs.Left.{timetable_left};
ghost use Rattle.deadhead_matrix.specs.Named.{HasGained, IsNamed};
ghost use Rattle.deadhead_matrix.specs.Rows.{way, AreRows, AreLeastRows};
ghost use Rattle.deadhead_matrix.specs.Terminals.{AreTerminalWalks};

use crate::distances::Distances;
use crate::entry::Entry;
use crate::laws::terminal_law;
use crate::read::read_deadheads;
use crate::through::least_rows;
use crate::ways::Ways;
use desk_io::{Found, Memory};
use gtfs_tables::{FeedFault, Paper};
use std::alloc::Global;
use std::marker::Model;
use trip_model::{MOST_PLACES, Timetable};

/// The entries of `deadheads.csv` in the order of its records, at most one from each place to each. One is found without going
/// over the others.
pub struct Deadheads {
    entries: Vec<Entry>,
    ways: Vec<Ways>,
}

impl Drop for Deadheads {
    fn drop(self) {
        let Self {
            entries: _,
            ways: _,
        } = self;
    }
}

impl Model for Deadheads {
    ghost use Rattle.std.specs.Prelude.{List};
    ghost use Rattle.deadhead_matrix.specs.declared.entry.Entry.{Entry};
    ghost use Rattle.deadhead_matrix.specs.Rows.{AreTold};

    ghost Value = { List Entry };

    ghost view = { λ d. d.entries.items };

    ghost invariant = { λ d. AreTold d.entries.items d.ways.items };
}

// Between so many places no entry.
fn no_ways(alloc: Global, places: usize) -> Result<Vec<Ways>, Memory>
    ensures rows { IfOk result (λ ways. AreRows places ways.items) }
    ensures none { IfOk result (λ ways. (a b : ℕ) → way ways.items a b ≡ 0) }
{
    let mut ways: Vec<Ways> = Vec::new(alloc);
    for _place in 0..places {
        let row = Ways::none(alloc, places)?;
        ways.push(row)?;
    }
    Ok(ways)
}

// Enters the minutes from one place to another.
fn set_way(ways: &mut [Ways], from: usize, to: usize, minutes: u16)
    requires from { from < length ways.old }
    requires to { to < length (slice_index_or ways.old from []) }
    ensures { ways.new ≡ slice_set ways.old from (slice_set (slice_index_or ways.old from []) to minutes) }
{
    let row = &mut ways[from];
    row.set(to, minutes);
}

impl Deadheads {
    /// No entries.
    pub fn none(alloc: Global) -> Result<Deadheads, Memory>
        ensures { IfOk result (λ deadheads. deadheads ≡ []) }
    {
        Ok(Deadheads {
            entries: Vec::new(alloc),
            ways: no_ways(alloc, usize::from(MOST_PLACES))?,
        })
    }

    /// Whether an entry leads from one place to the other.
    pub(crate) fn has(&self, from: u16, to: u16) -> bool
        requires from { from < MOST_PLACES }
        requires to { to < MOST_PLACES }
        ensures { result ≡ has_entry self.now from to }
    {
        let row = &self.ways[usize::from(from)];
        row.minutes()[usize::from(to)] != 0
    }

    // Appends an entry of a record, where no earlier one leads from the one place to the other.
    fn add(&mut self, number: u32, entry: Entry) -> Result<(), FeedFault>
        requires from { entry.from < MOST_PLACES }
        requires to { entry.to < MOST_PLACES }
        requires lasting { 1 ≤ entry.minutes }
        requires short { entry.minutes ≤ MOST_DEADHEAD }
        ensures { Gives (λ _. self.new) result (with_entry number self.old entry) }
    {
        if self.has(entry.from, entry.to) {
            return Err(FeedFault::DuplicateRow(Paper::Deadheads, number));
        }
        self.entries.push(entry)?;
        set_way(
            &mut self.ways,
            usize::from(entry.from),
            usize::from(entry.to),
            entry.minutes,
        );
        Ok(())
    }

    /// Appends the entries of a record, from each of these places to the one beside it.
    pub(crate) fn add_record(
        &mut self,
        number: u32,
        from: &[u16],
        to: &[u16],
        minutes: u16,
    ) -> Result<(), FeedFault>
        requires from { All (λ place. place < MOST_PLACES) from.now }
        requires to { All (λ place. place < MOST_PLACES) to.now }
        requires count { length from.now ≡ length to.now }
        requires lasting { 1 ≤ minutes }
        requires short { minutes ≤ MOST_DEADHEAD }
        ensures { Gives (λ _. self.new) result (with_entries number minutes self.old from.now to.now) }
    {
        for n in 0..from.len() {
            let entry = Entry {
                from: from[n],
                to: to[n],
                minutes,
            };
            self.add(number, entry)?;
        }
        Ok(())
    }

    /// How far each of the first places is from each.
    pub(crate) fn distances(&self, alloc: Global, places: u16) -> Result<Vec<Distances>, Memory>
        requires { places ≤ MOST_PLACES }
        ensures count { IfOk result (λ rows. length rows.items ≡ places) }
        ensures least { IfOk result (λ rows. AreLeastRows self.now rows.items) }
    {
        least_rows(alloc, &self.entries, &self.ways, places)
    }

    /// A copy of the entries.
    pub(crate) fn entries(&self, alloc: Global) -> Result<Vec<Entry>, Memory>
        ensures { IfOk result (λ entries. entries.items ≡ self.now) }
    {
        let mut entries = Vec::new(alloc);
        entries.extend_from_slice(&self.entries)?;
        Ok(entries)
    }

    /// The entries of what was found of `deadheads.csv`; a missing file has no records. The places that a record names are
    /// added to the timetable where they are new, without layover, the first before the second. In a timetable of posts a
    /// record names terminals. Its places and entries are those for each class of the posts, in the order in which the classes
    /// are first met. So no entry leads from one class to another. The file is refused as a whole at the first record that is
    /// not of its form. A record's fields are judged before its places. Then the places of the records before it have been
    /// added, and its own as far as they were met. `FeedFault::Memory` may come at any time, after any of these places.
    pub fn read(
        alloc: Global,
        deadheads: &Found,
        timetable: &mut Timetable,
    ) -> Result<Deadheads, FeedFault>
        requires { IsWithinLimit deadheads.now }
        ensures gives { Gives (λ read. (timetable.new, read)) result (deadheads_of deadheads.now timetable.old) }
        ensures left { result ≢ Err FeedFault.Memory → timetable.new ≡ timetable_left deadheads.now timetable.old }
        // Also after lack of memory: the timetable is as it was, but for places at the end of its list that records name.
        ensures gained { HasGained (IsNamed deadheads.now timetable.old) timetable.old timetable.new }
        ensures walks { IfOk result (AreTerminalWalks deadheads.now timetable.new.places) }
    {
        terminal_law();
        // Their clauses say that the timetable is valid, before and after.
        let _before = timetable.places();
        let read = read_deadheads(alloc, deadheads, timetable);
        let _after = timetable.places();
        read
    }
}
