ghost use Rattle.std.specs.Prelude.{◌≡◌, ◌≢◌, ℕ, ◌+◌, ◌<◌, ◌≤◌, List, [], length, slice_index_or, IfOk, OnOk};
ghost use Rattle.trip_model.specs.declared.limits.TheConstants.{MOST_PLACES};
ghost use Rattle.assignment_model.specs.declared.limits.TheConstants.{MOST_DEADHEAD};
ghost use Rattle.deadhead_matrix.specs.declared.entry.Entry.{Entry};
ghost use Rattle.deadhead_matrix.specs.Rows.{far, dist_at, between, way_to, AreShort, AreAmong, IsFirstRow, AreFirstRows};
ghost use Rattle.deadhead_matrix.specs.Rows.{AreDistances, AreThrough, AreNearer, IsTurn, AreTold, AreLeastRows};

use crate::distances::{Distances, FAR};
use crate::entry::Entry;
use crate::ways::Ways;
use desk_io::Memory;
use std::alloc::Global;

// How many of the first places the entries lead between; no fewer than these.
fn places_among(entries: &[Entry], places: u16) -> u16
    requires among { AreAmong MOST_PLACES entries.now }
    requires few { places ≤ MOST_PLACES }
    ensures least { places ≤ result }
    ensures few { result ≤ MOST_PLACES }
    ensures among { AreAmong result entries.now }
{
    let mut count = places;
    for n in 0..entries.len() {
        let entry = entries[n];
        count = count.max(entry.from + 1).max(entry.to + 1);
    }
    count
}

// How far a place is by the minutes of the entry to it; 0 minutes are no entry.
fn along(minutes: u16) -> u32
    ensures none { minutes ≡ 0 → result ≡ far }
    ensures some { minutes ≢ 0 → result ≡ minutes }
{
    if minutes == 0 {
        FAR
    } else {
        u32::from(minutes)
    }
}

// How far the places are from one along no more than one entry.
fn first_row(alloc: Global, ways: &[u16], start: usize) -> Result<Distances, Memory>
    requires start { start < length ways.now }
    requires short { (b : ℕ) → way_to ways.now b ≤ MOST_DEADHEAD }
    ensures { IfOk result (λ row. IsFirstRow start ways.now row) }
{
    let mut minutes = vec![in alloc; FAR; ways.len()]?;
    for to in 0..ways.len() {
        minutes[to] = along(ways[to]);
    }
    minutes[start] = 0;
    Ok(Distances::of(minutes))
}

// The same from each of the first places.
fn first_rows(alloc: Global, ways: &[Ways], places: usize) -> Result<Vec<Distances>, Memory>
    requires rows { length ways.now ≡ MOST_PLACES }
    requires columns { (a : ℕ) → a < MOST_PLACES → length (slice_index_or ways.now a []) ≡ MOST_PLACES }
    requires short { AreShort ways.now }
    requires few { places ≤ MOST_PLACES }
    ensures { IfOk result (λ rows. AreFirstRows places ways.now rows.items) }
{
    let mut rows: Vec<Distances> = Vec::new(alloc);
    for start in 0..places {
        let row = first_row(alloc, ways[start].minutes(), start)?;
        rows.push(row)?;
    }
    Ok(rows)
}

// Leads to one place through another, which is so far and has this row. A branch would take longer.
fn lead_to(dist: &mut [u32], from: u32, row: &[u32], to: usize)
    requires len { length row.now ≡ length dist.old }
    requires from { from ≤ far }
    requires low { (j : ℕ) → dist_at row.now j ≤ far }
    requires to { to < length dist.old }
    ensures { (before : List ℕ) → AreNearer row.now from to before dist.old → AreNearer row.now from (to + 1) before dist.new }
{
    dist[to] = dist[to].min(from + row[to]);
}

/// Leads to each place through another, which is so far and has this row.
pub(crate) fn lead_through(dist: &mut [u32], from: u32, row: &[u32])
    requires len { length row.now ≡ length dist.old }
    requires from { from ≤ far }
    requires low { (j : ℕ) → dist_at row.now j ≤ far }
    ensures { AreNearer row.now from (length dist.old) dist.old dist.new }
{
    for to in 0..dist.len() {
        lead_to(dist, from, row, to);
    }
}

// The turn of one place in the row of another. A row from which it is not reached stays as it is.
fn turn_in(rows: &mut [Distances], via: usize, row: &[u32], start: usize)
    requires start { start < length rows.old }
    requires via { via < length row.now }
    requires columns { length (slice_index_or rows.old start []) ≡ length row.now }
    requires far { (b : ℕ) → between rows.old start b ≤ far }
    requires low { (j : ℕ) → dist_at row.now j ≤ far }
    ensures { (before : List (List ℕ)) → IsTurn row.now via start before rows.old → IsTurn row.now via (start + 1) before rows.new }
{
    let dist = &mut rows[start];
    let from = dist.minutes()[via];
    if from < FAR {
        dist.lead_through(from, row);
    }
}

// The turn of one place, which has this row, in all rows.
fn turn(rows: &mut [Distances], via: usize, row: &[u32])
    requires via { via < length row.now }
    requires columns { (a : ℕ) → a < length rows.old → length (slice_index_or rows.old a []) ≡ length row.now }
    requires far { (a b : ℕ) → between rows.old a b ≤ far }
    requires low { (j : ℕ) → dist_at row.now j ≤ far }
    ensures { IsTurn row.now via (length rows.old) rows.old rows.new }
{
    for start in 0..rows.len() {
        turn_in(rows, via, row, start);
    }
}

// A turn of each of the first places.
fn turns(alloc: Global, rows: &mut [Distances]) -> Result<(), Memory>
    requires few { length rows.old ≤ MOST_PLACES }
    requires distances { AreDistances (length rows.old) rows.old }
    ensures len { length rows.new ≡ length rows.old }
    ensures distances { AreDistances (length rows.old) rows.new }
    ensures through { OnOk result ((entries : List Entry) → AreThrough entries 0 rows.old → AreThrough entries (length rows.old) rows.new) }
{
    for via in 0..rows.len() {
        let row = rows[via].copy(alloc)?;
        turn(rows, via, &row);
    }
    Ok(())
}

/// How far each of the first places is from each.
pub(crate) fn least_rows(
    alloc: Global,
    entries: &[Entry],
    ways: &[Ways],
    places: u16,
) -> Result<Vec<Distances>, Memory>
    requires told { AreTold entries.now ways.now }
    requires few { places ≤ MOST_PLACES }
    ensures count { IfOk result (λ rows. length rows.items ≡ places) }
    ensures least { IfOk result (λ rows. AreLeastRows entries.now rows.items) }
{
    let count = usize::from(places_among(entries, places));
    let mut rows = first_rows(alloc, ways, count)?;
    turns(alloc, &mut rows)?;
    rows.truncate(usize::from(places));
    Ok(rows)
}
