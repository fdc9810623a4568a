ghost use Rattle.std.specs.Prelude.{◌≡◌, ◌+◌, ◌≤◌, [], length, All, IfOk};
ghost use Rattle.trip_model.specs.Blocking.{IsBlocking};
ghost use Rattle.deadhead_matrix.specs.Fitting.{network_of};
ghost use Rattle.price_check.specs.Claim.{Runs};
ghost use Rattle.block_audit.specs.Misfits.{misfits_in};
ghost use Rattle.block_audit.specs.Stated.{AreNames, slots_by};
ghost use Rattle.desk_feed.specs.Feed.{HasPapers};
ghost use Rattle.desk_feed.specs.Schedule.{most_steps};
ghost use Rattle.desk_run.specs.Outside.{outside};
ghost use Rattle.desk_run.specs.Performs.{Performs};
ghost use Rattle.audit_command.specs.Audit.{IsCosted, JudgesStated, audit_asked, trips_table};
ghost use Rattle.audit_command.specs.Auditable.{IsAuditable, Judges};

use crate::judging::bad_name;
use crate::lines::{costs_text, misfits_text};
use block_audit::laws::blocking_law;
use block_audit::{Stated, misfits, stated_blocks, stated_cost};
use block_build::empty_minutes;
use deadhead_matrix::Matrix;
use desk_feed::{
    Edited, FeedCommand, OnFeed, Said, after_script, matrix_of, putting_after, refuse,
};
use desk_io::{Memory, Shelf, Sink, Steps, Text};
use desk_keeper::Keeper;
use desk_run::{Ending, Outcome, Read, perform};
use desk_settings::{Settings, chosen_in};
use feed_schedule::schedule_of;
use gtfs_tables::{Column, FeedFault, Paper, Table, table_in};
use std::alloc::Global;
use std::sync::ledger::Ledger;
use trip_model::Timetable;

// The table of the trips and which of its records are selected, or what is done where its blocks may not be judged.
#[derive(Drop)]
enum Auditable {
    Trips(Table, Vec<bool>),
    Refused(Outcome<'static>),
}

// The trips of what was read, where the `block_id` of each selected record is UTF-8.
fn read_trips(alloc: Global, settings: &Settings, read: &Read) -> Result<Auditable, Memory>
    requires { HasPapers read.now.pages }
    ensures { IfOk result (IsAuditable settings.now (trips_table read.now)) }
{
    let trips = match table_in(alloc, Paper::Trips, read.found(Paper::Trips)) {
        Ok(trips) => trips,
        Err(FeedFault::Memory) => return Err(Memory),
        Err(fault) => return Ok(Auditable::Refused(refuse(alloc, &fault)?)),
    };
    let chosen = chosen_in(alloc, settings, &trips)?;
    if let Some(before) = bad_name(&trips, &chosen) {
        let fault = FeedFault::NotUtf8(Paper::Trips, before + 1, Column::BlockId);
        return Ok(Auditable::Refused(refuse(alloc, &fault)?));
    }
    Ok(Auditable::Trips(trips, chosen))
}

// What is put of stated blocks, behind the lines of refused records.
fn judged<L: Ledger>(
    alloc: Global,
    refused: &Text,
    ending: Ending,
    timetable: &Timetable,
    matrix: &Matrix,
    stated: &Stated,
    steps: &mut Steps<L>,
) -> Result<Outcome<'static>, Memory>
    requires places { length timetable.now.places ≡ length matrix.now.walks }
    requires runs { All (All (Runs timetable.now)) (slots_by stated.now) }
    requires blocking { misfits_in timetable.now matrix.now stated.now ≡ []
        → IsBlocking (network_of timetable.now matrix.now) (slots_by stated.now) }
    ensures judged { IfOk result (JudgesStated refused.now ending timetable.now matrix.now stated.now
        (misfits_in timetable.now matrix.now stated.now)) }
    ensures counted { steps.new ≤ steps.old + most_steps (length timetable.now.slots) }
{
    let misfits = misfits(alloc, timetable, matrix, stated)?;
    if !misfits.is_empty() {
        let text = misfits_text(alloc, timetable, stated, &misfits)?;
        return putting_after(alloc, refused, &text, Ending::No);
    }
    // Its clause says that there are no more blocks than trips.
    let _stated = stated.len();
    let schedule = schedule_of(alloc, timetable, matrix, steps)?;
    let blocks = &schedule.blocks;
    let count = blocks.len();
    let minutes = empty_minutes(timetable, matrix, blocks);
    let cost = stated_cost(timetable, matrix, stated);
    let text = costs_text(alloc, cost, (count as u32, minutes))?;
    putting_after(alloc, refused, &text, ending)
}

// What is put of the blocks that the selected trips state of a timetable after its script.
fn audited<L: Ledger>(
    alloc: Global,
    edited: &Edited,
    matrix: &Matrix,
    trips: &Table,
    chosen: &[bool],
    steps: &mut Steps<L>,
) -> Result<Outcome<'static>, Memory>
    requires places { length edited.now.script.timetable.places ≡ length matrix.now.walks }
    requires chosen { length chosen.now ≡ length trips.now.rows }
    requires names { AreNames trips.now chosen.now }
    ensures judged { IfOk result (Judges edited.now matrix.now trips.now chosen.now) }
    ensures counted { steps.new ≤ steps.old + most_steps (length edited.now.script.timetable.slots) }
{
    blocking_law();
    let timetable = edited.script.timetable();
    let stated = stated_blocks(alloc, trips, timetable, chosen)?;
    judged(
        alloc,
        &edited.refused,
        edited.ending,
        timetable,
        matrix,
        &stated,
        steps,
    )
}

#[derive(Drop)]
struct AuditFeed;

impl FeedCommand for AuditFeed {
    ghost use Rattle.audit_command.specs.Audit.{audit_does};

    ghost asks = { λ _. audit_does };

    fn outcome<'a, L: Ledger>(
        &self,
        said: Said<'a, '_>,
        steps: &mut Steps<L>,
    ) -> Result<Outcome<'a>, Memory> {
        let (trips, chosen) = match read_trips(said.alloc, said.settings, said.read)? {
            Auditable::Refused(outcome) => return Ok(outcome),
            Auditable::Trips(trips, chosen) => (trips, chosen),
        };
        let alloc = said.alloc;
        let pulls = said.pulls;
        let rules = said.rules;
        let matrix = matrix_of(alloc, &said.timetable, said.deadheads, pulls, rules)?;
        let edited = after_script(alloc, said.timetable, said.lines)?;
        audited(alloc, &edited, &matrix, &trips, &chosen, steps)
    }
}

/// The command `audit`: whether vehicles can make the blocks that the feed states by `block_id`. Where they cannot, it puts the
/// pairs of trips that do not fit. Where they can, it puts by how much these blocks are above least ones. It answers the
/// status.
#[tactic(auto, unfolding(crate::specs::Audit::audit_asked))]
pub fn run_audit<S: Shelf, O: Sink, K: Keeper, L: Ledger>(
    alloc: Global,
    shelf: &mut S,
    out: &mut O,
    keeper: &mut K,
    steps: &mut Steps<L>,
) -> u8
    ensures { let at = outside S.state S.history O.state O.history K.state K.history in
        Performs audit_asked (at shelf.old out.old keeper.old) (at shelf.new out.new keeper.new) result steps.old steps.new }
{
    perform(&OnFeed::of(AuditFeed), alloc, shelf, out, keeper, steps)
}
