ghost use Rattle.std.specs.Prelude.{◌≡◌, ◌<◌, ◌++◌, [], ◌∷◌, length, slice_index_or, IfOk, IfSome, IsUtf8, OnOk};
ghost use Rattle.gtfs_tables.specs.Writing.{record_text, records_text};
ghost use Rattle.trip_model.specs.Blocking.{IsBlocking};
ghost use Rattle.trip_model.specs.Plain.{IsMove};
ghost use Rattle.deadhead_matrix.specs.Fitting.{network_of};
ghost use Rattle.block_build.specs.Names.{block_name};
ghost use Rattle.joined_deficits.specs.Boards as spec;

use crate::legs::{Leg, legs_of};
use block_build::NamedBlocks;
use desk_io::{Memory, Text};
use gtfs_tables::laws::written_text_law;
use gtfs_tables::{RecordWriter, minute_text};
use std::alloc::Global;
use trip_model::Timetable;

// Appends a record of seven texts. What is text stays so.
fn push_record(
    records: &mut RecordWriter,
    block: &str,
    kind: &str,
    trip: &str,
    from: &str,
    leaves: &str,
    to: &str,
    arrives: &str,
) -> Result<(), Memory>
    ensures written { OnOk result (records.new ≡ records.old
        ++ record_text (block.now ∷ kind.now ∷ trip.now ∷ from.now ∷ leaves.now ∷ to.now ∷ arrives.now ∷ [])) }
    ensures text { OnOk result (IsUtf8 records.old → IsUtf8 records.new) }
{
    written_text_law();
    records.push(&[
        block.as_bytes(),
        kind.as_bytes(),
        trip.as_bytes(),
        from.as_bytes(),
        leaves.as_bytes(),
        to.as_bytes(),
        arrives.as_bytes(),
    ])
}

// What the vehicle does on a leg.
fn kind(leg: &Leg) -> &'static str
    ensures { result.now ≡ spec.kind_of leg.now.slot }
{
    match leg.slot {
        Some(_) => "trip",
        None => "dh",
    }
}

// The name of the trip of a leg; empty where the vehicle runs empty.
fn trip<'a>(timetable: &'a Timetable, leg: &Leg) -> &'a str
    requires { IfSome leg.now.slot (λ s. s < length timetable.now.slots) }
    ensures { result.now ≡ spec.trip_of timetable.now leg.now.slot }
{
    match leg.slot {
        Some(slot) => timetable.name(slot),
        None => "",
    }
}

// The record of a leg of the block of that name.
fn push_leg(
    alloc: Global,
    records: &mut RecordWriter,
    timetable: &Timetable,
    name: &str,
    leg: &Leg,
) -> Result<(), Memory>
    requires slot { IfSome leg.now.slot (λ s. s < length timetable.now.slots) }
    requires way { IsMove (length timetable.now.places) leg.now.way }
    ensures written { OnOk result (records.new ≡ records.old ++ record_text (spec.board_record timetable.now name.now leg.now)) }
    ensures text { OnOk result (IsUtf8 records.old → IsUtf8 records.new) }
{
    let way = leg.way;
    let leaves = minute_text(alloc, way.leaves)?;
    let arrives = minute_text(alloc, way.arrives)?;
    push_record(
        records,
        name,
        kind(leg),
        trip(timetable, leg),
        timetable.place_name(way.from),
        leaves.as_str(),
        timetable.place_name(way.to),
        arrives.as_str(),
    )
}

// The records of the block of a number, counted from 0, leg by leg.
fn push_board(
    alloc: Global,
    records: &mut RecordWriter,
    named: &NamedBlocks<'_>,
    number: usize,
) -> Result<(), Memory>
    requires blocking { IsBlocking (network_of named.now.timetable.now named.now.matrix.now) named.now.blocks.now }
    requires number { number < length named.now.blocks.now }
    ensures written { OnOk result (records.new ≡ records.old
        ++ records_text (spec.board_of_block named.now.timetable.now named.now.matrix.now (block_name named.now.names.now number)
        (slice_index_or named.now.blocks.now number []))) }
    ensures text { OnOk result (IsUtf8 records.old → IsUtf8 records.new) }
{
    let block = named.block(number);
    let name = named.name(number);
    let legs = legs_of(alloc, named.timetable, named.matrix, block)?;
    for leg in &legs {
        push_leg(alloc, records, named.timetable, name, leg)?;
    }
    Ok(())
}

/// The text of `boards.csv`, a record for each joined move, block by block. It has the name of its block, `trip` or `dh`, and
/// the name of the trip, which is empty for a deadhead. Then come the place and the minute at which the vehicle leaves and
/// arrives.
pub fn boards_text(alloc: Global, named: &NamedBlocks<'_>) -> Result<Text, Memory>
    requires { IsBlocking (network_of named.now.timetable.now named.now.matrix.now) named.now.blocks.now }
    ensures { IfOk result (λ text. text ≡ spec.boards_text named.now.timetable.now named.now.matrix.now named.now.names.now
        named.now.blocks.now) }
{
    let mut records = RecordWriter::new(alloc);
    push_record(
        &mut records,
        "block_id",
        "kind",
        "trip_id",
        "from",
        "leaves",
        "to",
        "arrives",
    )?;
    for number in 0..named.blocks.len() {
        push_board(alloc, &mut records, named, number)?;
    }
    records.into_text()
}
