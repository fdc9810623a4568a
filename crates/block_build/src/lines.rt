ghost use Rattle.std.specs.Prelude.{◌≡◌, ◌<◌, ◌++◌, [], length, slice_index_or, codes, string_bytes, IfOk, OnOk, All};
ghost use Rattle.deadhead_matrix.specs.Matrix.{walk};
ghost use Rattle.trip_model.specs.Timetable.{slot_at};
ghost use Rattle.block_build.specs.Lines as spec;
ghost use Rattle.block_build.specs.Names.{block_name};

use crate::{NamedBlocks, SlotPrices};
use deadhead_matrix::Matrix;
use desk_io::{Memory, Text};
use gtfs_tables::minute_text;
use std::alloc::Global;
use std::fmt::Write;
use trip_model::Timetable;

#[tactic(auto, unfolding(crate::specs::Lines::trip_text))]
fn push_trip(
    alloc: Global,
    text: &mut String,
    timetable: &Timetable,
    slot: u16,
) -> Result<(), Memory>
    requires { slot < length timetable.now.slots }
    ensures { OnOk result (string_bytes text.new ≡ string_bytes text.old ++ spec.trip_text (slot_at timetable.now slot)) }
{
    let trip = timetable.trip(slot);
    let departs = minute_text(alloc, trip.departs)?;
    let ends = minute_text(alloc, trip.ends)?;
    write!(
        text,
        "{} {} {}",
        timetable.name(slot),
        departs.as_str(),
        ends.as_str()
    )?;
    Ok(())
}

#[tactic(auto, unfolding(crate::specs::Lines::deadhead_text))]
fn push_deadhead(text: &mut String, minutes: Option<u32>) -> Result<(), Memory>
    ensures { OnOk result (string_bytes text.new ≡ string_bytes text.old ++ spec.deadhead_text minutes) }
{
    let Some(minutes) = minutes else {
        return Ok(())
    };
    if minutes == 0 {
        return Ok(());
    }
    write!(text, "dh {minutes}; ")?;
    Ok(())
}

// What is printed between the trips of two slots, where the second follows on the first.
fn push_joint(
    text: &mut String,
    timetable: &Timetable,
    matrix: &Matrix,
    before: u16,
    slot: u16,
) -> Result<(), Memory>
    requires before { before < length timetable.now.slots }
    requires slot { slot < length timetable.now.slots }
    requires places { length matrix.now.walks ≡ length timetable.now.places }
    ensures { OnOk result (string_bytes text.new ≡ string_bytes text.old
        ++ (codes "; " ++ spec.deadhead_text (spec.walk_between timetable.now (walk matrix.now) before slot))) }
{
    text.push_str("; ")?;
    let from = timetable.trip(before).to;
    let to = timetable.trip(slot).from;
    push_deadhead(text, matrix.minutes(from, to))
}

// The trips of a block, each but the first behind what is printed before it.
fn push_trips(
    alloc: Global,
    text: &mut String,
    timetable: &Timetable,
    matrix: &Matrix,
    block: &[u16],
) -> Result<(), Memory>
    requires slots { All (λ s. s < length timetable.now.slots) block.now }
    requires places { length matrix.now.walks ≡ length timetable.now.places }
    ensures { OnOk result (string_bytes text.new ≡ string_bytes text.old
        ++ spec.trips_text timetable.now (walk matrix.now) block.now) }
{
    for n in 0..block.len() {
        if n > 0 {
            push_joint(text, timetable, matrix, block[n - 1], block[n])?;
        }
        push_trip(alloc, text, timetable, block[n])?;
    }
    Ok(())
}

#[tactic(auto, unfolding(crate::specs::Lines::pull_out_text))]
fn push_pull_out(text: &mut String, minutes: u16) -> Result<(), Memory>
    ensures { OnOk result (string_bytes text.new ≡ string_bytes text.old ++ spec.pull_out_text minutes) }
{
    if minutes == 0 {
        return Ok(());
    }
    write!(text, "out {minutes}; ")?;
    Ok(())
}

#[tactic(auto, unfolding(crate::specs::Lines::pull_in_text))]
fn push_pull_in(text: &mut String, minutes: u16) -> Result<(), Memory>
    ensures { OnOk result (string_bytes text.new ≡ string_bytes text.old ++ spec.pull_in_text minutes) }
{
    if minutes == 0 {
        return Ok(());
    }
    write!(text, "; in {minutes}")?;
    Ok(())
}

// The line of the block of a number, counted from 0.
fn push_block(
    alloc: Global,
    text: &mut String,
    named: &NamedBlocks<'_>,
    margin: &str,
    number: usize,
) -> Result<(), Memory>
    requires { number < length named.now.blocks.now }
    ensures { OnOk result (string_bytes text.new ≡ string_bytes text.old
        ++ spec.block_line named.now.timetable.now named.now.matrix.now margin.now (block_name named.now.names.now number)
        (slice_index_or named.now.blocks.now number [])) }
{
    let timetable = named.timetable;
    let matrix = named.matrix;
    let block = named.block(number);
    let first = timetable.trip(block[0]);
    let last = timetable.trip(block[block.len() - 1]);
    write!(text, "{margin}{}: ", named.name(number))?;
    push_pull_out(text, matrix.pull_out(first.from))?;
    push_trips(alloc, text, timetable, matrix, block)?;
    push_pull_in(text, matrix.pull_in(last.to))?;
    text.push_str("\n")?;
    Ok(())
}

/// The lines of blocks as they are printed, each behind a margin. A line has the name of its block and its trips. Pull-out,
/// deadheads and pull-in are printed where they take time. Between trips between which there is no way it prints none.
pub fn block_lines(alloc: Global, named: &NamedBlocks<'_>, margin: &str) -> Result<Text, Memory>
    ensures { IfOk result (λ text. text ≡ spec.block_text named.now.timetable.now named.now.matrix.now margin.now named.now.names.now
        named.now.blocks.now) }
{
    let mut text = String::new(alloc);
    for number in 0..named.blocks.len() {
        push_block(alloc, &mut text, named, margin, number)?;
    }
    Ok(Text::wrap(text))
}

// The line of the prices of a slot, where its trip runs.
#[tactic(auto, unfolding(crate::specs::Lines::price_line))]
fn push_price(text: &mut String, prices: &SlotPrices<'_>, slot: u16) -> Result<(), Memory>
    requires { slot < length prices.now.timetable.now.slots }
    ensures { OnOk result (string_bytes text.new ≡ string_bytes text.old
        ++ spec.price_line prices.now.timetable.now prices.now.leave.now prices.now.enter.now slot) }
{
    let timetable = prices.timetable;
    if !timetable.trip(slot).live {
        return Ok(());
    }
    let name = timetable.name(slot);
    let leaving = prices.leave[usize::from(slot)];
    let entering = prices.enter[usize::from(slot)];
    writeln!(text, " price {name} {leaving} {entering}")?;
    Ok(())
}

/// The lines of prices as they are printed, one space before each. For each trip that runs, slot by slot, a line has its name,
/// the price of leaving it and that of entering it.
pub fn price_lines(alloc: Global, prices: &SlotPrices<'_>) -> Result<Text, Memory>
    ensures { IfOk result (λ text. text ≡ spec.price_text prices.now.timetable.now prices.now.leave.now prices.now.enter.now) }
{
    let mut text = String::new(alloc);
    for slot in 0..prices.timetable.slots() {
        push_price(&mut text, prices, slot)?;
    }
    Ok(Text::wrap(text))
}
