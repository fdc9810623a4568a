ghost use Rattle.std.specs.Prelude.{◌≡◌, ◌+◌, ◌<◌, ◌++◌, ◌∷◌, [], IfOk, IfSome, OnErr, drop, length};
ghost use Rattle.planner_desk.specs.Planners.{asked_record};
ghost use Rattle.planner_desk.specs.Standing as spec;
ghost use Rattle.planner_desk.specs.Standing.{standing_at};

use crate::PlannerEdit;
use desk_io::{Memory, Text};
use std::alloc::Global;

/// A record that stands.
#[derive(Drop)]
pub(crate) struct Standing {
    pub(crate) number: u32,
    pub(crate) asked: PlannerEdit,
}

/// The record of that number with an equal edit of the same planner.
pub(crate) fn record_of(alloc: Global, number: u32, asked: &PlannerEdit) -> Result<Standing, Memory>
    ensures { IfOk result (λ copy. copy ≡ asked_record number asked.now) }
{
    Ok(Standing {
        number,
        asked: PlannerEdit {
            planner: Text::of(alloc, asked.planner.as_str())?,
            edit: asked.edit.copy(alloc)?,
        },
    })
}

/// The place of the last record of a planner.
pub(crate) fn last_place(standing: &[Standing], planner: &Text) -> Option<usize>
    ensures place { result ≡ spec.last_place planner.now standing.now }
    ensures within { IfSome result (λ n. n < length standing.now) }
{
    let mut last = None;
    for n in 0..standing.len() {
        if standing[n].asked.planner == *planner {
            last = Some(n);
        }
    }
    last
}

// Whether a record after another is of another planner and names the same trip.
fn holds(held: &Standing, later: &Standing) -> bool
    ensures { result ≡ spec.holds held.now later.now }
{
    later.asked.planner != held.asked.planner && later.asked.edit.trip() == held.asked.edit.trip()
}

/// The number of the first record after a place that is of another planner and names the trip of the record there.
pub(crate) fn holder(standing: &[Standing], place: usize) -> Option<u32>
    requires { place < length standing.now }
    ensures { result ≡ spec.holder (standing_at standing.now place) (drop (place + 1) standing.now) }
{
    for n in place + 1..standing.len() {
        if holds(&standing[place], &standing[n]) {
            return Some(standing[n].number);
        }
    }
    None
}

/// Appends a record, and its number to the numbers.
pub(crate) fn push(
    numbers: &mut Vec<u32>,
    standing: &mut Vec<Standing>,
    last: Standing,
) -> Result<(), Memory>
    ensures numbers { IfOk result (λ _. numbers.new.items ≡ numbers.old.items ++ last.number ∷ []) }
    ensures standing { IfOk result (λ _. standing.new.items ≡ standing.old.items ++ last ∷ []) }
    ensures unmoved { OnErr result (numbers.new.items ≡ numbers.old.items) }
    ensures unchanged { OnErr result (standing.new.items ≡ standing.old.items) }
{
    numbers.push(last.number)?;
    match standing.push(last) {
        Ok(()) => Ok(()),
        Err(_) => {
            numbers.pop();
            Err(Memory)
        }
    }
}
