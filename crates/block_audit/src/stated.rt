ghost use Rattle.std.specs.Prelude.{◌≡◌, ◌<◌, ◌≤◌, length, All, IfOk, filter};
ghost use Rattle.trip_model.specs.declared.limits.TheConstants.{MOST_SLOTS};
ghost use Rattle.price_check.specs.Claim.{Runs};
ghost use Rattle.block_audit.specs.Stated as spec;
ghost use Rattle.block_audit.specs.Stated.{AreNames, AreStated, slots_by};

use crate::names::{Names, names_in};
use desk_io::{Memory, Text};
use gtfs_tables::Table;
use std::alloc::Global;
use std::marker::Model;
use trip_model::{Timetable, by_departure};

/// A stated block: its name, and the slots of its trips.
pub struct StatedBlock {
    name: Text,
    slots: Vec<u16>,
}

impl Drop for StatedBlock {
    fn drop(self) {
        let Self { name: _, slots: _ } = self;
    }
}

impl Model for StatedBlock {
    ghost use Rattle.block_audit.specs.Stated.{NamedBlock};

    ghost Value = { NamedBlock };

    ghost view = { λ b. record { name = b.name; slots = b.slots.items } };
}

/// The blocks that a feed states, in the order of their first trips. Each has a name, which is empty for a trip without one, and
/// at least one trip.
pub struct Stated {
    blocks: Vec<StatedBlock>,
}

impl Drop for Stated {
    fn drop(self) {
        let Self { blocks: _ } = self;
    }
}

impl Model for Stated {
    ghost use Rattle.std.specs.Prelude.{List};
    ghost use Rattle.block_audit.specs.Stated.{NamedBlock, AreStated};

    ghost Value = { List NamedBlock };

    ghost view = { λ s. s.blocks.items };

    ghost invariant = { λ s. AreStated s.blocks.items };
}

impl Stated {
    /// How many blocks there are, which is how many vehicles.
    pub fn len(&self) -> usize
        ensures count { result ≡ length self.now }
        ensures valid { AreStated self.now }
    {
        self.blocks.len()
    }

    /// The name of a block, counted from 0.
    pub fn name(&self, b: usize) -> &str
        requires { b < length self.now }
        ensures { result.now ≡ (spec.block_at self.now b).name }
    {
        self.blocks[b].name.as_str()
    }

    /// The slots of a block, counted from 0, in order of departure.
    pub fn block(&self, b: usize) -> &[u16]
        requires { b < length self.now }
        ensures { result.now ≡ (spec.block_at self.now b).slots }
    {
        &self.blocks[b].slots
    }
}

// The slots that have a name, in their order.
fn slots_of(alloc: Global, names: &Names, order: &[u16], name: &str) -> Result<Vec<u16>, Memory>
    ensures { IfOk result (λ slots. slots.items ≡ filter (spec.is_of names.now name.now) order.now) }
{
    let mut slots = Vec::new(alloc);
    for slot in order {
        if names.at(*slot) == name {
            slots.push(*slot)?;
        }
    }
    Ok(slots)
}

// The block that begins with a trip.
fn block_from(alloc: Global, names: &Names, order: &[u16], slot: u16) -> Result<StatedBlock, Memory>
    ensures { IfOk result (λ block. block ≡ spec.block_from names.now order.now slot) }
{
    let name = names.at(slot);
    let slots = if name.is_empty() {
        vec![in alloc; slot]?
    } else {
        slots_of(alloc, names, order, name)?
    };
    let name = Text::of(alloc, name)?;
    Ok(StatedBlock { name, slots })
}

// The blocks of the slots of an order by their names.
fn grouped(alloc: Global, names: &Names, order: &[u16]) -> Result<Stated, Memory>
    requires { length order.now ≤ MOST_SLOTS }
    ensures { IfOk result (λ stated. stated ≡ spec.blocks_by names.now order.now) }
{
    let mut blocks = Vec::new(alloc);
    for slot in order {
        if names.begins(order, *slot) {
            blocks.push(block_from(alloc, names, order, *slot)?)?;
        }
    }
    Ok(Stated { blocks })
}

/// The blocks that a feed states. The trips that run and have one `block_id` that is not empty are one block, in order of
/// departure and then of slot. Every other trip that runs is a block of its own with the empty name. They are in the order of
/// their first trips. The table has to be that of the `trips.txt` from which the timetable was read. So its n-th selected
/// record is that of the n-th slot. `chosen` says of each record whether it is selected. The `block_id` of each selected one
/// has to be text.
pub fn stated_blocks(
    alloc: Global,
    trips: &Table,
    timetable: &Timetable,
    chosen: &[bool],
) -> Result<Stated, Memory>
    requires chosen { length chosen.now ≡ length trips.now.rows }
    requires names { AreNames trips.now chosen.now }
    ensures stated { IfOk result (λ stated. stated ≡ spec.stated_in trips.now timetable.now chosen.now) }
    ensures runs { IfOk result (λ stated. All (All (Runs timetable.now)) (slots_by stated)) }
{
    // Its clause says that the timetable is valid.
    let _slots = timetable.slots();
    let names = names_in(alloc, trips, chosen)?;
    let order = by_departure(alloc, timetable)?;
    grouped(alloc, &names, &order)
}
