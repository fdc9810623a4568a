ghost use Rattle.std.specs.Prelude.{◌≡◌, ◌++◌, [], ◌∷◌, true, cond, length, map, IfOk, IsUtf8, OnOk};
ghost use Rattle.block_audit.specs.Stated as spec;
ghost use Rattle.block_audit.specs.Stated.{AreNames};

use block_writer::text_of;
use desk_io::Memory;
use gtfs_tables::{Column, Table, place_of};
use std::alloc::Global;
use std::marker::Model;

/// The names of the blocks of slots, by the `block_id` of the selected records.
#[derive(Drop)]
pub struct Names<'a> {
    names: Vec<&'a str>,
}

impl<'a> Model for Names<'a> {
    ghost use Rattle.std.specs.Prelude.{List, ℕ, map};

    ghost Value = { List (List ℕ) };

    ghost view = { λ n. map (λ name. name.now) n.names.items };
}

// Appends the name in a field, where its record is selected.
fn push_name<'a>(names: &mut Vec<&'a str>, field: &'a [u8], chosen: bool) -> Result<(), Memory>
    requires { chosen ≡ true → IsUtf8 field.now }
    ensures { OnOk result (map (λ name. name.now) names.new.items ≡ map (λ name. name.now) names.old.items
        ++ cond chosen (field.now ∷ []) []) }
{
    if chosen {
        names.push(text_of(field))?;
    }
    Ok(())
}

/// The names that the selected records give the slots, in order of slot.
pub fn names_in<'a>(alloc: Global, trips: &'a Table, chosen: &[bool]) -> Result<Names<'a>, Memory>
    requires chosen { length chosen.now ≡ length trips.now.rows }
    requires names { AreNames trips.now chosen.now }
    ensures { IfOk result (λ names. names ≡ spec.stated_names trips.now chosen.now) }
{
    let place = place_of(Column::BlockId, trips.header());
    let mut names = Vec::new(alloc);
    for before in 0..trips.records() {
        let field = trips.row(before + 1).field(place);
        push_name(&mut names, field, chosen[before as usize])?;
    }
    Ok(Names { names })
}

impl<'a> Names<'a> {
    /// The name of a slot; empty where it has none.
    pub fn at(&self, slot: u16) -> &str
        ensures { result.now ≡ spec.name_at self.now slot }
    {
        let place = usize::from(slot);
        if place < self.names.len() {
            self.names[place]
        } else {
            ""
        }
    }

    /// Whether the trip of a slot begins a block.
    pub fn begins(&self, order: &[u16], slot: u16) -> bool
        ensures { result ≡ spec.begins self.now order.now slot }
    {
        let name = self.at(slot);
        if name.is_empty() {
            return true;
        }
        for other in order {
            if self.at(*other) == name {
                return *other == slot;
            }
        }
        false
    }
}
