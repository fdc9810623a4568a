ghost use Rattle.std.specs.Prelude.{◌≡◌, ◌++◌, [], ◌∷◌, cond, length, map, IfOk, OnOk};
ghost use Rattle.desk_settings.specs.Selected as spec;

use desk_io::Memory;
use gtfs_tables::{Column, Table, place_of};
use std::alloc::Global;
use std::marker::Model;

/// The fields of the selected records in a column, by slot.
#[derive(Drop)]
pub(crate) struct Fields<'a> {
    fields: Vec<&'a [u8]>,
}

impl<'a> Model for Fields<'a> {
    ghost use Rattle.std.specs.Prelude.{List, ℕ, map};

    ghost Value = { List (List ℕ) };

    ghost view = { λ f. map (λ field. field.now) f.fields.items };
}

// Appends a field, where its record is selected.
fn push_field<'a>(fields: &mut Vec<&'a [u8]>, field: &'a [u8], chosen: bool) -> Result<(), Memory>
    ensures { OnOk result (map (λ field. field.now) fields.new.items ≡ map (λ field. field.now) fields.old.items
        ++ cond chosen (field.now ∷ []) []) }
{
    if chosen {
        fields.push(field)?;
    }
    Ok(())
}

impl<'a> Fields<'a> {
    /// Those of a column.
    pub(crate) fn of(
        alloc: Global,
        column: Column,
        trips: &'a Table,
        chosen: &[bool],
    ) -> Result<Fields<'a>, Memory>
        requires { length chosen.now ≡ length trips.now.rows }
        ensures { IfOk result (λ fields. fields ≡ spec.selected_fields column trips.now chosen.now) }
    {
        let place = place_of(column, trips.header());
        let mut fields = Vec::new(alloc);
        for before in 0..trips.records() {
            let field = trips.row(before + 1).field(place);
            push_field(&mut fields, field, chosen[before as usize])?;
        }
        Ok(Fields { fields })
    }

    /// That of a slot, which is empty past the last one.
    pub(crate) fn at(&self, slot: u16) -> &[u8]
        ensures { result.now ≡ spec.slot_field self.now slot }
    {
        let place = usize::from(slot);
        if place < self.fields.len() {
            self.fields[place]
        } else {
            &[]
        }
    }
}
