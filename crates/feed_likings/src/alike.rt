ghost use Rattle.std.specs.Prelude.{◌≡◌, [], map, IfOk, OnOk};
ghost use Rattle.std.specs.List.{range_with_len};
ghost use Rattle.gtfs_tables.specs.Entries.{value_of};
ghost use Rattle.feed_likings.specs.Alike as spec;

use crate::fields::Fields;
use desk_io::Memory;
use indexmap::IndexMap;
use std::alloc::Global;
use std::marker::Model;

// Fields, each with the first slot that has it.
#[derive(Drop)]
struct Firsts<'a> {
    slots: IndexMap<&'a [u8], u16>,
}

impl<'a> Model for Firsts<'a> {
    ghost use Rattle.std.specs.Prelude.{ℕ, map};
    ghost use Rattle.gtfs_tables.specs.Entries.{Entries};

    ghost Value = { Entries ℕ };

    ghost view = { λ f. map (λ entry. (entry.0.now, entry.1)) f.slots.entries };
}

impl<'a> Firsts<'a> {
    fn new(alloc: Global) -> Firsts<'a>
        ensures { result ≡ [] }
    {
        Firsts {
            slots: IndexMap::new(alloc),
        }
    }

    // The first slot of a field.
    fn find(&self, field: &[u8]) -> Option<u16>
        ensures { result ≡ value_of field.now self.now }
    {
        self.slots.get(field).copied()
    }

    // Notes a slot, where its field is new and not empty, and answers the first slot of that field.
    fn note(&mut self, field: &'a [u8], slot: u16) -> Result<Option<u16>, Memory>
        ensures noted { OnOk result (self.new ≡ spec.with_slot self.old field.now slot) }
        ensures number { IfOk result (λ number. number ≡ spec.noted_number self.new field.now) }
    {
        if field.is_empty() {
            return Ok(None);
        }
        match self.find(field) {
            Some(first) => Ok(Some(first)),
            None => {
                self.slots.insert(field, slot)?;
                Ok(Some(slot))
            }
        }
    }
}

/// For each of so many slots the number of the first that has the same field; None for one whose field is empty.
pub(crate) fn first_alike(
    alloc: Global,
    fields: &Fields,
    slots: u16,
) -> Result<Vec<Option<u16>>, Memory>
    ensures { IfOk result (λ numbers. numbers.items ≡ map (spec.first_alike fields.now) (range_with_len 0 slots)) }
{
    let mut firsts = Firsts::new(alloc);
    let mut numbers = Vec::new(alloc);
    for slot in 0..slots {
        numbers.push(firsts.note(fields.at(slot), slot)?)?;
    }
    Ok(numbers)
}
