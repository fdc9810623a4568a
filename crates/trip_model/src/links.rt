ghost use Rattle.std.specs.Prelude.{◌≡◌, ◌-◌, ◌<◌, ◌≤◌, ◌++◌, length, take, replicate, slice_set, IfOk};
ghost use Rattle.trip_model.specs.declared.limits.TheConstants.{MOST_SLOTS};
ghost use Rattle.trip_model.specs.Links.{next_of};

use crate::MOST_SLOTS;
use desk_io::Memory;
use std::alloc::Global;
use std::marker::Model;

/// For each slot the trip that its vehicle makes next, by the number of its slot.
pub struct Links {
    nexts: Vec<Option<u16>>,
}

impl Drop for Links {
    fn drop(self) {
        let Self { nexts: _ } = self;
    }
}

impl Model for Links {
    ghost use Rattle.std.specs.Prelude.{◌≤◌, ℕ, List, Option, vec_len, vec_capacity};
    ghost use Rattle.trip_model.specs.declared.limits.TheConstants.{MOST_SLOTS};

    ghost Value = { List (Option ℕ) };

    ghost view = { λ l. l.nexts.items };

    ghost invariant = { λ l. (vec_len l.nexts ≤ MOST_SLOTS) × (MOST_SLOTS ≤ vec_capacity l.nexts) };
}

impl Links {
    /// Links of so many slots without a next trip. It takes the memory for as many slots as there may be.
    pub fn open(alloc: Global, slots: u16) -> Result<Links, Memory>
        requires { slots ≤ MOST_SLOTS }
        ensures { IfOk result (λ links. links ≡ replicate slots None) }
    {
        let mut links = Links {
            nexts: Vec::with_capacity(alloc, usize::from(MOST_SLOTS))?,
        };
        links.set_slots(slots);
        Ok(links)
    }

    /// How many slots there are.
    pub fn slots(&self) -> u16
        ensures count { result ≡ length self.now }
        ensures valid { result ≤ MOST_SLOTS }
    {
        self.nexts.len() as u16
    }

    /// The slot of the trip that the vehicle of a slot makes next; None where it makes none.
    pub fn next(&self, slot: u16) -> Option<u16>
        requires { slot < length self.now }
        ensures { result ≡ next_of self.now slot }
    {
        self.nexts[usize::from(slot)]
    }

    /// Gives a slot another next trip, or none. Whether that trip fits is not asked here.
    pub fn set(&mut self, slot: u16, next: Option<u16>)
        requires { slot < length self.old }
        ensures { self.new ≡ slice_set self.old slot next }
    {
        self.nexts[usize::from(slot)] = next;
    }

    /// Cuts the links to so many slots, or adds slots without a next trip. It takes no memory.
    pub fn set_slots(&mut self, slots: u16)
        requires { slots ≤ MOST_SLOTS }
        ensures { self.new ≡ take slots self.old ++ replicate (slots - length self.old) None }
    {
        let slots = usize::from(slots);
        let missing = slots.saturating_sub(self.nexts.len());
        self.nexts.truncate(slots);
        for _ in 0..missing {
            let _ = self.nexts.push(None);
        }
    }
}
