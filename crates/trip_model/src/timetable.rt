ghost use Rattle.std.specs.Prelude.{◌≡◌, ◌+◌, ◌<◌, ◌≤◌, [], ◌∷◌, ◌++◌, true, false, length, slice_get, Some, Contains, IfOk, IfSome};
ghost use Rattle.std.specs.Prelude.{IfNone, OnErr, string_bytes};

use crate::Trip;
use desk_io::{Memory, Text};
use indexmap::IndexMap;
use std::alloc::Global;
use std::marker::Model;

// What a place is besides its name.
#[derive(Drop)]
struct Post {
    terminal: Text,
    class: Text,
    layover: u16,
}

/// The places and the trip slots of one service day, each numbered from 0 and found by name.
pub struct Timetable {
    places: IndexMap<String, Post>,
    trips: IndexMap<String, Trip>,
    classed: bool,
    early: u8,
    late: u8,
}

impl Drop for Timetable {
    fn drop(self) {
        let Self {
            places: _,
            trips: _,
            classed: _,
            early: _,
            late: _,
        } = self;
    }
}

impl Model for Timetable {
    ghost use Rattle.trip_model.specs.Timetable.{TimetableView, IsTimetable, timetable_of};

    ghost Value = { TimetableView };

    ghost view = { λ t. timetable_of t.classed t.places.entries t.trips.entries t.early t.late };

    ghost invariant = { λ t. IsTimetable (timetable_of t.classed t.places.entries t.trips.entries t.early t.late) };
}

impl Timetable {
    ghost use Rattle.trip_model.specs.declared.limits.TheConstants.{MOST_LAYOVER, MOST_PLACES, MOST_SLOTS, MOST_TOLERANCE};
    ghost use Rattle.trip_model.specs.Place.{Place, IsPlace, class_of, has_slash, terminal_place, post_place};
    ghost use Rattle.trip_model.specs.Trip.{IsValidTrip, MayShift, shifted};
    ghost use Rattle.trip_model.specs.Timetable.{Slot, TimetableView, IsTimetable, place_names, slot_names, number_of, place_at, slot_at};
    ghost use Rattle.trip_model.specs.Timetable.{with_trip};

    fn empty(alloc: Global, classed: bool, early: u8, late: u8) -> Timetable
        requires early { early ≤ MOST_TOLERANCE }
        requires late { late ≤ MOST_TOLERANCE }
        ensures { result ≡ record { classed = classed; places = []; slots = []; early = early; late = late } }
    {
        Timetable {
            places: IndexMap::new(alloc),
            trips: IndexMap::new(alloc),
            classed,
            early,
            late,
        }
    }

    /// A timetable without places and slots, whose places are to be terminals. `early` and `late` are the tolerances, in
    /// minutes, of trips that have none of their own.
    pub fn open(alloc: Global, early: u8, late: u8) -> Timetable
        requires early { early ≤ MOST_TOLERANCE }
        requires late { late ≤ MOST_TOLERANCE }
        ensures { result ≡ record { classed = false; places = []; slots = []; early = early; late = late } }
    {
        Timetable::empty(alloc, false, early, late)
    }

    /// The same, where vehicles are of classes: its places are to be posts, each a terminal with a class.
    pub fn open_classed(alloc: Global, early: u8, late: u8) -> Timetable
        requires early { early ≤ MOST_TOLERANCE }
        requires late { late ≤ MOST_TOLERANCE }
        ensures { result ≡ record { classed = true; places = []; slots = []; early = early; late = late } }
    {
        Timetable::empty(alloc, true, early, late)
    }

    /// Whether its places are posts.
    pub fn classed(&self) -> bool
        ensures { result ≡ self.now.classed }
    {
        self.classed
    }

    /// How many places there are.
    pub fn places(&self) -> u16
        ensures count { result ≡ length self.now.places }
        ensures valid { IsTimetable self.now }
    {
        self.places.len() as u16
    }

    /// The name of a place.
    pub fn place_name(&self, place: u16) -> &str
        requires { place < length self.now.places }
        ensures { result.now ≡ (place_at self.now place).name }
    {
        let (name, _) = self.places.get_index(usize::from(place)).unwrap();
        name.as_str()
    }

    /// The terminal of a place: of a post its own, and elsewhere the place itself.
    pub fn terminal_name(&self, place: u16) -> &str
        requires { place < length self.now.places }
        ensures { result.now ≡ (place_at self.now place).terminal }
    {
        let (_, post) = self.places.get_index(usize::from(place)).unwrap();
        post.terminal.as_str()
    }

    /// The class of the vehicles that use a place, which is empty where vehicles are of no classes.
    #[tactic(auto, unfolding(crate::specs::Place::class_of))]
    pub fn class_name(&self, place: u16) -> &str
        requires { place < length self.now.places }
        ensures { result.now ≡ class_of self.now.places place }
    {
        let (_, post) = self.places.get_index(usize::from(place)).unwrap();
        post.class.as_str()
    }

    /// The minutes that a vehicle stays at a place after a trip that ends there.
    pub fn layover(&self, place: u16) -> u16
        requires { place < length self.now.places }
        ensures value { result ≡ (place_at self.now place).layover }
        ensures valid { result ≤ MOST_LAYOVER }
    {
        let (_, post) = self.places.get_index(usize::from(place)).unwrap();
        post.layover
    }

    /// The number of the place of that name.
    pub fn find_place(&self, name: &str) -> Option<u16>
        ensures number { result ≡ number_of (place_names self.now) name.now }
        ensures found { IfSome result (λ p. slice_get (place_names self.now) p ≡ Some name.now) }
        ensures within { IfSome result (λ p. p < length self.now.places) }
        ensures missing { IfNone result (¬ Contains (place_names self.now) name.now) }
    {
        let place = self.places.get_index_of(name)?;
        Some(place as u16)
    }

    /// By how many minutes a trip without tolerances of its own may be moved before its published times.
    pub fn early(&self) -> u8
        ensures value { result ≡ self.now.early }
        ensures valid { result ≤ MOST_TOLERANCE }
    {
        self.early
    }

    /// By how many minutes a trip without tolerances of its own may be moved after its published times.
    pub fn late(&self) -> u8
        ensures value { result ≡ self.now.late }
        ensures valid { result ≤ MOST_TOLERANCE }
    {
        self.late
    }

    // Appends a place, whose name is new, and answers its number.
    fn push(
        &mut self,
        name: String,
        terminal: &str,
        class: &str,
        layover: u16,
    ) -> Result<u16, Memory>
        requires new { ¬ Contains (place_names self.old) (string_bytes name) }
        requires room { length self.old.places < MOST_PLACES }
        requires place { IsPlace self.old.classed
            (record { name = string_bytes name; terminal = terminal.now; class = class.now; layover = layover }) }
        ensures number { IfOk result (λ p. p ≡ length self.old.places) }
        ensures pushed { IfOk result (λ _. self.new ≡ record self.old {
          places = self.old.places ++ record { name = string_bytes name; terminal = terminal.now; class = class.now; layover = layover }
              ∷ [];
        }) }
        ensures err { OnErr result (self.new ≡ self.old) }
    {
        let number = self.places.len() as u16;
        let alloc = *self.places.allocator();
        let post = Post {
            terminal: Text::of(alloc, terminal)?,
            class: Text::of(alloc, class)?,
            layover,
        };
        self.places.insert(name, post)?;
        Ok(number)
    }

    /// Appends a terminal, with its layover in minutes, and answers its number as a place.
    pub fn push_place(&mut self, name: &str, layover: u16) -> Result<u16, Memory>
        requires unclassed { self.old.classed ≡ false }
        requires new { ¬ Contains (place_names self.old) name.now }
        requires room { length self.old.places < MOST_PLACES }
        requires layover { layover ≤ MOST_LAYOVER }
        ensures number { IfOk result (λ p. p ≡ length self.old.places) }
        ensures pushed { IfOk result (λ _. self.new ≡ record self.old {
          places = self.old.places ++ terminal_place name.now layover ∷ [];
        }) }
        ensures err { OnErr result (self.new ≡ self.old) }
    {
        let copy = String::from_str(*self.places.allocator(), name)?;
        self.push(copy, name, "", layover)
    }

    /// Appends the post of a terminal for a class, with its layover in minutes, and answers its number as a place. It is
    /// named TERMINAL/CLASS.
    pub fn push_post(&mut self, terminal: &str, class: &str, layover: u16) -> Result<u16, Memory>
        requires classed { self.old.classed ≡ true }
        requires new { ¬ Contains (place_names self.old) (post_place terminal.now class.now layover).name }
        requires class { has_slash class.now ≡ false }
        requires room { length self.old.places < MOST_PLACES }
        requires layover { layover ≤ MOST_LAYOVER }
        ensures number { IfOk result (λ p. p ≡ length self.old.places) }
        ensures pushed { IfOk result (λ _. self.new ≡ record self.old {
          places = self.old.places ++ post_place terminal.now class.now layover ∷ [];
        }) }
        ensures err { OnErr result (self.new ≡ self.old) }
    {
        let name = format!(in *self.places.allocator(); "{terminal}/{class}")?;
        self.push(name, terminal, class, layover)
    }

    /// How many slots there are.
    pub fn slots(&self) -> u16
        ensures count { result ≡ length self.now.slots }
        ensures valid { IsTimetable self.now }
    {
        self.trips.len() as u16
    }

    /// The trip in a slot, live or cancelled.
    pub fn trip(&self, slot: u16) -> Trip
        requires { slot < length self.now.slots }
        ensures value { result ≡ (slot_at self.now slot).trip }
        ensures valid { IsValidTrip self.now.places result }
    {
        let (_, trip) = self.trips.get_index(usize::from(slot)).unwrap();
        *trip
    }

    /// The name of the trip in a slot.
    pub fn name(&self, slot: u16) -> &str
        requires { slot < length self.now.slots }
        ensures { result.now ≡ (slot_at self.now slot).name }
    {
        let (name, _) = self.trips.get_index(usize::from(slot)).unwrap();
        name.as_str()
    }

    /// The slot of the trip of that name, live or cancelled.
    pub fn find(&self, name: &str) -> Option<u16>
        ensures slot { result ≡ number_of (slot_names self.now) name.now }
        ensures found { IfSome result (λ s. slice_get (slot_names self.now) s ≡ Some name.now) }
        ensures within { IfSome result (λ s. s < length self.now.slots) }
        ensures missing { IfNone result (¬ Contains (slot_names self.now) name.now) }
    {
        let slot = self.trips.get_index_of(name)?;
        Some(slot as u16)
    }

    /// Appends a trip, and answers its slot.
    pub fn push_trip(&mut self, name: &str, trip: Trip) -> Result<u16, Memory>
        requires new { ¬ Contains (slot_names self.old) name.now }
        requires room { length self.old.slots < MOST_SLOTS }
        requires valid { IsValidTrip self.old.places trip }
        ensures slot { IfOk result (λ s. s ≡ length self.old.slots) }
        ensures pushed { IfOk result (λ _. self.new ≡ record self.old {
          slots = self.old.slots ++ record { name = name.now; trip = trip } ∷ [];
        }) }
        ensures err { OnErr result (self.new ≡ self.old) }
    {
        let slot = self.trips.len() as u16;
        let name = String::from_str(*self.trips.allocator(), name)?;
        self.trips.insert(name, trip)?;
        Ok(slot)
    }

    /// Takes off the last slot; None where there is none.
    pub fn pop_trip(&mut self) -> Option<(Text, Trip)>
        ensures some { IfSome result (λ popped. self.old ≡ record self.new {
          slots = self.new.slots ++ record { name = popped.0; trip = popped.1 } ∷ [];
        }) }
        ensures none { IfNone result ((self.old.slots ≡ []) × (self.new ≡ self.old)) }
    {
        let (name, trip) = self.trips.pop()?;
        Some((Text::wrap(name), trip))
    }

    // Puts another trip into a slot.
    fn set_trip(&mut self, slot: u16, trip: Trip)
        requires slot { slot < length self.old.slots }
        requires valid { IsValidTrip self.old.places trip }
        ensures { self.new ≡ with_trip self.old slot trip }
    {
        *self.trips.get_index_mut(usize::from(slot)).unwrap() = trip;
    }

    /// Moves a trip that runs by so many minutes, within its tolerances.
    pub fn shift(&mut self, slot: u16, by: i16)
        requires slot { slot < length self.old.slots }
        requires live { (slot_at self.old slot).trip.live ≡ true }
        requires within { MayShift (slot_at self.old slot).trip by }
        ensures { self.new ≡ with_trip self.old slot (shifted (slot_at self.old slot).trip by) }
    {
        let trip = self.trip(slot).shifted(by);
        self.set_trip(slot, trip);
    }

    /// Cancels a trip that runs. It keeps its slot.
    pub fn cancel(&mut self, slot: u16)
        requires slot { slot < length self.old.slots }
        requires live { (slot_at self.old slot).trip.live ≡ true }
        ensures { self.new ≡ with_trip self.old slot (record (slot_at self.old slot).trip { live = false }) }
    {
        let trip = Trip {
            live: false,
            ..self.trip(slot)
        };
        self.set_trip(slot, trip);
    }

    /// Makes a cancelled trip run again, as it was.
    pub fn restore(&mut self, slot: u16)
        requires slot { slot < length self.old.slots }
        requires cancelled { (slot_at self.old slot).trip.live ≡ false }
        ensures { self.new ≡ with_trip self.old slot (record (slot_at self.old slot).trip { live = true }) }
    {
        let trip = Trip {
            live: true,
            ..self.trip(slot)
        };
        self.set_trip(slot, trip);
    }

    /// An equal timetable.
    pub fn copy(&self, alloc: Global) -> Result<Timetable, Memory>
        ensures { IfOk result (λ copy. copy ≡ self.now) }
    {
        let mut copy = Timetable::empty(alloc, self.classed, self.early, self.late);
        for place in 0..self.places() {
            let name = String::from_str(alloc, self.place_name(place))?;
            let (terminal, class) = (self.terminal_name(place), self.class_name(place));
            copy.push(name, terminal, class, self.layover(place))?;
        }
        for slot in 0..self.slots() {
            copy.push_trip(self.name(slot), self.trip(slot))?;
        }
        Ok(copy)
    }
}
