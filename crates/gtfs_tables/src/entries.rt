ghost use Rattle.std.specs.Prelude.{◌≡◌, ◌<◌, [], ◌∷◌, ◌++◌, false, length, option_map, slice_get, Some, OnOk, OnErr};
ghost use Rattle.std.specs.Option.{option_copied};
ghost use Rattle.gtfs_tables.specs.Reading.{Gives};
ghost use Rattle.gtfs_tables.specs.Entries.{value_of, has_name, with_record};

use crate::{FeedFault, Paper};
use desk_io::Memory;
use indexmap::IndexMap;
use std::alloc::Global;
use std::marker::Model;

/// Names with a value each, in the order in which a file names them; a name is found without going over the others.
#[derive(Drop)]
pub struct Entries<V> {
    map: IndexMap<String, V>,
}

impl<V> Model for Entries<V> {
    ghost use Rattle.std.specs.Prelude.{List, ℕ};
    ghost use Rattle.gtfs_tables.specs.Entries.{entries_of};

    ghost Value = { List (List ℕ × V) };

    ghost view = { λ e. entries_of e.map.entries };
}

impl<V> Entries<V> {
    /// No names.
    pub fn new(alloc: Global) -> Entries<V>
        ensures { result ≡ [] }
    {
        Entries {
            map: IndexMap::new(alloc),
        }
    }

    /// The allocator of the entries.
    pub fn allocator(&self) -> Global {
        *self.map.allocator()
    }

    /// How many names there are.
    pub fn len(&self) -> usize
        ensures { result ≡ length self.now }
    {
        self.map.len()
    }

    /// The name of that number, from 0.
    pub fn name(&self, number: usize) -> &str
        requires { number < length self.now }
        ensures { option_map (λ entry. entry.0) (slice_get self.now number) ≡ Some result.now }
    {
        let (name, _) = self.map.get_index(number).unwrap();
        name.as_str()
    }

    /// The value of a name.
    pub fn find(&self, name: &str) -> Option<&V>
        ensures { option_copied result ≡ value_of name.now self.now }
    {
        self.map.get(name)
    }

    /// Whether the name has a value.
    pub fn has(&self, name: &str) -> bool
        ensures { result ≡ has_name name.now self.now }
    {
        self.find(name).is_some()
    }

    /// Appends a new name with its value.
    pub fn push(&mut self, name: &str, value: V) -> Result<(), Memory>
    where
        V: Drop,
        requires { has_name name.now self.old ≡ false }
        ensures pushed { OnOk result (self.new ≡ self.old ++ (name.now, value) ∷ []) }
        ensures err { OnErr result (self.new ≡ self.old) }
    {
        let name = String::from_str(*self.map.allocator(), name)?;
        self.map.insert(name, value)?;
        Ok(())
    }

    /// Appends the name of a record with its value, which no earlier record may have.
    pub fn add_record(
        &mut self,
        paper: Paper,
        number: u32,
        name: &str,
        value: V,
    ) -> Result<(), FeedFault>
    where
        V: Drop,
        ensures gives { Gives (λ _. self.new) result (with_record paper number self.old (name.now, value)) }
        ensures added { OnOk result (self.new ≡ self.old ++ (name.now, value) ∷ []) }
        ensures err { OnErr result (self.new ≡ self.old) }
    {
        if self.has(name) {
            return Err(FeedFault::DuplicateRow(paper, number));
        }
        self.push(name, value)?;
        Ok(())
    }
}
