ghost use Rattle.std.specs.Prelude.{◌≡◌, ◌≢◌, ◌<◌, AllPairs, [], length, slice_index_or, IfOk, IfSome, OnOk, OnErr};
ghost use Rattle.trip_model.specs.Timetable.{number_of};
ghost use Rattle.desk_settings.specs.Names.{each_once, is_among, kept_among, with_name};

use desk_io::{Memory, Text};
use indexmap::{Equivalent, IndexSet};
use std::alloc::Global;
use std::hash::{Hash, Hasher};
use std::marker::Model;

// The bytes of a name that may be one of a set's. They are looked up as the text that they spell, and need not be UTF-8.
#[derive(Clone, Copy)]
struct Spelled<'a> {
    bytes: &'a [u8],
}

impl<'a> PartialEq for Spelled<'a> {
    ghost use Rattle.std.proofs.Common.{rules};
    ghost use Rattle.std.specs.Cmp.Rules.{comparing};
    ghost use Rattle.std.specs.Str.{bytes_eq};

    ghost eq = { λ x y. bytes_eq x.bytes.now y.bytes.now };

    ghost laws = { Prim.search (comparing, rules) };

    fn eq(&self, other: &Spelled<'a>) -> bool {
        self.bytes == other.bytes
    }
}

impl<'a> Eq for Spelled<'a> {
    ghost use Rattle.std.proofs.Common.{rules};
    ghost use Rattle.std.specs.Cmp.Rules.{comparing};

    ghost laws = { Prim.search (comparing, rules) };
}

impl<'a> Hash for Spelled<'a> {
    ghost use Rattle.std.proofs.Common.{ap};
    ghost use Rattle.std.specs.Cmp.Lexicographic.{bytes_decides};
    ghost use Rattle.std.specs.Hash as fed;

    ghost hash_input = { λ name. fed.str name.bytes.now };

    ghost respects_eq = { λ x y h. ap fed.str ((bytes_decides x.bytes.now y.bytes.now).0 h) };

    fn hash<H: Hasher>(&self, state: &mut H) {
        state.write(self.bytes);
        state.write_u8(0xff);
    }
}

impl<'a> Equivalent<String> for Spelled<'a> {
    ghost use Rattle.std.proofs.Common.{ap};
    ghost use Rattle.std.specs.Cmp.Lexicographic.{bytes_decides, nat_list_eq_equiv};
    ghost use Rattle.std.specs.Hash as fed;
    ghost use Rattle.std.specs.Str.{bytes_eq};
    ghost use Rattle.std.specs.String.{string_bytes};

    ghost equivalent = { λ name key. bytes_eq name.bytes.now (string_bytes key) };

    ghost respects_hash = { λ name key h. ap fed.str ((bytes_decides name.bytes.now (string_bytes key)).0 h) };

    ghost respects_eq = { λ name x y. nat_list_eq_equiv.congr name.bytes.now (string_bytes x) (string_bytes y) };

    fn equivalent(&self, key: &String) -> bool {
        self.bytes == key.as_bytes()
    }
}

/// Names, each once, in the order in which they first come; one is found without going over the others.
pub struct Names {
    set: IndexSet<String>,
}

impl Drop for Names {
    fn drop(self) {
        let Self { set: _ } = self;
    }
}

impl Model for Names {
    ghost use Rattle.std.specs.Prelude.{List, ℕ, map, string_bytes};

    ghost Value = { List (List ℕ) };

    ghost view = { λ n. map string_bytes n.set.keys };
}

impl Names {
    /// No names.
    pub fn new(alloc: Global) -> Names
        ensures { result ≡ [] }
    {
        Names {
            set: IndexSet::new(alloc),
        }
    }

    /// How many names there are.
    pub fn len(&self) -> usize
        ensures count { result ≡ length self.now }
        ensures distinct { AllPairs (λ x y. x ≢ y) self.now }
    {
        self.set.len()
    }

    /// The name of that number, from 0.
    pub fn get(&self, number: usize) -> &str
        requires { number < length self.now }
        ensures { result.now ≡ slice_index_or self.now number [] }
    {
        self.set.get_index(number).unwrap().as_str()
    }

    /// The number, from 0, of the name of these bytes, which need not be UTF-8.
    pub fn number(&self, name: &[u8]) -> Option<usize>
        ensures number { result ≡ number_of self.now name.now }
        ensures within { IfSome result (λ number. number < length self.now) }
    {
        self.set.get_index_of(Spelled { bytes: name })
    }

    /// Whether the name is one of them.
    pub fn has(&self, name: &str) -> bool
        ensures { result ≡ is_among name.now self.now }
    {
        self.set.contains(name)
    }

    /// Appends the name, if it is new.
    pub fn add(&mut self, name: &str) -> Result<(), Memory>
        ensures added { OnOk result (self.new ≡ with_name self.old name.now) }
        ensures err { OnErr result (self.new ≡ self.old) }
    {
        let name = String::from_str(*self.set.allocator(), name)?;
        self.set.insert(name)?;
        Ok(())
    }

    /// These names, each where it first comes.
    pub(crate) fn of(alloc: Global, texts: &[Text]) -> Result<Names, Memory>
        ensures { IfOk result (λ names. names ≡ each_once texts.now) }
    {
        let mut names = Names::new(alloc);
        for text in texts {
            names.add(text.as_str())?;
        }
        Ok(names)
    }

    /// Those of the names that are among others.
    pub(crate) fn kept(&self, alloc: Global, others: &Names) -> Result<Names, Memory>
        ensures { IfOk result (λ names. names ≡ kept_among others.now self.now) }
    {
        let mut kept = Names::new(alloc);
        for number in 0..self.len() {
            let name = self.get(number);
            if others.has(name) {
                kept.add(name)?;
            }
        }
        Ok(kept)
    }
}
