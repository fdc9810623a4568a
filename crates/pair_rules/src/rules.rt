ghost use Rattle.std.specs.Prelude.{◌≡◌, ◌≢◌, ◌<◌, ℕ, [], ◌∷◌, ◌++◌, true, false, List, length, nat_lt, OnOk, OnErr};

use crate::marks::mark;
use crate::{MOST_RULES, Marks, RuleKind};
use desk_io::Memory;
use indexmap::IndexMap;
use std::alloc::Global;
use std::marker::Model;

/// Rules of pairs of trips, in the order in which they were added, none of which clashes with another.
pub struct PairRules {
    names: IndexMap<String, Marks>,
    rules: IndexMap<(u16, u16), RuleKind>,
}

impl Drop for PairRules {
    fn drop(self) {
        let Self { names: _, rules: _ } = self;
    }
}

impl Model for PairRules {
    ghost use Rattle.std.specs.Prelude.{List};
    ghost use Rattle.pair_rules.specs.Rules.{PairRule};
    ghost use Rattle.pair_rules.specs.Marks.{rules_in, AreHeld};

    ghost Value = { List PairRule };

    ghost view = { λ r. rules_in r.names.entries r.rules.entries };

    ghost invariant = { λ r. AreHeld r.names.entries r.rules.entries };
}

impl PairRules {
    ghost use Rattle.pair_rules.specs.declared.limits.TheConstants.{MOST_RULES};
    ghost use Rattle.pair_rules.specs.Rules as spec;
    ghost use Rattle.pair_rules.specs.Rules.{PairRule, ArePairRules, number_of};
    ghost use Rattle.pair_rules.specs.Marks.{marks_of, kind_of};

    /// No rules.
    pub fn none(alloc: Global) -> PairRules
        ensures { result ≡ [] }
    {
        PairRules {
            names: IndexMap::new(alloc),
            rules: IndexMap::new(alloc),
        }
    }

    /// How many rules there are.
    pub fn len(&self) -> usize
        ensures count { result ≡ length self.now }
        ensures valid { ArePairRules self.now }
    {
        self.rules.len()
    }

    /// Whether there are no rules.
    pub fn is_empty(&self) -> bool
        ensures none { result ≡ true → self.now ≡ [] }
        ensures some { result ≡ false → self.now ≢ [] }
    {
        self.len() == 0
    }

    /// Whether one more rule may be added.
    pub fn has_room(&self) -> bool
        ensures { result ≡ nat_lt (length self.now) MOST_RULES }
    {
        self.len() < usize::from(MOST_RULES)
    }

    // The number of a name, if a rule has it.
    fn number(&self, name: &str) -> Option<u16>
        ensures { result ≡ number_of self.now name.now }
    {
        let number = self.names.get_index_of(name)?;
        Some(number as u16)
    }

    // What the rules have of the name of that number; nothing of a name that has none.
    fn marks_at(&self, number: Option<u16>) -> Marks
        ensures { (name : List ℕ) → number_of self.now name ≡ number → result ≡ marks_of self.now name }
    {
        match number {
            Some(number) => match self.names.get_index(usize::from(number)) {
                Some((_, marks)) => *marks,
                None => Marks::none(),
            },
            None => Marks::none(),
        }
    }

    /// What the rules have of a trip.
    pub fn marks(&self, name: &str) -> Marks
        ensures { result ≡ marks_of self.now name.now }
    {
        if self.is_empty() {
            return Marks::none();
        }
        self.marks_at(self.number(name))
    }

    // What the rule of two trips says of them, by their numbers.
    fn kind(&self, first: Option<u16>, second: Option<u16>) -> Option<RuleKind>
        ensures value { (a b : List ℕ) → number_of self.now a ≡ first → number_of self.now b ≡ second
            → result ≡ kind_of self.now a b }
        ensures valid { ArePairRules self.now }
    {
        let kind = self.rules.get(&(first?, second?))?;
        Some(*kind)
    }

    // Whether a vehicle may make the trip of the second number straight after that of the first.
    fn allows_at(&self, first: Option<u16>, second: Option<u16>) -> bool
        ensures { (a b : List ℕ) → number_of self.now a ≡ first → number_of self.now b ≡ second
            → result ≡ spec.allows self.now a b }
    {
        match self.kind(first, second) {
            Some(RuleKind::Keep) => true,
            Some(RuleKind::Never) => false,
            None => !self.marks_at(first).keeps_first && !self.marks_at(second).keeps_second,
        }
    }

    /// Whether a vehicle may make the second trip straight after the first.
    pub fn allows(&self, before: &str, after: &str) -> bool
        ensures { result ≡ spec.allows self.now before.now after.now }
    {
        if self.is_empty() {
            return true;
        }
        self.allows_at(self.number(before), self.number(after))
    }

    /// Whether a rule would clash with one of these.
    pub fn clashes(&self, before: &str, after: &str, kind: RuleKind) -> bool
        ensures { result ≡ spec.clashes self.now (record { before = before.now; after = after.now; kind = kind }) }
    {
        let first = self.number(before);
        let second = self.number(after);
        self.kind(first, second).is_some()
            || (kind.is_keep()
                && (self.marks_at(first).keeps_first || self.marks_at(second).keeps_second))
    }

    /// Adds a rule of two trips, which clashes with none.
    pub fn add(&mut self, before: &str, after: &str, kind: RuleKind) -> Result<(), Memory>
        requires two { before.now ≢ after.now }
        requires apart { spec.clashes self.old (record { before = before.now; after = after.now; kind = kind }) ≡ false }
        requires room { length self.old < MOST_RULES }
        ensures added { OnOk result (self.new ≡ self.old ++ record { before = before.now; after = after.now; kind = kind } ∷ []) }
        ensures err { OnErr result (self.new ≡ self.old) }
    {
        let alloc = *self.names.allocator();
        let (first, second) = (
            String::from_str(alloc, before)?,
            String::from_str(alloc, after)?,
        );
        self.names.reserve(2)?;
        self.rules.reserve(1)?;
        let first = mark(&mut self.names, first, Marks::before(kind));
        let second = mark(&mut self.names, second, Marks::after(kind));
        self.rules.insert((first, second), kind)?;
        Ok(())
    }
}
