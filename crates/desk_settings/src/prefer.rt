ghost use Rattle.std.specs.Prelude.{◌≡◌, [], true, IfOk, Some, None, if◌then◌else◌};
ghost use Rattle.toml.specs.View.{view, items_view};
ghost use Rattle.desk_settings.specs.Prefer as spec;

use desk_io::Memory;
use std::alloc::Global;
use std::marker::Model;
use toml::Value;

/// What a planner prefers of two trips that one vehicle makes one after the other.
#[derive(Clone, Copy)]
pub enum Preference {
    /// They are neighbours in a block that the feed states.
    Stated,
    /// They are of one line.
    Line,
    /// The vehicle waits few minutes between them.
    Waiting,
}

impl Preference {
    // A number for each.
    fn rank(self) -> u8
        ensures { result ≡ spec.rank self }
    {
        match self {
            Preference::Stated => 0,
            Preference::Line => 1,
            Preference::Waiting => 2,
        }
    }

    /// Whether two are the same.
    pub fn is_same(self, other: Preference) -> bool
        ensures { result ≡ spec.is_same self other }
    {
        self.rank() == other.rank()
    }

    // The preference of that name.
    fn named(name: &str) -> Option<Preference>
        ensures { result ≡ spec.preference_named name.now }
    {
        match name {
            "stated" => Some(Preference::Stated),
            "line" => Some(Preference::Line),
            "waiting" => Some(Preference::Waiting),
            _ => None,
        }
    }
}

/// What a planner prefers, in the order of importance; none is there twice.
#[derive(Drop)]
pub struct Preferences {
    order: Vec<Preference>,
}

impl Model for Preferences {
    ghost use Rattle.std.specs.Prelude.{◌≡◌, List, true};
    ghost use Rattle.desk_settings.specs.Prefer.{none_twice};
    ghost use Rattle.desk_settings.specs.declared.prefer.Preference as preference;

    ghost Value = { List preference.Preference };

    ghost view = { λ p. p.order.items };

    ghost invariant = { λ p. none_twice p.order.items ≡ true };
}

impl Preferences {
    /// All of them: stated neighbours first, then lines, then waiting.
    pub(crate) fn standard(alloc: Global) -> Result<Preferences, Memory>
        ensures { IfOk result (λ preferences. preferences ≡ spec.standard_preferences) }
    {
        let order = vec![in alloc; Preference::Stated, Preference::Line, Preference::Waiting]?;
        Ok(Preferences { order })
    }

    // Adds one behind the others, and answers whether it is none of them.
    #[tactic(auto, using(crate::proofs::PreferLemmas::none_twice_pushed))]
    fn add(&mut self, preference: Preference) -> Result<bool, Memory>
        ensures { IfOk result (λ is_new. (if is_new then Some self.new else None) ≡ spec.added self.old preference) }
    {
        if self.has(preference) {
            return Ok(false);
        }
        self.order.push(preference)?;
        Ok(true)
    }

    // Adds the one that a value names, and answers whether it names one that is none of the others.
    fn add_named(&mut self, value: &Value) -> Result<bool, Memory>
        ensures { let given = view value.now in
            IfOk result (λ is_new. (if is_new then Some self.new else None) ≡ spec.with_preference self.old given) }
    {
        let Some(name) = value.as_str() else {
            return Ok(false);
        };
        match Preference::named(name) {
            Some(preference) => self.add(preference),
            None => Ok(false),
        }
    }

    /// Whether a preference is one of these.
    pub fn has(&self, preference: Preference) -> bool
        ensures { result ≡ spec.has preference self.now }
    {
        self.order.iter().any(|other| preference.is_same(*other))
    }

    /// The preferences, in their order of importance.
    pub fn as_slice(&self) -> &[Preference]
        ensures order { result.now ≡ self.now }
        ensures valid { spec.none_twice result.now ≡ true }
    {
        self.order.as_slice()
    }
}

// The preferences that the strings of a list name; None where one names none, or one that came before.
fn preferences_from(alloc: Global, items: &[Value]) -> Result<Option<Preferences>, Memory>
    ensures { IfOk result (λ preferences. preferences ≡ spec.preferences_from [] (items_view items.now)) }
{
    let mut preferences = Preferences {
        order: Vec::new(alloc),
    };
    for item in items {
        if !preferences.add_named(item)? {
            return Ok(None);
        }
    }
    Ok(Some(preferences))
}

/// A list of preferences, none of them twice.
pub(crate) fn preferences_in(alloc: Global, value: &Value) -> Result<Option<Preferences>, Memory>
    ensures { IfOk result (λ preferences. preferences ≡ spec.preferences_in (view value.now)) }
{
    match value.as_array() {
        Some(items) => preferences_from(alloc, items),
        None => Ok(None),
    }
}
