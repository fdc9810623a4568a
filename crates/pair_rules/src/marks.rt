ghost use Rattle.std.specs.Prelude.{◌≡◌, ◌+◌, ◌<◌, ◌≤◌, string_bytes, unwrap_or};
ghost use Rattle.std.specs.List.{position_or_len};
ghost use Rattle.std.specs.Map.{lookup};
ghost use Rattle.std.specs.Str.{bytes_eq};
ghost use Rattle.indexmap.specs.IndexMap.{index_map_len, spare};
ghost use Rattle.pair_rules.specs.Marks.{no_marks, marks_before, marks_after, joined, names_in, marked_in, with_marks};

use crate::RuleKind;
use indexmap::IndexMap;

/// What the rules have of a name.
#[derive(Clone, Copy)]
pub struct Marks {
    /// A rule has the trip as its first.
    pub first: bool,
    /// A rule has the trip as its second.
    pub second: bool,
    /// A keep has the trip as its first.
    pub keeps_first: bool,
    /// A keep has the trip as its second.
    pub keeps_second: bool,
}

impl Marks {
    /// Those of a name that no rule has.
    pub(crate) fn none() -> Marks
        ensures { result ≡ no_marks }
    {
        Marks {
            first: false,
            second: false,
            keeps_first: false,
            keeps_second: false,
        }
    }

    /// Those of a rule's first trip.
    pub(crate) fn before(kind: RuleKind) -> Marks
        ensures { result ≡ marks_before kind }
    {
        Marks {
            first: true,
            keeps_first: kind.is_keep(),
            ..Marks::none()
        }
    }

    /// Those of a rule's second trip.
    pub(crate) fn after(kind: RuleKind) -> Marks
        ensures { result ≡ marks_after kind }
    {
        Marks {
            second: true,
            keeps_second: kind.is_keep(),
            ..Marks::none()
        }
    }

    // Those that one or the other has.
    fn joined(self, other: Marks) -> Marks
        ensures { result ≡ joined self other }
    {
        Marks {
            first: self.first || other.first,
            second: self.second || other.second,
            keeps_first: self.keeps_first || other.keeps_first,
            keeps_second: self.keeps_second || other.keeps_second,
        }
    }
}

// The marks of a name.
fn marks_of(names: &IndexMap<String, Marks>, name: &str) -> Marks
    ensures { result ≡ unwrap_or (lookup (bytes_eq name.now) (marked_in names.now.entries)) no_marks }
{
    names.get(name).copied().unwrap_or(Marks::none())
}

/// Gives a name more marks, and answers its number. A new name goes last. There is to be room for it.
pub(crate) fn mark(names: &mut IndexMap<String, Marks>, name: String, marks: Marks) -> u16
    requires count { index_map_len names.old < 65536 }
    requires room { 0 < spare names.old }
    ensures marked { marked_in names.new.entries ≡ with_marks (marked_in names.old.entries) (string_bytes name) marks }
    ensures number { result ≡ position_or_len (bytes_eq (string_bytes name)) (names_in names.old.entries) }
    ensures spare { spare names.old ≤ spare names.new + 1 }
{
    let marks = marks_of(names, name.as_str()).joined(marks);
    let (number, _) = names.insert_full(name, marks).unwrap();
    number as u16
}
