ghost use Rattle.std.specs.Prelude.{◌≡◌, ℕ, ◌<◌, ◌≤◌, Bool, List, length, slice_set, Option, None, Some, IfSome, IfNone};
ghost use Rattle.assignment_model.specs.Paths.{IsPath};
ghost use Rattle.trip_model.specs.Links.{next_of, before_of, AreApart};
ghost use Rattle.pair_search.specs.Assignment.{IsMatched};
ghost use Rattle.pair_search.specs.Determined.{linked_back};
ghost use Rattle.pair_search.specs.Inverse.{IsInverse};
ghost use Rattle.pair_search.specs.Relinking.{LeadsBack, IsTightBack, IsPassing};
ghost use Rattle.pair_search.specs.Search.{at};

use crate::grow::End;

// A column that a row is linked to has it before.
fn put_before(row: u16, to: Option<u16>, before: &mut [Option<u16>])
    requires { IfSome to (λ j. j < length before.old) }
    ensures some { IfSome to (λ j. before.new ≡ slice_set before.old j (Some row)) }
    ensures none { IfNone to (before.new ≡ before.old) }
{
    if let Some(column) = to {
        before[column as usize] = Some(row);
    }
}

/// Links rows anew from where a search has ended back to its first row: each is given what the one after it had. The inverse of
/// links is kept with them.
pub fn relink(
    end: End,
    parent: &[u16],
    rows: &[u16],
    next: &mut [Option<u16>],
    before: &mut [Option<u16>],
)
    requires before { length before.old ≡ length parent.now }
    requires to { IfSome end.to (λ j. j < length parent.now) }
    requires back { LeadsBack next.old parent.now rows.now end.from }
    requires free { IfSome end.to (λ j. before_of next.old j ≡ None) }
    ensures path { IsPath (next_of next.old) (before_of next.old) (next_of next.new) (at rows.now 0) }
    ensures matched { (w : ℕ → ℕ → Option ℕ) (out : ℕ → Bool) (b : Option ℕ) (leave enter : List ℕ)
        → IsTightBack w out next.old leave enter parent.now rows.now end.from
        → IsPassing w out (at rows.now 0) b next.old leave enter (at rows.now end.from) end.to
        → IsMatched w out None b next.new leave enter }
    ensures linked { (from : List ℕ) (most : ℕ) → end.from < most
        → ((t j : ℕ) → t ≤ end.from → next_of next.old (at rows.now t) ≡ Some j → at rows.now (at parent.now j) ≡ at from j)
        → next.new ≡ linked_back from most next.old (at rows.now end.from) end.to }
    ensures inverse { AreApart next.old → IsInverse (length next.old) next.old before.old → IsInverse (length next.new) next.new before.new }
{
    let mut place = end.from;
    let mut to = end.to;
    'back: loop {
        let row = rows[place as usize];
        let had = next[row as usize];
        next[row as usize] = to;
        put_before(row, to, before);
        let Some(column) = had else {
            return;
        };
        place = parent[column as usize];
        to = Some(column);
    }
}
