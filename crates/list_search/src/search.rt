ghost use Rattle.std.specs.Prelude.{◌≡◌, ℕ, ◌≤◌, Bool, false, length, Option, None, vec_len, replicate, IfOk};
ghost use Rattle.assignment_model.specs.Prices.{Plan};
ghost use Rattle.trip_model.specs.declared.limits.TheConstants.{MOST_SLOTS};
ghost use Rattle.pair_search.specs.Arranged.{slot_in, bare};
ghost use Rattle.pair_search.specs.Assignment.{AreWeights, IsMatched, Covers, MayBegin};
ghost use Rattle.pair_search.specs.Determined.{found, found_each};
ghost use Rattle.pair_search.specs.Inverse.{IsInverse};
ghost use Rattle.pair_search.specs.Order.{IsRenaming};
ghost use Rattle.pair_search.specs.declared.limits.TheConstants.{FAR};
ghost use Rattle.list_search.specs.Lists.{listed};

use crate::lists::PairLists;
use crate::tree::Tree;
use desk_io::Memory;
use pair_search::GREATEST_PRICE;
use pair_search::invert::invert;
use pair_search::relink::relink;
use std::alloc::Global;
use std::marker::Model;
use trip_model::MOST_SLOTS;

/// The memory of searches over so many rows and columns.
#[derive(Drop)]
pub struct Room {
    before: Vec<Option<u16>>,
    tree: Tree,
}

impl Model for Room {
    ghost use Rattle.std.specs.Prelude.{◌≡◌, ℕ, vec_len};

    ghost Value = { ℕ };

    ghost view = { λ r. vec_len r.tree.dist };

    ghost invariant = { λ r. vec_len r.before ≡ vec_len r.tree.dist };
}

impl Room {
    /// Takes the memory.
    pub fn open(alloc: Global, slots: u16) -> Result<Room, Memory>
        requires { slots ≤ MOST_SLOTS }
        ensures { IfOk result (λ opened. opened ≡ slots) }
    {
        Ok(Room {
            before: vec![in alloc; None; usize::from(slots)]?,
            tree: Tree::open(alloc, slots)?,
        })
    }
}

// Searches for the least fall of prices with which a row is linked, or stays alone without a price.
fn search(
    lists: &PairLists,
    a: u16,
    next: &mut [Option<u16>],
    leave: &mut [u64],
    enter: &mut [u64],
    before: &mut [Option<u16>],
    tree: &mut Tree,
)
    requires rows { length lists.now.rows ≡ lists.now.slots }
    requires next { length next.old ≡ lists.now.slots }
    requires leave { length leave.old ≡ lists.now.slots }
    requires enter { length enter.old ≡ lists.now.slots }
    requires before { length before.old ≡ lists.now.slots }
    requires inverse { IsInverse (length next.old) next.old before.old }
    requires slots { vec_len tree.old.dist ≡ lists.now.slots }
    requires dist { tree.old.dist.items ≡ replicate lists.now.slots FAR }
    requires done { tree.old.done.items ≡ replicate lists.now.slots false }
    requires sound { AreWeights (listed lists.now) lists.now.slots }
    requires begins { (out : ℕ → Bool) × MayBegin (listed lists.now) lists.now.slots out a None next.old leave.old enter.old }
    ensures inverse { IsInverse (length next.new) next.new before.new }
    ensures slots { vec_len tree.new.dist ≡ vec_len tree.old.dist }
    ensures dist { tree.new.dist.items ≡ replicate lists.now.slots FAR }
    ensures done { tree.new.done.items ≡ replicate lists.now.slots false }
    ensures matched { (out : ℕ → Bool) → MayBegin (listed lists.now) lists.now.slots out a None next.old leave.old enter.old
        → IsMatched (listed lists.now) out None None next.new leave.new enter.new }
    ensures covers { (out : ℕ → Bool) → MayBegin (listed lists.now) lists.now.slots out a None next.old leave.old enter.old
        → Covers (listed lists.now) out None leave.new enter.new }
    ensures plan { ◌≡◌ {A = Plan} (record { next = next.new; leave = leave.new; enter = enter.new })
        (found (listed lists.now) a (record { next = next.old; leave = leave.old; enter = enter.old })) }
{
    leave[a as usize] = GREATEST_PRICE;
    tree.begin(lists, a, enter);
    let grown = tree.grow(lists, a, before, leave, enter);
    relink(grown.end, &tree.parent, &tree.rows, next, before);
    tree.lower(grown.size, grown.end.fall, leave);
    tree.settle(lists, grown.size, grown.end.fall, enter);
}

// Adds one row after the other to links that link none, each by a search over the rows added so far: the last first.
fn link_rows(
    lists: &PairLists,
    rows: &[u16],
    next: &mut [Option<u16>],
    leave: &mut [u64],
    enter: &mut [u64],
    before: &mut [Option<u16>],
    tree: &mut Tree,
)
    requires rows { length lists.now.rows ≡ lists.now.slots }
    requires before { length before.old ≡ lists.now.slots }
    requires slots { vec_len tree.old.dist ≡ lists.now.slots }
    requires renaming { (turn : ℕ → ℕ) × IsRenaming lists.now.slots (slot_in rows.now) turn }
    requires all { length rows.now ≡ lists.now.slots }
    requires next { next.old ≡ replicate lists.now.slots None }
    requires leave { leave.old ≡ replicate lists.now.slots 0 }
    requires enter { enter.old ≡ replicate lists.now.slots 0 }
    ensures slots { vec_len tree.new.dist ≡ vec_len tree.old.dist }
    ensures matched { IsMatched (listed lists.now) (λ _. false) None None next.new leave.new enter.new }
    ensures covers { Covers (listed lists.now) (λ _. false) None leave.new enter.new }
    ensures plan { ◌≡◌ {A = Plan} (record { next = next.new; leave = leave.new; enter = enter.new })
        (found_each (listed lists.now) rows.now (bare lists.now.slots)) }
{
    tree.clear();
    let slots = lists.slots();
    invert(next, before);
    for added in 0..slots {
        let last = slots - 1 - added;
        let a = rows[last as usize];
        search(lists, a, next, leave, enter, before, tree);
    }
}

/// Adds one row after the other to links that link none, each by a search over the rows added so far: the last first.
pub fn link_all(
    lists: &PairLists,
    rows: &[u16],
    next: &mut [Option<u16>],
    leave: &mut [u64],
    enter: &mut [u64],
    room: &mut Room,
)
    requires rows { length lists.now.rows ≡ lists.now.slots }
    requires room { room.old ≡ lists.now.slots }
    requires renaming { (turn : ℕ → ℕ) × IsRenaming lists.now.slots (slot_in rows.now) turn }
    requires all { length rows.now ≡ lists.now.slots }
    requires next { next.old ≡ replicate lists.now.slots None }
    requires leave { leave.old ≡ replicate lists.now.slots 0 }
    requires enter { enter.old ≡ replicate lists.now.slots 0 }
    ensures room { room.new ≡ room.old }
    ensures matched { IsMatched (listed lists.now) (λ _. false) None None next.new leave.new enter.new }
    ensures covers { Covers (listed lists.now) (λ _. false) None leave.new enter.new }
    ensures plan { ◌≡◌ {A = Plan} (record { next = next.new; leave = leave.new; enter = enter.new })
        (found_each (listed lists.now) rows.now (bare lists.now.slots)) }
{
    let before = room.before.as_mut_slice();
    link_rows(lists, rows, next, leave, enter, before, &mut room.tree);
}
