ghost use Rattle.std.specs.Prelude.{◌≡◌, ◌+◌, ◌≤◌, vec_len, vec_capacity, replicate, false};
ghost use Rattle.trip_model.specs.declared.limits.TheConstants.{MOST_PLACES, MOST_SLOTS};
ghost use Rattle.pair_search.specs.declared.limits.TheConstants.{FAR, UNREACHED};

use crate::leads::{Lead, UNLED};
use crate::limits::{FAR, UNREACHED};
use desk_io::Memory;
use std::alloc::Global;
use trip_model::{MOST_PLACES, MOST_SLOTS};

/// What a search has seen of a group of columns. None that is not done is nearer than `near`. Those from a place on were reached
/// at a cost, which leaves out the pull of their post. Those before it need a row sooner than at a minute.
#[derive(Clone, Copy)]
pub(crate) struct Seen {
    pub near: u64,
    pub cost: u64,
    pub from: u16,
    pub minute: u32,
}

/// What is seen of a group before a search: no column is near, and none was reached.
pub(crate) const UNSEEN: Seen = Seen {
    near: FAR,
    cost: UNREACHED,
    from: u16::MAX,
    minute: u32::MAX,
};

/// What a search grows. Of each group: what it has seen there. Of each column: how far it is, from which place of the tree it
/// was reached, and whether it is done. Of each place of the tree: its row, and how far that is. Of each post of rows: its lead.
#[derive(Drop)]
pub(crate) struct Tree {
    pub(crate) seen: Vec<Seen>,
    pub(crate) dist: Vec<u64>,
    pub(crate) parent: Vec<u16>,
    pub(crate) done: Vec<bool>,
    pub(crate) rows: Vec<u16>,
    pub(crate) far: Vec<u64>,
    pub(crate) leads: Vec<Lead>,
    ghost parents: { vec_len parent ≡ vec_len dist },
    ghost marks: { vec_len done ≡ vec_len dist },
    ghost row_places: { vec_len rows ≡ vec_len dist + 1 },
    ghost far_places: { vec_len far ≡ vec_len dist + 1 },
    ghost room_seen: { MOST_SLOTS ≤ vec_capacity seen },
    ghost room_dist: { MOST_SLOTS ≤ vec_capacity dist },
    ghost room_parent: { MOST_SLOTS ≤ vec_capacity parent },
    ghost room_done: { MOST_SLOTS ≤ vec_capacity done },
    ghost room_rows: { MOST_SLOTS + 1 ≤ vec_capacity rows },
    ghost room_far: { MOST_SLOTS + 1 ≤ vec_capacity far },
    ghost room_leads: { MOST_PLACES ≤ vec_capacity leads },
}

impl Tree {
    /// Takes the memory for a tree of as many columns as there may be.
    pub(crate) fn open(alloc: Global) -> Result<Tree, Memory> {
        let slots = usize::from(MOST_SLOTS);
        Ok(Tree {
            seen: vec![in alloc; UNSEEN; slots]?,
            dist: vec![in alloc; FAR; slots]?,
            parent: vec![in alloc; 0; slots]?,
            done: vec![in alloc; false; slots]?,
            rows: vec![in alloc; 0; slots + 1]?,
            far: vec![in alloc; 0; slots + 1]?,
            leads: vec![in alloc; UNLED; usize::from(MOST_PLACES)]?,
        })
    }

    /// Cuts the tree down: of so many groups nothing is seen, of so many columns none is near or done, and so many posts have no lead.
    pub(crate) fn clear(&mut self, groups: usize, slots: u16, posts: u16)
        requires groups { groups ≤ MOST_SLOTS }
        requires slots { slots ≤ MOST_SLOTS }
        requires posts { posts ≤ MOST_PLACES }
        ensures seen { self.new.seen.items ≡ replicate groups (record { near = FAR; cost = UNREACHED; from = 65535; minute = 4294967295 }) }
        ensures dist { self.new.dist.items ≡ replicate slots FAR }
        ensures done { self.new.done.items ≡ replicate slots false }
        ensures leads { self.new.leads.items ≡ replicate posts (record { ready = 65535; start = 0 }) }
        ensures slots { vec_len self.new.dist ≡ slots }
    {
        let slots = usize::from(slots);
        self.seen.clear();
        let _ = self.seen.resize(groups, UNSEEN);
        self.dist.clear();
        let _ = self.dist.resize(slots, FAR);
        self.done.clear();
        let _ = self.done.resize(slots, false);
        let _ = self.parent.resize(slots, 0);
        let _ = self.rows.resize(slots + 1, 0);
        let _ = self.far.resize(slots + 1, 0);
        self.leads.clear();
        let _ = self.leads.resize(usize::from(posts), UNLED);
    }
}
