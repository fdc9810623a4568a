ghost use Rattle.std.specs.Prelude.{◌≡◌, ◌≤◌, vec_len, vec_capacity, replicate, None};
ghost use Rattle.trip_model.specs.declared.limits.TheConstants.{MOST_SLOTS};

use crate::tree::Tree;
use desk_io::Memory;
use std::alloc::Global;
use trip_model::MOST_SLOTS;

/// The lists of a search by the places of columns: links and prices, for each place the row that is linked to it, and the tree.
#[derive(Drop)]
pub(crate) struct Placed {
    pub(crate) links: Vec<Option<u16>>,
    pub(crate) enter: Vec<u64>,
    pub(crate) before: Vec<Option<u16>>,
    pub(crate) tree: Tree,
    ghost room_links: { MOST_SLOTS ≤ vec_capacity links },
    ghost room_enter: { MOST_SLOTS ≤ vec_capacity enter },
    ghost room_before: { MOST_SLOTS ≤ vec_capacity before },
}

impl Placed {
    fn open(alloc: Global) -> Result<Placed, Memory> {
        let slots = usize::from(MOST_SLOTS);
        Ok(Placed {
            links: vec![in alloc; None; slots]?,
            enter: vec![in alloc; 0; slots]?,
            before: vec![in alloc; None; slots]?,
            tree: Tree::open(alloc)?,
        })
    }

    /// Lists for so many columns, without links and prices.
    pub(crate) fn set_slots(&mut self, slots: u16)
        requires { slots ≤ MOST_SLOTS }
        ensures links { self.new.links.items ≡ replicate slots None }
        ensures enter { self.new.enter.items ≡ replicate slots 0 }
        ensures before { vec_len self.new.before ≡ slots }
    {
        let slots = usize::from(slots);
        self.links.clear();
        let _ = self.links.resize(slots, None);
        self.enter.clear();
        let _ = self.enter.resize(slots, 0);
        let _ = self.before.resize(slots, None);
    }
}

/// The memory of searches, for as many slots as there may be.
#[derive(Drop)]
pub struct Lists {
    pub(crate) next: Vec<Option<u16>>,
    pub(crate) turned: Vec<Option<u16>>,
    pub(crate) placed: Placed,
    ghost room_next: { MOST_SLOTS ≤ vec_capacity next },
    ghost room_turned: { MOST_SLOTS ≤ vec_capacity turned },
}

impl Lists {
    /// Takes the memory of all lists.
    pub fn open(alloc: Global) -> Result<Lists, Memory> {
        let slots = usize::from(MOST_SLOTS);
        Ok(Lists {
            next: vec![in alloc; None; slots]?,
            turned: vec![in alloc; None; slots]?,
            placed: Placed::open(alloc)?,
        })
    }

    /// Lists of links for so many slots.
    pub(crate) fn set_slots(&mut self, slots: u16)
        requires { slots ≤ MOST_SLOTS }
        ensures next { vec_len self.new.next ≡ slots }
        ensures turned { vec_len self.new.turned ≡ slots }
    {
        let slots = usize::from(slots);
        let _ = self.next.resize(slots, None);
        let _ = self.turned.resize(slots, None);
    }
}
