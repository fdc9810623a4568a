ghost use Rattle.std.specs.Prelude.{◌≡◌, ◌≤◌, vec_len, vec_capacity};
ghost use Rattle.pair_search.specs.Order.{slot_at, place_of, IsRenaming};
ghost use Rattle.trip_model.specs.declared.limits.TheConstants.{MOST_SLOTS};

use crate::groups::Group;
use crate::order::Column;
use desk_io::Memory;
use std::alloc::Global;
use trip_model::MOST_SLOTS;

/// A column of no slot, with which a list begins.
pub(crate) const NOWHERE: Column = Column {
    post: None,
    minute: 0,
    slot: 0,
};

/// A group without columns, with which a list begins.
pub(crate) const EMPTY: Group = Group {
    post: None,
    from: 0,
    to: 0,
    latest: 0,
};

/// The columns of one side in their order, the place of each, and their groups, with how many there are. And the numbers by which
/// columns are sorted.
#[derive(Drop)]
pub struct Order {
    pub(crate) ranks: Vec<u64>,
    pub(crate) columns: Vec<Column>,
    pub(crate) places: Vec<u16>,
    pub(crate) groups: Vec<Group>,
    pub(crate) count: usize,
    ghost room_ranks: { MOST_SLOTS ≤ vec_capacity ranks },
    ghost room_columns: { MOST_SLOTS ≤ vec_capacity columns },
    ghost room_places: { MOST_SLOTS ≤ vec_capacity places },
    ghost room_groups: { MOST_SLOTS ≤ vec_capacity groups },
    ghost same: { vec_len places ≡ vec_len columns },
    ghost renaming: { IsRenaming (vec_len columns) (slot_at (vec_len columns) columns.items) (place_of (vec_len columns) places.items) },
}

impl Order {
    /// Takes the memory for as many columns as there may be.
    pub fn open(alloc: Global) -> Result<Order, Memory> {
        let slots = usize::from(MOST_SLOTS);
        let mut columns = vec![in alloc; NOWHERE; slots]?;
        let mut places = vec![in alloc; 0; slots]?;
        columns.clear();
        places.clear();
        Ok(Order {
            ranks: vec![in alloc; 0; slots]?,
            columns,
            places,
            groups: vec![in alloc; EMPTY; slots]?,
            count: 0,
        })
    }
}

/// The slots in the order in which their trips depart, and the place of each. And the numbers by which they are sorted.
#[derive(Drop)]
pub struct Departures {
    pub(crate) ranks: Vec<u64>,
    pub(crate) columns: Vec<Column>,
    pub(crate) places: Vec<u16>,
    ghost room_ranks: { MOST_SLOTS ≤ vec_capacity ranks },
    ghost room_columns: { MOST_SLOTS ≤ vec_capacity columns },
    ghost room_places: { MOST_SLOTS ≤ vec_capacity places },
}

impl Departures {
    /// Takes the memory for as many slots as there may be.
    pub fn open(alloc: Global) -> Result<Departures, Memory> {
        let slots = usize::from(MOST_SLOTS);
        Ok(Departures {
            ranks: vec![in alloc; 0; slots]?,
            columns: vec![in alloc; NOWHERE; slots]?,
            places: vec![in alloc; 0; slots]?,
        })
    }
}
