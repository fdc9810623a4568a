ghost use Rattle.std.specs.Prelude.{◌≡◌, ℕ, ◌+◌, ◌<◌, ◌≤◌, nat_lt, false, All, Option, None, length, map, slice_index_or, IfSome};
ghost use Rattle.std.specs.Prelude.{vec_len, vec_capacity};
ghost use Rattle.std.specs.List.Sorted.{IsNonDecreasing, IsNonDecreasingBy, IsPermutation};
ghost use Rattle.trip_model.specs.declared.limits.TheConstants.{LAST_MINUTE, MOST_SLOTS};
ghost use Rattle.pair_search.specs.Arranged as arranged_spec;
ghost use Rattle.pair_search.specs.Arranged.{arranged, column_of, departing, slots_of, AreInOrder, IsRank};
ghost use Rattle.pair_search.specs.Groups.{IsOrderOf};
ghost use Rattle.pair_search.specs.Order as spec;
ghost use Rattle.pair_search.specs.Order.{slot_at, place_of, IsOrder, IsRenaming};
ghost use Rattle.pair_search.specs.Side.{pairs_minute, pairs_post};

use crate::groups::find_groups;
use crate::orders::{Departures, EMPTY, NOWHERE, Order};
use pair_graph::Pairs;
use trip_model::{LAST_MINUTE, Move};

// So many columns are looked through in a shorter time than they are halved.
const FEW: u16 = 16;

// Ranks are moved by so many places on average, before they are sorted anew.
const MOVES: usize = 8;

/// A column of a search: where its trip begins or, seen from the entering side, ends. Then the minute by which a row that is
/// linked to it must be ready, and its slot. No row is linked to one without a post.
#[derive(Clone, Copy)]
pub struct Column {
    pub post: Option<u16>,
    pub minute: u16,
    pub slot: u16,
}

// One number that tells the place of a slot's column among the others. Those without a post come first. The others are in order
// by post, then by minute.
fn column_rank(post: Option<u16>, minute: u16, slot: u16) -> u64
    ensures rank { result ≡ arranged_spec.column_rank post minute slot }
    ensures within { IsRank result }
    ensures column { column_of result ≡ record { post = post; minute = minute; slot = slot } }
{
    let within = u64::from(minute) * 65_536 + u64::from(slot);
    let Some(post) = post else {
        return within;
    };
    (u64::from(post) + 1) * 4_294_967_296 + within
}

// The column that has a rank.
fn ranked(rank: u64) -> Column
    requires { IsRank rank }
    ensures { result ≡ column_of rank }
{
    let key = rank / 4_294_967_296;
    let post = if key == 0 {
        None
    } else {
        Some((key - 1) as u16)
    };
    Column {
        post,
        minute: (rank / 65_536 % 65_536) as u16,
        slot: (rank % 65_536) as u16,
    }
}

// The minute by which a row that is linked to this trip's column must be ready.
fn column_minute(turned: bool, made: Option<Move>) -> u16
    requires { IfSome made (λ m. m.arrives ≤ LAST_MINUTE) }
    ensures { result ≡ spec.column_minute turned made }
{
    let Some(made) = made else {
        return 0;
    };
    if turned {
        LAST_MINUTE - made.arrives
    } else {
        made.leaves
    }
}

// The post of this trip's column, unless its slot is left out or a keep has it.
fn column_post(
    turned: bool,
    without: Option<u16>,
    kept: bool,
    slot: u16,
    made: Option<Move>,
) -> Option<u16>
    ensures { result ≡ spec.column_post turned without kept slot made }
{
    let made = made?;
    if kept || without == Some(slot) {
        return None;
    }
    Some(if turned { made.to } else { made.from })
}

// Adds the column of one more slot behind the others.
fn add_slot(columns: &mut Vec<Column>, places: &mut Vec<u16>)
    requires few { vec_len columns.old < MOST_SLOTS }
    requires columns { MOST_SLOTS ≤ vec_capacity columns.old }
    requires places { MOST_SLOTS ≤ vec_capacity places.old }
    requires same { vec_len places.old ≡ vec_len columns.old }
    requires renaming { IsRenaming (vec_len columns.old) (slot_at (vec_len columns.old) columns.old.items)
        (place_of (vec_len columns.old) places.old.items) }
    ensures columns { (vec_len columns.new ≡ vec_len columns.old + 1) × (MOST_SLOTS ≤ vec_capacity columns.new) }
    ensures places { (vec_len places.new ≡ vec_len columns.old + 1) × (MOST_SLOTS ≤ vec_capacity places.new) }
    ensures renaming { IsRenaming (vec_len columns.old + 1) (slot_at (vec_len columns.old + 1) columns.new.items)
        (place_of (vec_len columns.old + 1) places.new.items) }
{
    let slot = columns.len() as u16;
    columns.push_reserved(Column {
        post: None,
        minute: 0,
        slot,
    });
    places.push_reserved(slot);
}

// Makes the columns those of so many slots. They keep their order, and those of new slots stand behind them. Where there were
// more, all stand by their slots.
fn set_slots(columns: &mut Vec<Column>, places: &mut Vec<u16>, slots: usize)
    requires few { slots ≤ MOST_SLOTS }
    requires columns { MOST_SLOTS ≤ vec_capacity columns.old }
    requires places { MOST_SLOTS ≤ vec_capacity places.old }
    requires same { vec_len places.old ≡ vec_len columns.old }
    requires renaming { IsRenaming (vec_len columns.old) (slot_at (vec_len columns.old) columns.old.items)
        (place_of (vec_len columns.old) places.old.items) }
    ensures columns { (vec_len columns.new ≡ slots) × (MOST_SLOTS ≤ vec_capacity columns.new) }
    ensures places { (vec_len places.new ≡ slots) × (MOST_SLOTS ≤ vec_capacity places.new) }
    ensures renaming { IsRenaming slots (slot_at slots columns.new.items) (place_of slots places.new.items) }
{
    if columns.len() > slots {
        columns.clear();
        places.clear();
    }
    'slots: while columns.len() < slots {
        add_slot(columns, places);
    }
}

// The rank of the column of a slot.
fn slot_rank(pairs: &Pairs<'_>, turned: bool, without: Option<u16>, slot: u16) -> u64
    requires { slot < length pairs.now.moves }
    ensures within { IsRank result }
    ensures column { column_of result
        ≡ record { post = pairs_post pairs.now turned without slot; minute = pairs_minute pairs.now turned slot; slot = slot } }
{
    let made = pairs.move_at(slot);
    let kept = pairs.is_kept(turned, slot);
    let post = column_post(turned, without, kept, slot, made);
    let minute = column_minute(turned, made);
    column_rank(post, minute, slot)
}

// The ranks of columns, which stand in some order.
fn list_ranks(
    pairs: &Pairs<'_>,
    turned: bool,
    without: Option<u16>,
    columns: &[Column],
    ranks: &mut [u64],
)
    requires columns { length columns.now ≡ length pairs.now.moves }
    requires ranks { length ranks.old ≡ length pairs.now.moves }
    requires within { (k : ℕ) → k < length columns.now → slot_at (length columns.now) columns.now k < length columns.now }
    ensures within { All IsRank ranks.new }
    ensures columns { (k : ℕ) (d : _) → k < length ranks.new → let j = slot_at (length ranks.new) columns.now k in
        column_of (slice_index_or ranks.new k d)
        ≡ record { post = pairs_post pairs.now turned without j; minute = pairs_minute pairs.now turned j; slot = j } }
{
    for place in 0..columns.len() {
        ranks[place] = slot_rank(pairs, turned, without, columns[place].slot);
    }
}

// The ranks of slots, which stand in some order, as columns that stand nowhere, by when their trips depart.
fn list_departures(pairs: &Pairs<'_>, columns: &[Column], ranks: &mut [u64])
    requires columns { length columns.now ≡ length pairs.now.moves }
    requires ranks { length ranks.old ≡ length pairs.now.moves }
    requires within { (k : ℕ) → k < length columns.now → slot_at (length columns.now) columns.now k < length columns.now }
    ensures within { All IsRank ranks.new }
    ensures columns { (k : ℕ) (d : _) → k < length ranks.new → let j = slot_at (length ranks.new) columns.now k in
        column_of (slice_index_or ranks.new k d) ≡ record { post = None; minute = pairs_minute pairs.now false j; slot = j } }
{
    for place in 0..columns.len() {
        let slot = columns[place].slot;
        let minute = column_minute(false, pairs.move_at(slot));
        ranks[place] = column_rank(None, minute, slot);
    }
}

// Moves a rank before those in front of it that are greater, by so many places at the most. It answers how many are left.
fn sink(ranks: &mut [u64], place: usize, most: usize) -> usize
    requires { place < length ranks.old }
    ensures { IsPermutation ranks.old ranks.new }
{
    let first = place.saturating_sub(most);
    let mut at = place;
    while at > first && ranks[at] < ranks[at - 1] {
        ranks.swap(at - 1, at);
        at -= 1;
    }
    most - (place - at)
}

// Moves ranks that stand behind greater ones, as far as they are few.
fn mend(ranks: &mut [u64])
    requires { length ranks.old ≤ MOST_SLOTS }
    ensures { IsPermutation ranks.old ranks.new }
{
    let mut left = ranks.len() * MOVES;
    for place in 1..ranks.len() {
        left = sink(ranks, place, left);
    }
}

// Sorts ranks. Those of a search are mostly in order, since few trips have changed since the last one. Once the others have been
// moved, the sort finds all in order.
fn sort(ranks: &mut [u64])
    requires { length ranks.old ≤ MOST_SLOTS }
    ensures permutation { IsPermutation ranks.old ranks.new }
    ensures sorted { IsNonDecreasing ranks.new }
{
    mend(ranks);
    ranks.sort_unstable();
}

// The columns that have ranks.
fn list_columns(ranks: &[u64], columns: &mut [Column])
    requires count { length columns.old ≡ length ranks.now }
    requires within { All IsRank ranks.now }
    ensures { columns.new ≡ map column_of ranks.now }
{
    for place in 0..ranks.len() {
        columns[place] = ranked(ranks[place]);
    }
}

// The places of columns in their order.
fn number_places(columns: &[Column], places: &mut [u16])
    requires count { length columns.now ≡ length places.old }
    requires few { length places.old ≤ MOST_SLOTS }
    requires within { (k : ℕ) → k < length places.old → slot_at (length places.old) columns.now k < length places.old }
    requires apart { (h k : ℕ) → h < length places.old → k < length places.old
        → slot_at (length places.old) columns.now h ≡ slot_at (length places.old) columns.now k → h ≡ k }
    ensures { (k : ℕ) → k < length places.old → place_of (length places.old) places.new (slot_at (length places.old) columns.now k) ≡ k }
{
    for place in 0..columns.len() {
        let slot = columns[place].slot;
        places[slot as usize] = place as u16;
    }
}

// Puts columns into order by post, of which the ranks are listed as they stand. Those of one post are ordered by their minutes,
// and those of one minute by their slots.
fn put_in_order(ranks: &mut [u64], columns: &mut [Column], places: &mut [u16])
    requires columns { length columns.old ≡ length ranks.old }
    requires places { length places.old ≡ length ranks.old }
    requires few { length ranks.old ≤ MOST_SLOTS }
    requires within { All IsRank ranks.old }
    requires renaming { IsRenaming (length ranks.old) (slot_at (length ranks.old) columns.old) (place_of (length ranks.old) places.old) }
    requires slots { (k : ℕ) (d : _) → k < length ranks.old
        → (column_of (slice_index_or ranks.old k d)).slot ≡ slot_at (length ranks.old) columns.old k }
    ensures numbered { (minute : ℕ → ℕ) (post : ℕ → Option ℕ)
        → ((k : ℕ) (d : _) → k < length ranks.old → let j = slot_at (length ranks.old) columns.old k in
        column_of (slice_index_or ranks.old k d) ≡ record { post = post j; minute = minute j; slot = j })
        → IsOrder (length ranks.old) minute post columns.new places.new }
    ensures sorted { AreInOrder (length ranks.old) columns.new }
{
    sort(ranks);
    list_columns(ranks, columns);
    number_places(columns, places);
}

// Puts the columns of a search into order: those of one post together, in the order of their minutes.
fn arrange(
    pairs: &Pairs<'_>,
    turned: bool,
    without: Option<u16>,
    ranks: &mut [u64],
    columns: &mut [Column],
    places: &mut [u16],
)
    requires ranks { length ranks.old ≡ length pairs.now.moves }
    requires columns { length columns.old ≡ length pairs.now.moves }
    requires places { length places.old ≡ length pairs.now.moves }
    requires renaming { IsRenaming (length pairs.now.moves) (slot_at (length pairs.now.moves) columns.old)
        (place_of (length pairs.now.moves) places.old) }
    ensures order { IsOrder (length pairs.now.moves) (pairs_minute pairs.now turned) (pairs_post pairs.now turned without) columns.new
        places.new }
    ensures slots { slots_of columns.new ≡ arranged pairs.now turned without }
{
    // Its clause says how many there may be.
    let _slots = pairs.slots();
    list_ranks(pairs, turned, without, columns, ranks);
    put_in_order(ranks, columns, places);
}

// Puts the slots into the order in which their trips depart.
fn arrange_departures(
    pairs: &Pairs<'_>,
    ranks: &mut [u64],
    columns: &mut [Column],
    places: &mut [u16],
)
    requires ranks { length ranks.old ≡ length pairs.now.moves }
    requires columns { length columns.old ≡ length pairs.now.moves }
    requires places { length places.old ≡ length pairs.now.moves }
    requires renaming { IsRenaming (length pairs.now.moves) (slot_at (length pairs.now.moves) columns.old)
        (place_of (length pairs.now.moves) places.old) }
    ensures count { length columns.new ≡ length pairs.now.moves }
    ensures renaming { IsRenaming (length pairs.now.moves) (slot_at (length pairs.now.moves) columns.new)
        (place_of (length pairs.now.moves) places.new) }
    ensures slots { slots_of columns.new ≡ departing pairs.now }
{
    // Its clause says how many there may be.
    let _slots = pairs.slots();
    list_departures(pairs, columns, ranks);
    put_in_order(ranks, columns, places);
}

impl Order {
    /// Puts the columns of one side of pairs into order, and finds their groups. Of one post they are in the order of their minutes,
    /// and of one minute in that of their slots. It starts from the order of the last call, which is mostly the same.
    pub fn arrange(&mut self, pairs: &Pairs<'_>, turned: bool, without: Option<u16>)
        ensures { IsOrderOf pairs.now turned without self.new }
    {
        let slots = usize::from(pairs.slots());
        let _ = self.ranks.resize(slots, 0);
        let _ = self.groups.resize(slots, EMPTY);
        set_slots(&mut self.columns, &mut self.places, slots);
        arrange(
            pairs,
            turned,
            without,
            &mut self.ranks,
            &mut self.columns,
            &mut self.places,
        );
        self.count = find_groups(&self.columns, &mut self.groups);
    }
}

impl Departures {
    /// Puts the slots into the order in which their trips depart. Those of one minute are in the order of their numbers.
    pub fn arrange(&mut self, pairs: &Pairs<'_>) -> &[Column]
        ensures count { length result.now ≡ length pairs.now.moves }
        ensures renaming { (place : ℕ → ℕ) × IsRenaming (length pairs.now.moves) (slot_at (length pairs.now.moves) result.now) place }
        ensures slots { slots_of result.now ≡ departing pairs.now }
    {
        let slots = usize::from(pairs.slots());
        let _ = self.ranks.resize(slots, 0);
        self.columns.clear();
        self.places.clear();
        set_slots(&mut self.columns, &mut self.places, slots);
        arrange_departures(pairs, &mut self.ranks, &mut self.columns, &mut self.places);
        self.columns.as_slice()
    }
}

// How many columns at the front need a row sooner than at a minute.
fn columns_before(columns: &[Column], minute: u16) -> usize
    requires { IsNonDecreasingBy (λ c. c.minute) columns.now }
    ensures within { result ≤ length columns.now }
    ensures before { (k : ℕ) (d : _) → k < result → (slice_index_or columns.now k d).minute < minute }
    ensures after { (k : ℕ) (d : _) → result ≤ k → k < length columns.now → minute ≤ (slice_index_or columns.now k d).minute }
{
    columns.partition_point(
        |column| -> bool
            ensures { result ≡ nat_lt column.now.minute minute }
        { column.minute < minute },
    )
}

// The first column between two places that needs a row no sooner than at a minute, where they are few; the second place where
// none does.
fn first_of_few(columns: &[Column], from: u16, upto: u16, minute: u16) -> u16
    requires within { upto ≤ length columns.now }
    requires rise { (h k : ℕ) (d : _) → from ≤ h → h ≤ k → k < upto
        → (slice_index_or columns.now h d).minute ≤ (slice_index_or columns.now k d).minute }
    ensures within { result ≤ upto }
    ensures after { result < upto → from ≤ result }
    ensures before { (k : ℕ) (d : _) → from ≤ k → k < result → (slice_index_or columns.now k d).minute < minute }
    ensures later { (k : ℕ) (d : _) → from ≤ k → result ≤ k → k < upto → minute ≤ (slice_index_or columns.now k d).minute }
{
    for first in from..upto {
        if columns[first as usize].minute >= minute {
            return first;
        }
    }
    upto
}

/// The first column between two places that needs a row no sooner than at a minute; the second place where none does. The last
/// column needs it latest, so one comparison tells whether there is any.
pub(crate) fn first_from(columns: &[Column], from: u16, upto: u16, minute: u16) -> u16
    requires within { upto ≤ length columns.now }
    requires rise { (h k : ℕ) (d : _) → from ≤ h → h ≤ k → k < upto
        → (slice_index_or columns.now h d).minute ≤ (slice_index_or columns.now k d).minute }
    ensures within { result ≤ upto }
    ensures after { result < upto → from ≤ result }
    ensures before { (k : ℕ) (d : _) → from ≤ k → k < result → (slice_index_or columns.now k d).minute < minute }
    ensures later { (k : ℕ) (d : _) → from ≤ k → result ≤ k → k < upto → minute ≤ (slice_index_or columns.now k d).minute }
{
    if upto <= from || columns[upto as usize - 1].minute < minute {
        return upto;
    }
    if upto - from <= FEW {
        return first_of_few(columns, from, upto, minute);
    }
    from + columns_before(&columns[from as usize..upto as usize], minute) as u16
}
