ghost use Rattle.std.specs.Prelude.{◌≡◌, ℕ, ◌<◌, List, length, option_map, IfSome};
ghost use Rattle.trip_model.specs.Links.{next_of};
ghost use Rattle.pair_search.specs.Search.{at};
ghost use Rattle.pair_search.specs.Side.{side_slots, side_slot, side_place};

use crate::side::Side;

// The place of a column, where there is one.
fn place_at(side: &Side<'_>, column: Option<u16>) -> Option<u16>
    requires { IfSome column (λ j. j < side_slots side.now) }
    ensures { result ≡ option_map (side_place side.now) column }
{
    let Some(column) = column else {
        return None;
    };
    Some(side.place(column))
}

// The column at a place, where there is one.
fn column_at(side: &Side<'_>, place: Option<u16>) -> Option<u16>
    requires { IfSome place (λ k. k < side_slots side.now) }
    ensures { result ≡ option_map (side_slot side.now) place }
{
    let Some(place) = place else {
        return None;
    };
    Some(side.slot(place))
}

/// Links by the places of columns.
pub(crate) fn link_places(side: &Side<'_>, next: &[Option<u16>], placed: &mut [Option<u16>])
    requires slots { length placed.old ≡ length next.now }
    requires within { (i j : ℕ) → next_of next.now i ≡ Some j → j < side_slots side.now }
    ensures { (i : ℕ) → next_of placed.new i ≡ option_map (side_place side.now) (next_of next.now i) }
{
    for row in 0..next.len() {
        placed[row] = place_at(side, next[row]);
    }
}

/// Links by the slots of columns.
pub(crate) fn link_columns(side: &Side<'_>, placed: &[Option<u16>], next: &mut [Option<u16>])
    requires slots { length next.old ≡ length placed.now }
    requires within { (i k : ℕ) → next_of placed.now i ≡ Some k → k < side_slots side.now }
    ensures { (i : ℕ) → next_of next.new i ≡ option_map (side_slot side.now) (next_of placed.now i) }
{
    for row in 0..placed.len() {
        next[row] = column_at(side, placed[row]);
    }
}

/// Prices by the places of columns.
pub(crate) fn price_places(side: &Side<'_>, enter: &[u64], entering: &mut [u64])
    requires enter { length enter.now ≡ side_slots side.now }
    requires entering { length entering.old ≡ side_slots side.now }
    ensures length { length entering.new ≡ side_slots side.now }
    ensures prices { (k : ℕ) → k < side_slots side.now → at entering.new k ≡ at enter.now (side_slot side.now k) }
{
    for place in 0..side.slots() {
        entering[place as usize] = enter[side.slot(place) as usize];
    }
}

/// Prices by the slots of columns.
pub(crate) fn price_columns(side: &Side<'_>, entering: &[u64], enter: &mut [u64])
    requires entering { length entering.now ≡ side_slots side.now }
    requires enter { length enter.old ≡ side_slots side.now }
    ensures length { length enter.new ≡ side_slots side.now }
    ensures prices { (j : ℕ) → j < side_slots side.now → at enter.new j ≡ at entering.now (side_place side.now j) }
{
    for column in 0..side.slots() {
        enter[column as usize] = entering[side.place(column) as usize];
    }
}
