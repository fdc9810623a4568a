ghost use Rattle.std.specs.Prelude.{◌≡◌, ℕ, ◌+◌, ◌-◌, ◌<◌, ◌≤◌, length, vec_len, slice_set, IfSome, IfNone, Some};
ghost use Rattle.trip_model.specs.Links.{next_of};
ghost use Rattle.pair_search.specs.Relinking.{IsAlong, IsShifted};
ghost use Rattle.pair_search.specs.Search.{at};

use crate::grow::Grown;
use crate::limits::GREATEST_PRICE;
use crate::tree::Tree;

// A row loses so much, and the column that it is linked to gains it.
fn pass_on(row: u16, gain: u64, next: &[Option<u16>], leave: &mut [u64], enter: &mut [u64])
    requires next { length next.now ≡ length leave.old }
    requires row { row < length leave.old }
    requires gain { gain ≤ GREATEST_PRICE }
    requires enough { gain ≤ at leave.old row }
    requires column { IfSome (next_of next.now row) (λ j. (j < length enter.old) × (at enter.old j ≤ GREATEST_PRICE)) }
    ensures leave { leave.new ≡ slice_set leave.old row (at leave.old row - gain) }
    ensures some { IfSome (next_of next.now row) (λ j. enter.new ≡ slice_set enter.old j (at enter.old j + gain)) }
    ensures none { IfNone (next_of next.now row) (enter.new ≡ enter.old) }
{
    leave[row as usize] -= gain;
    if let Some(column) = next[row as usize] {
        enter[column as usize] += gain;
    }
}

/// Shifts the prices along the rows of a tree that has grown, as they fall so far from its first row.
pub(crate) fn shift(
    tree: &Tree,
    grown: Grown,
    next: &[Option<u16>],
    leave: &mut [u64],
    enter: &mut [u64],
)
    requires places { grown.size ≤ vec_len tree.now.rows }
    requires next { length next.now ≡ length leave.old }
    requires enter { length enter.old ≡ vec_len tree.now.dist }
    requires within { (i j : ℕ) → next_of next.now i ≡ Some j → j < length enter.old }
    requires low { (i j : ℕ) → next_of next.now i ≡ Some j → at enter.old j ≤ GREATEST_PRICE }
    requires fall { grown.end.fall ≤ GREATEST_PRICE }
    requires along { IsAlong next.now tree.now.dist.items tree.now.far.items tree.now.rows.items grown.size grown.end.fall }
    requires enough { (t : ℕ) → t < grown.size → grown.end.fall ≤ at tree.now.far.items t + at leave.old (at tree.now.rows.items t) }
    ensures { IsShifted (length enter.old) (at tree.now.rows.items 0) next.now tree.now.dist.items grown.end.fall leave.old enter.old
        leave.new enter.new }
{
    for place in 0..grown.size {
        let row = tree.rows[place as usize];
        let far = tree.far[place as usize];
        pass_on(row, grown.end.fall - far, next, leave, enter);
    }
}
