ghost use Rattle.std.specs.Prelude.{◌≡◌, ℕ, ◌<◌, length, Some};
ghost use Rattle.trip_model.specs.Links.{next_of};

use crate::stand::stand_of;
use price_assign::Solver;

/// Gives each slot of a plan another next trip. The prices stay.
pub(crate) fn set_links(solver: &mut Solver, next: &[Option<u16>])
    requires count { length next.now ≡ length solver.old.next }
    requires within { (s j : ℕ) → next_of next.now s ≡ Some j → j < length next.now }
    ensures { solver.new ≡ record solver.old { next = next.now } }
{
    for slot in 0..solver.plan().links().slots() {
        let was = stand_of(solver.plan(), slot);
        solver.put(slot, next[usize::from(slot)], was.leave, was.enter);
    }
}
