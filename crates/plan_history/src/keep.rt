ghost use Rattle.std.specs.Prelude.{◌≡◌, ◌≤◌, [], length, vec_capacity};
ghost use Rattle.plan_history.specs.Items.{IsNoted};
ghost use Rattle.trip_model.specs.declared.limits.TheConstants.{MOST_SLOTS};

use crate::item::{Item, item_of};
use crate::stand::{Changed, Stand};
use price_assign::Plan;
use std::alloc::Global;
use std::mem;
use undo_log::Log;

/// Keeps an edit, by the stands before it and the plan after it, in the memory that was taken for it. What was undone can no
/// longer be redone, and where 256 edits are kept the oldest is forgotten.
pub(crate) fn keep(
    alloc: Global,
    was: &[Stand],
    plan: &Plan,
    spare: &mut Vec<Changed>,
    log: &mut Log<Item>,
)
    requires few { length was.now ≤ MOST_SLOTS }
    requires empty { spare.old.items ≡ [] }
    requires room { length plan.now.next ≤ vec_capacity spare.old }
    ensures spare { spare.new.items ≡ [] }
    ensures noted { IsNoted log.old log.new was.now plan.now }
{
    let changes = mem::replace(spare, Vec::new(alloc));
    let item = item_of(was, plan, changes);
    let _forgotten = log.push(item);
}
