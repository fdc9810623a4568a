ghost use Rattle.std.specs.Prelude.{◌≡◌, ◌+◌, ◌++◌, ◌<◌, ◌≤◌, [], length, slice_get, vec_len, vec_capacity};
ghost use Rattle.std.specs.List.{All};
ghost use Rattle.plan_history.specs.Items.{with_stand, written, stood_before, stood_after, HasRoomFor, undone_by, redone_by, LeadsBack};
ghost use Rattle.plan_history.specs.Items.{LeadsForth};
ghost use Rattle.plan_history.specs.Stands.{changed_at, changes_upto, change_of};
ghost use Rattle.trip_model.specs.declared.limits.TheConstants.{MOST_SLOTS};

use crate::stand::{Changed, Stand, same_stand, stand_of};
use price_assign::{Plan, Solver};

/// What one edit changed: how many slots there were before and after it, and the slots that it changed, ascending.
#[derive(Drop)]
pub(crate) struct Item {
    pub before: u16,
    pub after: u16,
    pub changes: Vec<Changed>,
}

/// The stand that a slot had; None where the slot is new.
fn stood(was: &[Stand], slot: u16) -> Option<Stand>
    ensures { result ≡ slice_get was.now slot }
{
    was.get(usize::from(slot)).copied()
}

/// Appends a slot to the changes where it has not what it had.
fn note(changes: &mut Vec<Changed>, slot: u16, before: Option<Stand>, after: Stand)
    requires { vec_len changes.old < vec_capacity changes.old }
    ensures noted { changes.new.items ≡ changes.old.items ++ change_of slot before after }
    ensures count { vec_len changes.new ≤ vec_len changes.old + 1 }
    ensures capacity { vec_capacity changes.old ≤ vec_capacity changes.new }
{
    if !same_stand(before, after) {
        let _ = changes.push(Changed {
            slot,
            before,
            after,
        });
    }
}

/// The item of an edit, by the stands before it and the plan after it. The list has the memory for as many changes as the plan
/// has slots.
#[tactic(auto, using(crate::proofs::WriteLemmas::changes_more))]
pub(crate) fn item_of(was: &[Stand], plan: &Plan, mut changes: Vec<Changed>) -> Item
    requires few { length was.now ≤ MOST_SLOTS }
    requires empty { changes.items ≡ [] }
    requires room { length plan.now.next ≤ vec_capacity changes }
    ensures before { result.before ≡ length was.now }
    ensures after { result.after ≡ length plan.now.next }
    ensures changes { result.changes.items ≡ changes_upto was.now plan.now (length plan.now.next) }
{
    let slots = plan.links().slots();
    for slot in 0..slots {
        let before = stood(was, slot);
        let after = stand_of(plan, slot);
        note(&mut changes, slot, before, after);
    }
    Item {
        before: was.len() as u16,
        after: slots,
        changes,
    }
}

/// Gives a slot this stand, or leaves it.
fn write(solver: &mut Solver, slot: u16, stand: Option<Stand>)
    requires { HasRoomFor (length solver.old.next) slot stand }
    ensures { solver.new ≡ with_stand solver.old slot stand }
{
    if let Some(stand) = stand {
        solver.put(slot, stand.next, stand.leave, stand.enter);
    }
}

/// Writes the stands before an edit over a plan.
fn write_before(solver: &mut Solver, changes: &[Changed])
    requires { All (λ changed. HasRoomFor (length solver.old.next) changed.slot (stood_before changed)) changes.now }
    ensures { solver.new ≡ written stood_before solver.old changes.now }
{
    for changed in changes {
        write(solver, changed.slot, changed.before);
    }
}

/// Writes the stands after an edit over a plan.
fn write_after(solver: &mut Solver, changes: &[Changed])
    requires { All (λ changed. HasRoomFor (length solver.old.next) changed.slot (stood_after changed)) changes.now }
    ensures { solver.new ≡ written stood_after solver.old changes.now }
{
    for changed in changes {
        write(solver, changed.slot, Some(changed.after));
    }
}

/// Leads a plan back to the one before an edit: the stands before are written over it, and it is cut.
pub(crate) fn lead_back(solver: &mut Solver, item: &Item)
    requires { LeadsBack solver.old item.now }
    ensures { solver.new ≡ undone_by solver.old item.now }
{
    write_before(solver, item.changes.as_slice());
    solver.set_slots(item.before);
}

/// Leads a plan forth to the one after an edit: it is extended, and the stands after are written over it.
pub(crate) fn lead_forth(solver: &mut Solver, item: &Item)
    requires { LeadsForth solver.old item.now }
    ensures { solver.new ≡ redone_by solver.old item.now }
{
    solver.set_slots(item.after);
    write_after(solver, item.changes.as_slice());
}
