ghost use Rattle.std.specs.Prelude.{◌≡◌, ◌<◌, ◌≤◌, length, vec_len, vec_capacity};
ghost use Rattle.plan_history.specs.Stands.{stand_at, stands, same_stand};
ghost use Rattle.trip_model.specs.declared.limits.TheConstants.{MOST_SLOTS};

use price_assign::Plan;

/// What a plan has for one slot: the trip that its vehicle makes next, and the prices of leaving and of entering its trip.
#[derive(Clone, Copy, Drop)]
pub struct Stand {
    pub next: Option<u16>,
    pub leave: u64,
    pub enter: u64,
}

/// A slot whose stand an edit changed: its stand before, None where the slot is new, and its stand after.
#[derive(Clone, Copy, Drop)]
pub struct Changed {
    pub slot: u16,
    pub before: Option<Stand>,
    pub after: Stand,
}

/// What a plan has for a slot.
pub(crate) fn stand_of(plan: &Plan, slot: u16) -> Stand
    requires { slot < length plan.now.next }
    ensures { result ≡ stand_at plan.now slot }
{
    Stand {
        next: plan.links().next(slot),
        leave: plan.leave()[usize::from(slot)],
        enter: plan.enter()[usize::from(slot)],
    }
}

/// Whether a slot has what it had. One that is new has not.
pub(crate) fn same_stand(before: Option<Stand>, after: Stand) -> bool
    ensures { result ≡ same_stand before after }
{
    match before {
        None => false,
        Some(before) => {
            before.next == after.next && before.leave == after.leave && before.enter == after.enter
        }
    }
}

/// Copies what a plan has for each slot. The list has the memory for as many as there may be.
#[tactic(auto, using(crate::proofs::WriteLemmas::stands_more))]
pub(crate) fn copy_stands(plan: &Plan, copied: &mut Vec<Stand>)
    requires { MOST_SLOTS ≤ vec_capacity copied.old }
    ensures stands { copied.new.items ≡ stands plan.now }
    ensures capacity { MOST_SLOTS ≤ vec_capacity copied.new }
{
    copied.clear();
    for slot in 0..plan.links().slots() {
        let _ = copied.push(stand_of(plan, slot));
    }
}
