ghost use Rattle.std.specs.Prelude.{◌≡◌, ◌+◌, ◌*◌, ◌≤◌, ◌<◌, ◌++◌, ◌∷◌, [], length};
ghost use Rattle.deadhead_matrix.specs.Plans.{IsPlanFor};
ghost use Rattle.desk_core.specs.Computed.{plan_repaired};
ghost use Rattle.desk_core.specs.Repair.{IsRepairedIn, MayRepair};
ghost use Rattle.undo_log.specs.Log.{latest_items};

use deadhead_matrix::Matrix;
use desk_io::Steps;
use edit_script::Edit;
use pair_graph::Pairs;
use plan_history::PlanHistory;
use std::sync::ledger::Ledger;
use trip_model::Timetable;

/// Repairs a plan after an edit of the trip in a slot. The trip is taken out of it, added to it, or first taken out and then
/// added.
pub(crate) fn repair<L: Ledger>(
    history: &mut PlanHistory,
    timetable: &Timetable,
    matrix: &Matrix,
    edit: &Edit,
    slot: u16,
    steps: &mut Steps<L>,
)
    requires places { length timetable.now.places ≡ length matrix.now.walks }
    requires room { length history.old.plan.next < history.old.room }
    requires may { MayRepair edit.now slot timetable.now matrix.now history.old.plan }
    ensures plan { IsPlanFor timetable.now matrix.now history.new.plan }
    ensures found { history.new.plan ≡ plan_repaired edit.now slot timetable.now matrix.now history.old.plan }
    ensures links { IsRepairedIn edit.now slot history.old.plan.next history.new.plan.next }
    ensures earlier { history.new.earlier ≡ latest_items (history.old.earlier ++ history.old.plan ∷ []) }
    ensures later { history.new.later ≡ [] }
    ensures counted { let n = length timetable.now.slots in steps.new ≤ steps.old + (4 * n * n + 4 * n) }
{
    let pairs = Pairs::of(timetable, matrix);
    match edit {
        Edit::Shift { trip: _, by: _ } => {
            let without = Pairs::without(timetable, matrix, slot);
            history.replace(&without, &pairs, slot, steps);
        }
        Edit::Cancel { trip: _ } => history.take(&pairs, slot, steps),
        Edit::Restore { trip: _ } => history.add(&pairs, slot, steps),
        Edit::Extra {
            trip: _,
            from: _,
            to: _,
            departs: _,
            arrives: _,
        } => history.add(&pairs, slot, steps),
        Edit::Undo | Edit::Redo | Edit::Show => unreachable!(),
    }
}
