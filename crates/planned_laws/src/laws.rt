//! Laws of plans as they are computed. Each is the contract of a function that does nothing, or that calls laws alone.
ghost use Rattle.std.specs.Prelude.{◌≡◌, []};
ghost use Rattle.deadhead_matrix.specs.Fitting.{allowed_network, deadhead_network, network_of};
ghost use Rattle.deadhead_matrix.specs.Matrix.{MatrixView};
ghost use Rattle.desk_feed.specs.Feed.{FeedView, standing};
ghost use Rattle.desk_feed.specs.Schedule.{IsMatrixFor};
ghost use Rattle.planned_laws.specs.Laws as spec;
ghost use Rattle.trip_model.specs.Plain.{trip_moves};
ghost use Rattle.trip_model.specs.Timetable.{slot_names};

use deadhead_matrix::laws::plan_law;
use desk_core::laws::same_edits_law;
use edit_script::laws::machine_law;
use fixed_fleet::laws::plain_blocks_law;
use trip_model::laws::plain_law;

/// A search that may begin at a row finds a plan that is matched and covered, along a path from that row.
pub fn found_law()
    ensures { spec.AreFound }
{}

/// The first plan of a timetable is least, and of all least plans it is the one that is liked best.
pub fn first_law()
    ensures { spec.AreFirst }
{}

/// A plan that may be repaired after an edit is certified after it, and links changed along the paths of the repair alone.
pub fn repaired_law()
    ensures { spec.AreAllRepaired }
{}

/// What an accepted feed says is valid, by the definitions of what its files say: its timetable, its script, its pulls and its
/// rules of pairs. So there may be plans of its timetable, with its matrix and its likings.
pub fn accepted_law()
    ensures said { spec.AreAllAccepted }
    ensures may { spec.MayAllPlan }
{}

/// After the script of a feed those trips fit that a vehicle reaches in time, as far as the rules of pairs allow them by their
/// names. Where a feed has no rules, they are those that it reaches in time.
pub fn ruled_law()
    ensures allowed { (said : FeedView) (matrix : MatrixView) → IsMatrixFor said matrix → network_of (standing said) matrix
        ≡ allowed_network said.rules (slot_names (standing said)) (deadhead_network (trip_moves (standing said).slots) matrix) }
    ensures none { (said : FeedView) (matrix : MatrixView) → IsMatrixFor said matrix → said.rules ≡ []
        → network_of (standing said) matrix ≡ deadhead_network (trip_moves (standing said).slots) matrix }
{}

/// The plans of each script are planned, for every feed that is accepted and without any run. So they are least also where a run
/// stops early, and also for a command that makes no plan.
pub fn planned_law()
    ensures each { spec.AreEachPlanned }
    ensures feed { spec.AreAllPlanned }
{
    plan_law();
    plain_law();
    plain_blocks_law();
    same_edits_law();
    machine_law();
    accepted_law();
}
