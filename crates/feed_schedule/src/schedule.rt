ghost use Rattle.std.specs.Prelude.{◌≡◌, ◌+◌, ◌*◌, ◌≤◌, ◌<◌, length, All, IfOk};
ghost use Rattle.deadhead_matrix.specs.Plans.{IsScheduled};

use block_build::{Blocks, blocks_of};
use deadhead_matrix::Matrix;
use deadhead_matrix::laws::plan_law;
use desk_io::{Memory, Steps};
use pair_graph::Pairs;
use pair_search::Looks;
use price_assign::Solver;
use std::alloc::Global;
use std::sync::ledger::Ledger;
use trip_model::Timetable;

/// A plan, and the blocks along its links.
pub struct Schedule {
    pub solver: Solver,
    pub blocks: Blocks,
}

impl Drop for Schedule {
    fn drop(self) {
        let Self {
            solver: _,
            blocks: _,
        } = self;
    }
}

/// A plan for a timetable and the matrix over its places, which its prices prove, and its blocks, which are least.
pub fn schedule_of<L: Ledger>(
    alloc: Global,
    timetable: &Timetable,
    matrix: &Matrix,
    steps: &mut Steps<L>,
) -> Result<Schedule, Memory>
    requires { length timetable.now.places ≡ length matrix.now.walks }
    ensures scheduled { IfOk result (λ schedule. IsScheduled timetable.now matrix.now schedule.solver schedule.blocks) }
    ensures within { IfOk result (λ schedule. All (All (λ s. s < length timetable.now.slots)) schedule.blocks) }
    ensures counted { let n = length timetable.now.slots in steps.new ≤ steps.old + (n * n * n + n * n) }
{
    plan_law();
    // Their clauses say that the timetable is valid and that no pull is longer than a day.
    let _slots = timetable.slots();
    let _places = matrix.places();
    let mut solver = Solver::open(alloc)?;
    solver.solve(&Pairs::of(timetable, matrix), &mut Looks::new(), steps);
    let blocks = blocks_of(alloc, timetable, solver.plan().links())?;
    Ok(Schedule { solver, blocks })
}
