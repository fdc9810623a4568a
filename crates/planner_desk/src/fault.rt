use desk_io::Memory;
use edit_script::EditFault;

/// Why a planner's record is refused.
#[derive(Clone, Copy)]
pub enum PlannerFault {
    /// The record is of no form.
    NotAnEdit,
    /// The timetable that stands refuses the edit.
    Refused(EditFault),
    /// No record of the planner stands.
    NothingToUndo,
    /// A later record of another planner, of that number, names the trip of the planner's last.
    HeldBy(u32),
    /// No memory was found.
    Memory,
}

impl From<Memory> for PlannerFault {
    ghost use Rattle.std.specs.Prelude.{◌≡◌};
    ghost use Rattle.planner_desk.specs.declared.fault.PlannerFault.TheVariants as fault;

    ghost from_gives = { λ _ refused. refused ≡ fault.Memory };

    fn from(_: Memory) -> PlannerFault {
        PlannerFault::Memory
    }
}
