use desk_io::Text;
use edit_script::Edit;

/// The most records that a script of planners may have.
pub const MOST_PLANNER_EDITS: u32 = 4096;

/// An edit with the name of the planner who asks for it.
#[derive(Drop)]
pub struct PlannerEdit {
    pub planner: Text,
    pub edit: Edit,
}

/// A record of a script of planners: its planner and edit, or none where it is of no form.
#[derive(Drop)]
pub enum PlannerLine {
    Edit(PlannerEdit),
    NotAnEdit,
}
