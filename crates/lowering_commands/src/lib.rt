//! The commands that look for what lowers the fleet without new trips: deadheads in chains, and shifts within tolerances.
//!
//! [`run_chains`] and [`run_shifts`] are whole runs over any shelf, sink and keeper, each of a `TextCommand` of `desk_feed`.
//! `chains` puts in the first chain of deadheads with which one vehicle less suffices, and looks again, until there is none.
//! `shifts` makes the first shift with which fewer suffice, and looks again, until there is none.
//!
//! The contract that the crates above use: a run performs what its command asks (`chains_asked`, `shifts_asked`).
//!
//! `run` of `desk_program` calls them.
//!
//! The contracts cite:
//!
//! - `Chains`, `Shifts`: what each command asks and shows
//! - `Fleet`: the sum of the maxima, and the last line
//! - of `dh_chains` `Chains`; of `shift_moves` `Lowering`
//! - of `desk_run` `Performs`; of `desk_feed` `Showing`
//!
//! `Step` has terms of the functions inside.
#![tactic(auto)]

mod chains;
mod shifts;

pub use chains::run_chains;
pub use shifts::run_shifts;
