//! Shifts of trips within their tolerances after which fewer vehicles suffice without deadheads.
//!
//! [`next_shift`] answers the first shift of one trip by some minutes with which the sum of the maxima of the deficits is
//! smaller. It tries each shift on the deficits of the trips that run, and leaves them as they were. [`make_shift`] makes a
//! shift in the timetable and in these deficits, so that the next search needs no others.
//!
//! The contract that the crate above uses: the shift is the first that lowers the sum. Shifts are ordered by slot, then by the
//! number of minutes, and of one number earlier before later. Where none is answered, there is none. After a shift is made, the
//! deficits are those of the timetable with the shift.
//!
//! `lowering_commands` shows a use, in `src/shifts.rt`.
//!
//! The contracts cite `Lowering` (which shifts lower the sum, and which is the first). Of `trip_model` they cite `Timetable`,
//! `Trip`, `Deficit` and `Maximum`, and of `deficit_steps` `Holds`. `Trial` has terms of the functions inside.
#![tactic(auto)]

mod search;
mod trial;

pub use search::{Shift, make_shift, next_shift};
