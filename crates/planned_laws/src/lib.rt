//! The plans of a script are planned for every accepted feed, whatever runs.
//!
//! Laws for a reader, which no command calls: [`laws::found_law`], [`laws::first_law`], [`laws::repaired_law`],
//! [`laws::accepted_law`], [`laws::ruled_law`] and [`laws::planned_law`]. Each is the contract of a function that does nothing, or
//! that calls laws alone.
//!
//! The contracts cite `Laws`; of `deadhead_matrix` `Fitting` and `Matrix`, of `desk_feed` `Feed`, `Schedule` and `Script`, of
//! `feed_likings` `Likings`, of `feed_desk` `Plans`, of `desk_core` `Computed` and `Repair`, and of `pair_search` `Assignment` and
//! `Determined`.
#![tactic(auto)]

pub mod laws;
