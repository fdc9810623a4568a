//! The settings of a desk. They say which services are selected, or on which date they run. They also have classes of vehicles,
//! layovers, tolerances, the prefix of block names, and the terminals of stops.
//!
//! [`Settings::read`] makes them of three files, each as it was found: `desk.toml`, `terminals.csv`, `tolerances.csv`. A
//! file that is not there has no entries. Look-ups by name take time that hardly grows with the number of entries.
//!
//! Where there is a date ([`Settings::date`]), [`Settings::keep_services`] selects the services that run on it.
//! [`chosen_in`] says which records of `trips.txt` are selected. [`Settings::prefer`] is what a planner prefers among plans
//! that are equally good.
//!
//! [`Names`] are names without repeats, each with its number.
//!
//! The contract that the crates above use: the settings are a function of the three files, `settings_of`, or its first refusal.
//! Each call answers by the definition of its name. Layovers are at most 240 minutes, and tolerances at most 60. The keys of
//! `desk.toml` are judged in byte order, since those of a document ascend (`laws`).
//!
//! Laws for a reader, which nothing calls: [`laws::first_bad_key_law`].
//!
//! `desk_feed` shows a use, in `src/feed.rt`.
//!
//! The contracts cite:
//!
//! - `Settings`: what the settings are seen as, and what they answer
//! - `Desk`: the table of `desk.toml`, key after key
//! - `Terminals`, `Tolerances`: the two tables, record after record
//! - `Names`: names without repeats
//! - `Prefer`: what is preferred among plans that are equally good
//! - `Selected`: which records of `trips.txt` are selected, and their fields
//! - of `gtfs_tables` `Entries`
#![tactic(auto)]

mod class;
mod date;
mod desk;
pub mod laws;
mod minutes;
mod names;
mod prefer;
mod selected;
mod settings;
mod terminals;
mod tolerances;

pub use desk::{MOST_CLASS, MOST_PREFIX};
pub use names::Names;
pub use prefer::{Preference, Preferences};
pub use selected::chosen_in;
pub use settings::Settings;
