//! Which services run on a date, as `calendar.txt` and `calendar_dates.txt` of a feed say.
//!
//! [`read_date`] makes a date of a text. [`running`] gives the services that run on a date, of the two files, each as it
//! was found; one of them may be missing.
//!
//! The contract that the crates above use: a date is eight digits of a day that the calendar of `jiff` has. The answer is
//! exactly the services that run on the date, each once, in byte order; or the first refusal of the two files.
//!
//! Laws for a reader, which nothing calls: [`laws::date_law`].
//!
//! `desk_feed` shows a use, in `src/feed.rt`.
//!
//! The contracts cite:
//!
//! - `Dates`: dates and their weekdays
//! - `Calendar`: the schedules, record after record
//! - `CalendarDates`: the exceptions, record after record
//! - `Services`: the services that run
//! - `Laws`: a number is taken for a date exactly where `jiff` has its day; the services are exactly those that run
#![tactic(auto)]

mod calendar;
mod calendar_dates;
mod date;
pub mod laws;
mod services;

pub use date::read_date;
pub use services::running;
