//! Of all least plans the one that is liked best.
//!
//! [`Likings`] tell how it is liked that one trip is next after another: as the feed states it, on the same line, and with
//! little waiting between the two. [`chosen_links`] finds the next trips of the plan that is chosen by them.
//!
//! The prices of a least plan tell which links other least plans may have: those of tight pairs. So it lists these, each with
//! what it is worth, and links what is worth most by the search of `list_search`. The prices stay, and certify the links.
//!
//! The contract that the crates above use: the links with the old prices are a certified plan, no least blocking is liked more
//! than their blocks, and they are computed from the pairs, from the likings and from the plan. Each pair that is looked at is
//! one step.
//!
//! `plan_history` shows a use, in `src/history.rt`.
//!
//! The contracts cite `Likings` (how a link is liked) and `Chosen` (the plan that is chosen), and of `assignment_model` `Choice`
//! and `Prices`. `Listing` has terms for proofs alone.
#![tactic(auto)]

mod choice;
mod likings;
mod listing;
mod start;
mod worth;

pub use choice::chosen_links;
pub use likings::Likings;
