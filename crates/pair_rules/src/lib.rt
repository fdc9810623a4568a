//! What a planner says of pairs of trips: that a vehicle makes one straight after the other, or never.
//!
//! [`PairRules`] is a list of rules, each with the names of two trips and a [`RuleKind`]. A keep of A1 and B1 allows no other
//! trip straight after A1, and none but A1 straight before B1, because the two are to stay together. A never of A1 and B1
//! forbids this pair alone: B1 may still come later in the day of that vehicle, and A1 straight after B1 is another pair.
//!
//! [`PairRules::read`] makes them of `pairs.csv`, with the columns `before`, `after` and `rule`. A file that is not there has none.
//! A record that clashes with an earlier one is its duplicate.
//!
//! Whoever adds a rule asks [`PairRules::clashes`] and [`PairRules::has_room`] first: two rules of one pair clash, and so do two
//! keeps of one first trip, or of one second. Whoever asks for many pairs looks up each trip once, by [`PairRules::number`].
//! Then [`PairRules::allows`] answers by the two numbers, and goes over no rules. [`PairRules::marks`] says what the rules have
//! of one of them. A trip that no rule names has no number, and is asked for as `None`.
//!
//! The contract that the crates above use: the rules are a list, in the order in which they were added, and none clashes with
//! another. Those of a file are `rules_of`, or its first refusal. `allows` says of two names what the rules together say, each
//! by itself. Where memory runs out, an `add` has changed nothing.
//!
//! A law for a reader, which nothing calls: [`laws::allowed_law`].
//!
//! `src/tests.rt` shows a use.
//!
//! The contracts cite:
//!
//! - `Rules`: what a rule allows, which rules clash, and the numbers of names
//! - `Marks`: what the rules have of a name, and how they are held
//! - `Reading`: the rules of a file, record after record
#![tactic(auto)]

mod kind;
pub mod laws;
mod limits;
mod marks;
mod read;
mod rules;

pub use kind::RuleKind;
pub use limits::MOST_RULES;
pub use marks::Marks;
pub use rules::PairRules;

#[cfg(test)]
mod tests;
