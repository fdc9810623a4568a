//! The command that shows the deficits with the deadheads of blocks put in, and writes the running boards: `joined`.
//!
//! [`run_joined`] is a whole run over any shelf, sink and keeper, of a `NamingCommand` of `feed_naming`. It takes the plan after
//! the script. It puts the deficits of trips and deadheads together beside those of the trips alone.
//!
//! The contract that the crates above use: a run performs what `joined` asks (`joined_asked`). The blocks are least over all
//! blockings. Where there are no rules of pairs, the maxima of the joined deficits add up to the number of the blocks. Where there
//! are, they add up to no more.
//!
//! `run` of `desk_program` calls it.
//!
//! The contracts cite:
//!
//! - `Joined`: what the command asks and does
//! - of `joined_deficits` `Joined`, `Boards` and `Lines`
//! - of `feed_desk` `Drawn` and `Plans`
//! - of `feed_naming` `Commands`, and of `block_names` `Names`
//! - of `desk_run` `Performs`; of `desk_feed` `Feed`, `Judging` and `Schedule`
#![tactic(auto)]

mod joined;

pub use joined::run_joined;
