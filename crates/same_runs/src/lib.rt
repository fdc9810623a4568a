//! Two runs whose reads are answered the same: they write the same files, append the same lines, put the same text and answer the same
//! status.
//!
//! [`laws::same_run_law`] says this of two runs of one command. [`laws::determined_law`] says why: what was read determines the
//! outcome of each command. [`laws::same_blocks_law`] is of two commands: the blocks in `blocks.csv` are those of the boards, of
//! the chart and of the written feed.
//!
//! [`laws::headline_law`] is of one run of `blocks`: in one record it says in the subject's words what such a run promises.
//!
//! The contracts cite `Same` (what is determined, and runs that are alike), `Blocks` (the blocks of a feed), and `Fulfilled`
//! with `Headline` (what a run of `blocks` does). Of `desk_run`
//! they cite `Performs` and `Answers`, of `feed_desk` `Plans`, and of each command what it gives of a feed.
#![tactic(auto)]

pub mod laws;
