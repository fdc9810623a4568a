//! Chains of deadheads with which fewer vehicles suffice.
//!
//! A deadhead is a vehicle that runs empty from one place to another, along a least walk. [`next_chain`] answers the first
//! chain of one to three of them. With a chain the sum of the maxima of the deficits is smaller by one:
//!
//! - The first deadhead arrives at a place where a vehicle is missing, at the first minute of its maximum.
//! - Each further one arrives where the one before it left, when that place is next at its maximum.
//! The chain ends where that place is not at its maximum any more.
//!
//! [`add_chain`] adds the deadheads of a chain to the deficits as moves, and [`chain_line`] prints it.
//!
//! The contract that the crate above uses: the chain is the first. Chains are ordered by the place where the first deadhead
//! arrives, then by those that the deadheads leave, one after the other. Where none is answered, there is none. With the
//! deadheads added, the sum of the maxima is smaller by exactly one ([`laws::chain_law`]).
//!
//! `lowering_commands` shows a use, in `src/chains.rt`.
//!
//! The contracts cite:
//!
//! - `Chains`: which chains there are, and which is the first
//! - `Lines`: the printed line
//! - of `deficit_steps` `Changes`, `Holds` and `NextMaximum`
//! - of `deadhead_matrix` `Matrix`; of `trip_model` `Deficit` and `Maximum`
//!
//! `Search` and `Ends` have the terms of the search for proofs alone.
#![tactic(auto)]

mod add;
mod chain;
mod ends;
pub mod laws;
mod lines;
mod search;

pub use add::add_chain;
pub use chain::{Chain, Deadhead};
pub use lines::chain_line;
pub use search::next_chain;
