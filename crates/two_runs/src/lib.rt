//! Runs one after the other: `check` says yes to what `blocks` wrote, and `audit` finds least what `write` wrote.
//!
//! [`run_blocks_and_check`] is `blocks`, and then `check` over the same shelf, which says yes to what was written. [`later_law`]
//! says so of a `check` at any later time.
//! [`run_write_and_audit`] is `write`, and then `audit` over a shelf on which the written feed is laid, which finds the written
//! blocks least.
//!
//! The contracts cite `Confirmed` and `Audited`. They also cite `Blocks` of `blocks_command`, `Check` of `plan_commands`,
//! `Write` of `write_command`, and `Audit` of `audit_command`.
#![tactic(auto)]

mod audited;
mod confirmed;

pub use audited::run_write_and_audit;
pub use confirmed::{later_law, run_blocks_and_check};
