//! What the libraries answer a caller, and what a run leaves where a call fails, tried on small feeds. No crate uses this one.
#![tactic(auto)]

#[cfg(test)]
mod fault_tests;
#[cfg(test)]
mod tests;
