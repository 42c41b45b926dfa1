//! The rule file's format: what its bytes hold, what can be wrong with them, and what they mean.
#![tactic(auto)]

pub mod fault;
pub mod format;
pub mod notes;
pub mod reading;
