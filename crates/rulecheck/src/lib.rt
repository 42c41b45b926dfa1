//! The check of a rule file.
#![tactic(auto)]

pub mod check;
mod parts;
mod tail;
