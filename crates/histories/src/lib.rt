//! Reads lines of text as histories, follows them through an automaton, and tells what came of them.
#![tactic(auto)]

mod letters;
pub mod line;
pub mod outcome;
pub mod report;
pub mod step;
pub mod tally;
pub mod token;
pub mod walk;
