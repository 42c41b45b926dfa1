//! Verdicts, automata and words: what the rest of the library stands on.
#![tactic(auto)]

pub mod automaton;
pub mod closed;
pub mod number;
pub mod release;
pub mod verdict;
pub mod words;
pub mod yes_no;
