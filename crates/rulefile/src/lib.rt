//! The automata over a rule file: the dense table, the edge list, and a file of either kind.
#![tactic(auto)]

pub mod dense;
pub mod edges;
pub mod good_file;
pub mod rule_file;
pub mod table;
mod transitions;
