//! Pieces, and the sinks that they are given to.
#![tactic(auto)]

pub mod meter;
pub mod page;
pub mod piece;
pub mod refusal;
pub mod row;
pub mod run;
pub mod sink;
pub mod tally;
