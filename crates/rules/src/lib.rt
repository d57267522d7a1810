//! The rules of the merge: its words as types, every rule as a definition in `specs/`, and the laws above them.
#![tactic(auto)]

pub mod ending;
pub mod hunk;
pub mod labels;
pub mod laws;
pub mod limits;
pub mod mode;
pub mod refusal;
pub mod sink;
