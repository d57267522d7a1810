//! The groups of the walk: which hunks the next one takes of each side, and a side filled over a group's range.
#![tactic(auto)]

pub mod ahead;
pub mod fill;
pub mod next;
pub mod take;
mod touch;
