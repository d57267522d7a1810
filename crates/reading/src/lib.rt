//! Hunks read from three sheets: their lines, what two lists of hunks share, and the line endings that they show.
#![tactic(auto)]

mod cursor;
pub mod ending;
pub mod hunk;
pub mod shared;
pub mod three;
