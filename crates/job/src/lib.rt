//! A job: its commands as they are read and spelled, and how their outcomes are summed up.
#![tactic(auto)]

pub mod command;
pub mod escape;
pub mod lines;
pub mod names;
pub mod outcome;
pub mod read;
pub mod spell;
#[cfg(test)]
mod tests;
