//! The hunks held of two sheets against their ancestor.
#![tactic(auto)]

pub mod list;
pub mod run;
pub mod table;
