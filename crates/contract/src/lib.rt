//! Contraction: the equal lines at both ends leave the two sides of a group.
#![tactic(auto)]

pub mod cut;
pub mod list;
pub mod place;
pub mod zealous;
