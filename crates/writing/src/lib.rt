//! Writing a group of hunks into any sink. An inner crate: it trusts its caller for what its `requires` say.
#![tactic(auto)]

pub mod block;
pub mod desk;
pub mod ending;
pub mod group;
pub mod keep;
pub mod mark;
pub mod marks;
pub mod pen;
pub mod sides;
pub mod union;
