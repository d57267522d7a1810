//! The whole rendering, cluster by cluster, into any sink; and its length.
#![tactic(auto)]

pub mod measure;
pub mod walk;
pub mod whole;
