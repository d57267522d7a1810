//! A sink of another crate, callers of the sinks, and tests.
#![tactic(auto)]

mod entry;
mod log;
mod print;
#[cfg(test)]
mod tests;
