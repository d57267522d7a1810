//! Tests of the sheets, with every expected value written out by hand, and a kind of sheet of this crate's own.
#![tactic(auto)]

#[cfg(test)]
mod ask;
#[cfg(test)]
mod cells;
#[cfg(test)]
mod kinds;
pub mod label;
#[cfg(test)]
mod limits;
#[cfg(test)]
mod lines;
#[cfg(test)]
mod texts;
