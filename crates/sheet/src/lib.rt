//! Sheets: fixed lists of lines, kept as a text with a table of line starts or in cells of 48 bytes.
#![tactic(auto)]

pub mod cells;
pub mod line;
pub mod lines;
pub mod refusal;
pub mod sheet;
pub mod split;
pub mod text;
pub mod total;
