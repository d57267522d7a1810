//! Size and render: the merge of three sheets by the hunks that a table holds, into any sink.
#![tactic(auto)]

mod asking;
pub mod render;
pub mod run;
pub mod units;

// The three sheets that the calls are handed, for callers that name no inner crate.
pub use reading::three::{Sheets, ThreeSheets, sheets_of};
