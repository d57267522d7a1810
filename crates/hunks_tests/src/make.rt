//! Hunks to try, and tables that hold many.
use hunks::table::HunkTable;
use rules::hunk::{Hunk, Side, Span};

/// The hunk of a side with these two ranges, as b..e/s..t is written.
pub fn hunk(side: Side, b: u32, e: u32, s: u32, t: u32) -> Hunk {
    Hunk {
        before: Span { start: b, end: e },
        after: Span { start: s, end: t },
        side,
    }
}

/// Enters n hunks of one deleted line each, with a line between neighbours, and tells the last count that was answered.
pub fn enter_many(t: &mut HunkTable, side: Side, n: u16) -> Option<usize> {
    (0..n)
        .map(|i| 2 * u32::from(i))
        .filter_map(|start| t.enter(hunk(side, start, start + 1, 0, 0)).ok())
        .last()
}
