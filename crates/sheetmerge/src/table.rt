//! The hunks that a table holds, listed.
use crate::words::Listed;
use hunks::table::HunkTable;
use job::outcome::Outcome;
use rules::hunk::{Hunk, Side};
use std::io;

/// Prints the hunks held, side by side.
pub fn list_held(rt: &HostRuntime, table: &HunkTable) -> io::Result<Outcome> {
    println!(rt;
        "{} of current, {} of other",
        table.count(Side::Current),
        table.count(Side::Other)
    )?;
    list_side(rt, Side::Current, table.current())?;
    list_side(rt, Side::Other, table.other())?;
    Ok(Outcome::Done)
}

fn list_side(rt: &HostRuntime, side: Side, hunks: &[Hunk]) -> io::Result<()> {
    for hunk in hunks {
        println!(rt; "{}", Listed { side, hunk: *hunk })?;
    }
    Ok(())
}
