ghost use Rattle.std.specs.Prelude.{◌≡◌, ℕ, ◌<◌, [], slice_index_or};
ghost use Rattle.rules.specs.Hunks.{hunk_lines, sheet_of};
ghost use Rattle.rules.specs.Contraction.{read_range, hunk_size};
ghost use Rattle.reading.specs.Reading.{line_count, any_lines};
ghost use Rattle.reading.specs.Counts.{CountsStand};

use crate::three::ThreeSheets;
use rules::hunk::{Hunk, Side, Span};

/// The range that is read of a hunk.
pub fn read_range(hunk: Hunk) -> Span
    ensures { result ≡ read_range hunk.side hunk }
{
    match hunk.side {
        Side::Ancestor => hunk.before,
        Side::Current | Side::Other => hunk.after,
    }
}

/// How many lines are read of a hunk.
pub fn lines_of(hunk: Hunk) -> u32
    ensures { result ≡ hunk_size hunk }
{
    let read = read_range(hunk);
    read.end.saturating_sub(read.start)
}

/// Line `n` of the sheet that the side names, and no bytes past the last.
pub fn line_at<T: ThreeSheets>(three: &T, side: Side, n: u32) -> &[u8]
    ensures { result.now ≡ slice_index_or (sheet_of (T.sheets three.now) side) n [] }
{
    three.line_of(side, n).unwrap_or(&[])
}

/// Line `k` of a hunk.
// Stays: no crate here asks by the number of a line, but the function is public and its promise is stated nowhere else.
pub fn line_in<T: ThreeSheets>(three: &T, hunk: Hunk, k: u32) -> &[u8]
    requires { k < hunk_size hunk }
    ensures { result.now ≡ slice_index_or (hunk_lines (T.sheets three.now) hunk) k [] }
{
    line_at(three, hunk.side, read_range(hunk).start + k)
}

/// How many lines the hunks have.
pub fn count_lines(hunks: &[Hunk]) -> u32
    requires { line_count hunks.now < 4294967296 }
    ensures { result ≡ line_count hunks.now }
{
    hunks.iter().map(|hunk| lines_of(*hunk)).sum()
}

/// Whether a hunk of the list has lines.
pub fn contains_lines(hunks: &[Hunk]) -> bool
    ensures { result ≡ any_lines hunks.now }
{
    // Stays: the project fixes that this test over a filled list is a `for` over its hunks, as the one over the opposite hunks is.
    for hunk in hunks {
        if lines_of(*hunk) > 0 {
            return true;
        }
    }
    false
}

/// What `count_lines` and `contains_lines` tell of hunks is true of the lines that these stand for.
pub fn counts_stand()
    ensures { CountsStand }
{}
