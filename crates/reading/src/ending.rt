ghost use Rattle.std.specs.Prelude.{◌≡◌, ℕ, ◌<◌};
ghost use Rattle.rules.specs.Hunks.{sheet_of};
ghost use Rattle.rules.specs.Endings.{by_second_last, ends_in_newline, ending_before, ending_of};
ghost use Rattle.reading.specs.Reading.{range_ending};

use crate::hunk::line_at;
use crate::three::ThreeSheets;
use rules::ending::Ending;
use rules::hunk::{Hunk, Side, Span};

/// What the second-last byte of a line says, if there is one.
// Stays: the project fixes that slice patterns on the borrowed line decide the ending; of the last byte too.
fn by_second_last(line: &[u8]) -> Option<Ending>
    ensures { result ≡ by_second_last line.now }
{
    match line {
        [.., b'\r', _] => Some(Ending::ReturnNewline),
        [.., _, _] => Some(Ending::Newline),
        _ => None,
    }
}

/// Whether the last byte is a newline.
fn ends_in_newline(line: &[u8]) -> bool
    ensures { result ≡ ends_in_newline line.now }
{
    matches!(line, [.., b'\n'])
}

/// The ending shown at the end of a stretch of lines: where the last lacks the newline, the one ahead of it decides.
pub fn ending_before<T: ThreeSheets>(three: &T, side: Side, end: u32) -> Option<Ending>
    requires { 0 < end }
    ensures { result ≡ ending_before (sheet_of (T.sheets three.now) side) end }
{
    let line = line_at(three, side, end - 1);
    if ends_in_newline(line) {
        return by_second_last(line);
    }
    by_second_last(line_at(three, side, end.checked_sub(2)?))
}

/// The ending shown at the end of a range of the sheet that the side names, if it has lines.
pub fn range_ending<T: ThreeSheets>(three: &T, side: Side, range: Span) -> Option<Ending>
    ensures { result ≡ range_ending (sheet_of (T.sheets three.now) side) range }
{
    if range.is_empty() {
        return None;
    }
    ending_before(three, side, range.end)
}

/// The line ending that a list of hunks shows, from its last hunk back: the first range that is not empty decides.
pub fn detect_line_ending<T: ThreeSheets>(three: &T, hunks: &[Hunk]) -> Option<Ending>
    ensures { result ≡ ending_of (T.sheets three.now) hunks.now }
{
    // Stays: a range with lines decides even if it shows no ending, so `find_map` would need an option of an option.
    for hunk in hunks.iter().rev() {
        if !hunk.after.is_empty() {
            return ending_before(three, hunk.side, hunk.after.end);
        }
        if !hunk.before.is_empty() {
            return ending_before(three, Side::Ancestor, hunk.before.end);
        }
    }
    None
}
