ghost use Rattle.std.specs.Prelude.{◌≡◌, ℕ, ◌<◌, ◌≤◌};
ghost use Rattle.rules.specs.Contraction.{hunk_size, reading, first_lines, later_lines};

use reading::hunk::read_range;
use rules::hunk::{Hunk, Side, Span};

/// Another range is read: of an Ancestor hunk both change.
fn read_instead(hunk: &mut Hunk, span: Span)
    ensures { hunk.new ≡ reading hunk.old.side hunk.old span }
{
    match hunk.side {
        Side::Ancestor => {
            hunk.before = span;
            hunk.after = span;
        }
        Side::Current | Side::Other => hunk.after = span,
    }
}

/// The first `n` lines stay.
// Stays: keep_lines and drop_lines differ in the end of the range that they set, and that is all they do.
pub fn keep_lines(hunk: &mut Hunk, n: u32)
    requires { (0 < n) × (n ≤ hunk_size hunk.old) }
    ensures { hunk.new ≡ first_lines n hunk.old }
{
    let read = read_range(*hunk);
    let end = read.start + n;
    read_instead(hunk, Span { end, ..read });
}

/// The first `n` lines leave.
pub fn drop_lines(hunk: &mut Hunk, n: u32)
    requires { (0 < n) × (n ≤ hunk_size hunk.old) }
    ensures { hunk.new ≡ later_lines n hunk.old }
{
    let read = read_range(*hunk);
    let start = read.start + n;
    read_instead(hunk, Span { start, ..read });
}
