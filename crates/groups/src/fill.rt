//! One side of a group over its whole range.
ghost use Rattle.std.specs.Prelude.{◌≡◌, ℕ, ◌<◌, ◌≤◌, ◌++◌, length};
ghost use Rattle.rules.specs.Filling.{stretch, filled};
ghost use Rattle.rules.specs.Limits.{max_hunks, max_filled};

use hunks::list::HunkList;
use rules::hunk::{Hunk, Side, Span};
use rules::limits::MAX_FILLED;

// The ancestor lines `from..to` go into the list as a hunk, if there are any.
fn push_stretch(list: &mut HunkList<MAX_FILLED>, from: u32, to: u32)
    requires { length list.old < max_filled }
    ensures { list.new ≡ list.old ++ stretch from to }
{
    let lines = Span {
        start: from,
        end: to,
    };
    if !lines.is_empty() {
        let _ = list.push(Hunk {
            before: lines,
            after: lines,
            side: Side::Ancestor,
        });
    }
}

/// Fills a working list with one side's hunks and the stretches of the range outside them.
pub fn fill_ancestor(hunks: &[Hunk], range: Span, list: &mut HunkList<MAX_FILLED>)
    requires { length hunks.now ≤ max_hunks }
    ensures { list.new ≡ filled range.start range.end hunks.now }
{
    list.truncate(0);
    // Stays: with pairs of neighbours in place of `at`, the first and the last stretch would be cases of their own.
    let mut at = range.start;
    for hunk in hunks {
        push_stretch(list, at, hunk.before.start);
        let _ = list.push(*hunk);
        at = hunk.before.end;
    }
    push_stretch(list, at, range.end);
}
