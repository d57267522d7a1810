ghost use Rattle.std.specs.Prelude.{◌≡◌, ℕ, ◌≤◌, length};
ghost use Rattle.rules.specs.Blocks.{before_block, marker_ending, blocked, keep_steps};
ghost use Rattle.writing.specs.Marks.{labels_in};
ghost use Rattle.writing.specs.Sides.{Few, Readables, lists_lent};
ghost use Rattle.writing.specs.States.{HasRoom, Wrote};

use crate::marks::Marks;
use crate::pen::Pen;
use crate::sides::Sides;
use reading::ending::{detect_line_ending, range_ending};
use reading::three::ThreeSheets;
use rules::ending::Ending;
use rules::hunk::{Hunk, Side, Span};
use sink::piece::Kind;
use sink::sink::Sink;

/// Where a group stands in the ancestor: its range, and how far the lines ahead of it were written by the last cluster.
#[derive(Clone, Copy)]
pub struct Stretch {
    pub since: u32,
    pub range: Span,
}

/// The line ending that stands ahead of a block.
fn ending_ahead<T: ThreeSheets>(three: &T, stretch: Stretch, front: &[Hunk]) -> Option<Ending>
    ensures { result ≡ before_block (T.sheets three.now) stretch.since stretch.range.start front.now }
{
    if !front.is_empty() {
        return detect_line_ending(three, front);
    }
    let ahead = Span {
        start: stretch.since,
        end: stretch.range.start,
    };
    range_ending(three, Side::Ancestor, ahead)
}

/// The line ending of a block's markers: the one ahead of it, else that of ours, else newline.
fn marker_ending<T: ThreeSheets>(three: &T, stretch: Stretch, sides: Sides<'_>) -> Ending
    ensures { result ≡ marker_ending (T.sheets three.now) stretch.since stretch.range.start sides.entry.front.now sides.entry.left.now }
{
    // Stays: the project fixes these fallbacks, taken apart one after another.
    if let Some(ending) = ending_ahead(three, stretch, sides.front) {
        ending
    } else if let Some(ending) = detect_line_ending(three, sides.left) {
        ending
    } else {
        Ending::Newline
    }
}

impl<'a, S: Sink> Pen<'a, S> {
    /// Writes a group under Keep. Answers whether a block was written.
    pub fn keep<T: ThreeSheets>(
        &mut self,
        three: &T,
        marks: Marks<'_>,
        stretch: Stretch,
        sides: Sides<'_>,
    ) -> bool
        requires within { stretch.range.end ≤ length (T.sheets three.now).ancestor }
        requires few { Few sides }
        requires readable { Readables (T.sheets three.now) (lists_lent sides) }
        requires room { HasRoom S.Sink self.old (keep_steps marks.style (T.sheets three.now) marks.size (labels_in marks.labels) stretch.since stretch.range.start stretch.range.end (lists_lent sides)) }
        ensures wrote { Wrote S.Sink self.old self.new (keep_steps marks.entry.style (T.sheets three.now) marks.entry.size (labels_in marks.entry.labels) stretch.since stretch.range.start stretch.range.end (lists_lent sides.entry)) }
        ensures block { result ≡ blocked marks.entry.style (T.sheets three.now) sides.entry.left.now sides.entry.right.now }
    {
        self.hunks(three, sides.front, Kind::Common);
        let ending = marker_ending(three, stretch, sides);
        let block = self.kept(three, marks, ending, stretch.range, sides);
        self.hunks(three, sides.back, Kind::Common);
        block
    }
}
