ghost use Rattle.std.specs.Prelude.{◌≡◌, ℕ, ◌≤◌, length};
ghost use Rattle.rules.specs.Blocks.{base_ending, base_steps, block_steps, blocked, kept_steps};
ghost use Rattle.reading.specs.Reading.{AllReadable};
ghost use Rattle.writing.specs.Marks.{labels_in};
ghost use Rattle.writing.specs.Sides.{Few};
ghost use Rattle.writing.specs.States.{HasRoom, Wrote};

use crate::mark::Mark;
use crate::marks::Marks;
use crate::pen::Pen;
use crate::sides::Sides;
use reading::ending::range_ending;
use reading::shared::hunks_differ;
use reading::three::ThreeSheets;
use rules::ending::Ending;
use rules::hunk::{Side, Span};
use rules::mode::ConflictStyle;
use sink::piece::Kind;
use sink::sink::Sink;

/// The line ending that the ancestor's lines of a range show, or newline.
fn stretch_ending<T: ThreeSheets>(three: &T, range: Span) -> Ending
    ensures { result ≡ base_ending (T.sheets three.now) range.start range.end }
{
    // Stays: said here and in `shown_ending` alone, the newline of the rules is plainer than a default of endings.
    range_ending(three, Side::Ancestor, range).unwrap_or(Ending::Newline)
}

impl<'a, S: Sink> Pen<'a, S> {
    /// Writes the ancestor's part of a block, if the style has one.
    // Stays: that a range ends within the ancestor names the sheets, so no ghost field of the range holds it.
    fn base<T: ThreeSheets>(&mut self, three: &T, marks: Marks<'_>, range: Span)
        requires within { range.end ≤ length (T.sheets three.now).ancestor }
        requires room { HasRoom S.Sink self.old (base_steps marks.style (T.sheets three.now) marks.size (labels_in marks.labels).ancestor range.start range.end) }
        ensures { Wrote S.Sink self.old self.new (base_steps marks.entry.style (T.sheets three.now) marks.entry.size (labels_in marks.entry.labels).ancestor range.start range.end) }
    {
        match marks.style {
            ConflictStyle::Merge => {}
            ConflictStyle::Diff3 | ConflictStyle::ZealousDiff3 => {
                let ending = stretch_ending(three, range);
                self.marker(Mark::Base, marks.size, marks.labels.ancestor, ending);
                self.lines(three, Side::Ancestor, range, Kind::Base);
            }
        }
    }

    /// Writes the block of a group.
    fn block<T: ThreeSheets>(
        &mut self,
        three: &T,
        marks: Marks<'_>,
        ending: Ending,
        range: Span,
        sides: Sides<'_>,
    )
        requires within { range.end ≤ length (T.sheets three.now).ancestor }
        requires ours { AllReadable (T.sheets three.now) sides.left.now }
        requires theirs { AllReadable (T.sheets three.now) sides.right.now }
        requires room { HasRoom S.Sink self.old (block_steps marks.style (T.sheets three.now) marks.size (labels_in marks.labels) ending range.start range.end sides.left.now sides.right.now) }
        ensures { Wrote S.Sink self.old self.new (block_steps marks.entry.style (T.sheets three.now) marks.entry.size (labels_in marks.entry.labels) ending range.start range.end sides.entry.left.now sides.entry.right.now) }
    {
        self.marker(Mark::Ours, marks.size, marks.labels.current, ending);
        self.hunks(three, sides.left, Kind::Ours);
        self.base(three, marks, range);
        self.marker(Mark::Middle, marks.size, None, ending);
        self.hunks(three, sides.right, Kind::Theirs);
        self.marker(Mark::Theirs, marks.size, marks.labels.other, ending);
    }

    /// Writes a block, common lines or nothing, as the style and the lines left ask. Answers whether a block was written.
    pub fn kept<T: ThreeSheets>(
        &mut self,
        three: &T,
        marks: Marks<'_>,
        ending: Ending,
        range: Span,
        sides: Sides<'_>,
    ) -> bool
        requires within { range.end ≤ length (T.sheets three.now).ancestor }
        requires few { Few sides }
        requires ours { AllReadable (T.sheets three.now) sides.left.now }
        requires theirs { AllReadable (T.sheets three.now) sides.right.now }
        requires room { HasRoom S.Sink self.old (kept_steps marks.style (T.sheets three.now) marks.size (labels_in marks.labels) ending range.start range.end sides.left.now sides.right.now) }
        ensures wrote { Wrote S.Sink self.old self.new (kept_steps marks.entry.style (T.sheets three.now) marks.entry.size (labels_in marks.entry.labels) ending range.start range.end sides.entry.left.now sides.entry.right.now) }
        ensures block { result ≡ blocked marks.entry.style (T.sheets three.now) sides.entry.left.now sides.entry.right.now }
    {
        // Stays: the project fixes this match, with a guard for each condition, so the block is written in two arms.
        match marks.style {
            ConflictStyle::Merge | ConflictStyle::ZealousDiff3 if sides.any_line_left(three) => {
                self.block(three, marks, ending, range, sides);
                true
            }
            ConflictStyle::Diff3 if hunks_differ(three, sides.left, sides.right) => {
                self.block(three, marks, ending, range, sides);
                true
            }
            ConflictStyle::Diff3 => {
                self.hunks(three, sides.left, Kind::Common);
                false
            }
            _ => false,
        }
    }
}
