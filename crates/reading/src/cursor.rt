//! Cursors of hunk and line: they go over the lines of a list of hunks, forward or back.
ghost use Rattle.std.specs.Prelude.{◌≡◌, reverse};
ghost use Rattle.std.specs.Iterator.{YieldsFirstRef, item_count};
ghost use Rattle.rules.specs.Contraction.{read_range};
ghost use Rattle.rules.specs.Hunks.{side_lines};
ghost use Rattle.reading.specs.Reading.{AllReadable};
ghost use Rattle.reading.specs.Cursors.{lines_ahead, lines_behind, InSheets};

use crate::hunk::{line_at, read_range};
use crate::three::ThreeSheets;
use rules::hunk::{Hunk, Side};
use std::ops::Range;

/// The lines that a cursor has yet to give: those left of the hunk that it stands in, and the hunks that are still whole.
#[derive(Drop)]
pub(crate) struct Lines<'a, T> {
    three: &'a T,
    side: Side,
    begun: Range<u32>,
    hunks: &'a [Hunk],
}

impl<'a, T: ThreeSheets> Lines<'a, T> {
    /// All the lines of the hunks: no hunk is begun yet.
    pub(crate) fn of(three: &'a T, hunks: &'a [Hunk]) -> Self
        requires { AllReadable (T.sheets three.now) hunks.now }
        ensures within { InSheets (T.sheets result.three.now) result }
        ensures ahead { lines_ahead (T.sheets result.three.now) result ≡ side_lines (T.sheets three.now) hunks.now }
        ensures behind { lines_behind (T.sheets result.three.now) result ≡ reverse (side_lines (T.sheets three.now) hunks.now) }
    {
        // Stays: an empty range is where a hunk that has ended leaves a cursor too, so that no hunk is begun needs no case of its own.
        Lines {
            three,
            side: Side::Ancestor,
            begun: 0..0,
            hunks,
        }
    }

    // Another hunk is begun, and the others stay whole.
    fn begin(&mut self, hunk: Hunk, others: &'a [Hunk])
        ensures sheets { self.new.three.now ≡ self.old.three.now }
        ensures side { self.new.side ≡ hunk.side }
        ensures start { self.new.begun.start ≡ (read_range hunk.side hunk).start }
        ensures end { self.new.begun.end ≡ (read_range hunk.side hunk).end }
        ensures hunks { self.new.hunks.now ≡ others.now }
    {
        let read = read_range(hunk);
        // Stays: `read.start..read.end` says at once what the cursor goes over; a conversion would have these two clauses again.
        self.side = hunk.side;
        self.begun = read.start..read.end;
        self.hunks = others;
    }
}

/// A cursor that goes forward, from the first line on.
#[derive(Drop)]
pub(crate) struct Forward<'a, T>(pub(crate) Lines<'a, T>);

impl<'a, T: ThreeSheets> Iterator for Forward<'a, T> {
    type Item = &'a [u8];

    ghost can_next = { λ s. InSheets (T.sheets s.0.three.now) s.0 };

    ghost next_gives = { YieldsFirstRef (λ s. lines_ahead (T.sheets s.0.three.now) s.0) };

    ghost remaining = { item_count (λ s. lines_ahead (T.sheets s.0.three.now) s.0) };

    fn next(&mut self) -> Option<&'a [u8]> {
        let lines = &mut self.0;
        'hunk: loop {
            if let Some(n) = lines.begun.next() {
                return Some(line_at(lines.three, lines.side, n));
            }
            let (hunk, others) = lines.hunks.split_first()?;
            lines.begin(*hunk, others);
        }
    }
}

/// A cursor that goes back, from the last line on.
// Stays: the project fixes cursors of hunk and line, in place of `flat_map` and `rev`; the two share `Lines`, and differ in the end alone.
#[derive(Drop)]
pub(crate) struct Back<'a, T>(pub(crate) Lines<'a, T>);

impl<'a, T: ThreeSheets> Iterator for Back<'a, T> {
    type Item = &'a [u8];

    ghost can_next = { λ s. InSheets (T.sheets s.0.three.now) s.0 };

    ghost next_gives = { YieldsFirstRef (λ s. lines_behind (T.sheets s.0.three.now) s.0) };

    ghost remaining = { item_count (λ s. lines_behind (T.sheets s.0.three.now) s.0) };

    fn next(&mut self) -> Option<&'a [u8]> {
        let lines = &mut self.0;
        'hunk: loop {
            if let Some(n) = lines.begun.next_back() {
                return Some(line_at(lines.three, lines.side, n));
            }
            let (hunk, others) = lines.hunks.split_last()?;
            lines.begin(*hunk, others);
        }
    }
}
