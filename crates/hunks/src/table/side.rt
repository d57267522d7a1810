ghost use Rattle.std.specs.Prelude.{◌≡◌, ℕ, ◌+◌, ◌-◌, [], ◌∷◌, ◌++◌, Some, length};
ghost use Rattle.rules.specs.Questions.{answered, changed};
ghost use Rattle.rules.specs.Tables.{within, changes, follows, without_last, hunk_questions};
ghost use Rattle.hunks.specs.Sides.{withdraw_question};

use crate::list::HunkList;
use crate::table::HeldSide;
use rules::hunk::{Hunk, Span};
use rules::limits::MAX_HUNKS;
use rules::refusal::{HunkRange, TableRefusal};

fn is_within(span: Span, lines: u32) -> bool
    ensures { result ≡ within lines span }
{
    (span.start..=lines).contains(&span.end)
}

fn has_lines(hunk: Hunk) -> bool
    ensures { result ≡ changes hunk }
{
    !hunk.before.is_empty() || !hunk.after.is_empty()
}

fn stands_behind(last: Option<Hunk>, hunk: Hunk) -> bool
    ensures { result ≡ follows last hunk }
{
    last.is_none_or(|g| g.before.end < hunk.before.start && g.after.end <= hunk.after.start)
}

impl HeldSide {
    /// A side of a sheet without lines, with no hunks.
    pub(super) fn new() -> Self
        ensures { result ≡ record { lines = 0; hunks = [] } }
    {
        HeldSide {
            lines: 0,
            hunks: HunkList::new(),
        }
    }

    /// Drops the hunks, and takes the line count of the side's sheet.
    pub(super) fn open(&mut self, lines: u32)
        ensures { self.new ≡ record { lines = lines; hunks = [] } }
    {
        self.lines = lines;
        // Stays: the working list's calls are fixed by the project, and a `clear` is not one of them.
        self.hunks.truncate(0);
    }

    // The questions that a hunk of this side is asked.
    fn admit(&self, ancestor: u32, hunk: Hunk) -> Result<(), TableRefusal>
        ensures { result ≡ answered (hunk_questions ancestor self.now.lines self.now.hunks hunk) tt }
    {
        if self.hunks.len() >= MAX_HUNKS {
            return Err(TableRefusal::SideFull);
        }
        if !is_within(hunk.before, ancestor) {
            return Err(TableRefusal::RangeOutside(HunkRange::Before));
        }
        if !is_within(hunk.after, self.lines) {
            return Err(TableRefusal::RangeOutside(HunkRange::After));
        }
        if !has_lines(hunk) {
            return Err(TableRefusal::HunkEmpty);
        }
        if !stands_behind(self.hunks.last(), hunk) {
            return Err(TableRefusal::NotBehindLast);
        }
        Ok(())
    }

    /// Puts a hunk behind the last one, for an ancestor of so many lines, and answers the new count.
    pub(super) fn enter(&mut self, ancestor: u32, hunk: Hunk) -> Result<usize, TableRefusal>
        ensures answer { result ≡ answered (hunk_questions ancestor self.old.lines self.old.hunks hunk) (length self.old.hunks + 1) }
        ensures after { self.new ≡ record { lines = self.old.lines; hunks = changed (hunk_questions ancestor self.old.lines self.old.hunks hunk) (self.old.hunks ++ hunk ∷ []) self.old.hunks } }
    {
        self.admit(ancestor, hunk)?;
        // There is a place, since the side is not full.
        let _ = self.hunks.push(hunk);
        Ok(self.hunks.len())
    }

    /// Takes the last hunk out, and answers the new count.
    #[tactic(auto, using(crate::proofs::Helds::none_held))]
    pub(super) fn withdraw(&mut self) -> Result<usize, TableRefusal>
        ensures answer { result ≡ answered (withdraw_question self.old.hunks) (length self.old.hunks - 1) }
        ensures after { self.new ≡ record { lines = self.old.lines; hunks = changed (withdraw_question self.old.hunks) (without_last self.old.hunks) self.old.hunks } }
    {
        self.hunks.pop().ok_or(TableRefusal::NothingHeld)?;
        Ok(self.hunks.len())
    }
}
