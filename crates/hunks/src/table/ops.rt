ghost use Rattle.std.specs.Prelude.{◌≡◌, ℕ, true, length, None, is_err, nat_le};
ghost use Rattle.rules.specs.Questions.{ask, answered};
ghost use Rattle.rules.specs.Limits.{max_lines};
ghost use Rattle.rules.specs.declared.refusal.TableRefusal.TheVariants.{CountTooLarge};
ghost use Rattle.rules.specs.TableLaws.{TableKeeps};
ghost use Rattle.rules.specs.Tables.{new_table, held_of, held_at, count_of, open_answer, open_after, enter_answer, enter_after, withdraw_answer, withdraw_after};
ghost use Rattle.hunks.specs.Sides.{IsSide};

use crate::table::{HeldSide, HunkTable};
use rules::hunk::{Hunk, Side};
use rules::limits::MAX_LINES;
use rules::refusal::TableRefusal;

// Stays: one function that asks for this and for the render's refusals would be public, and say no more than an `if`.
fn count_fits(lines: u32, side: Side) -> Result<(), TableRefusal>
    ensures { result ≡ answered (ask (nat_le lines max_lines) (CountTooLarge side) None) tt }
{
    if lines <= MAX_LINES {
        Ok(())
    } else {
        Err(TableRefusal::CountTooLarge(side))
    }
}

impl HunkTable {
    /// A table before any opening: its counts are 0, and nothing is held.
    pub fn new() -> Self
        ensures { result ≡ new_table }
    {
        HunkTable {
            ancestor_lines: 0,
            current: HeldSide::new(),
            other: HeldSide::new(),
        }
    }

    /// Empties the table, whatever it held, and takes the line counts of the three sheets.
    // Stays: three counts and no struct of them: the project fixes `open` as a &mut self method by its three counts.
    // Stays: `same` follows from the other two, but is promised to who reads no definitions; as in enter, withdraw and the list.
    pub fn open(&mut self, ancestor: u32, current: u32, other: u32) -> Result<(), TableRefusal>
        ensures answer { result ≡ open_answer ancestor current other }
        ensures after { self.new ≡ open_after self.old ancestor current other }
        ensures same { is_err result ≡ true → self.new ≡ self.old }
    {
        count_fits(ancestor, Side::Ancestor)?;
        count_fits(current, Side::Current)?;
        count_fits(other, Side::Other)?;
        self.ancestor_lines = ancestor;
        self.current.open(current);
        self.other.open(other);
        Ok(())
    }

    /// Puts a hunk behind its side's last one, and answers the side's new count.
    pub fn enter(&mut self, hunk: Hunk) -> Result<usize, TableRefusal>
        ensures answer { result ≡ enter_answer self.old hunk }
        ensures after { self.new ≡ enter_after self.old hunk }
        ensures same { is_err result ≡ true → self.new ≡ self.old }
    {
        // Stays: a side lent as &mut is not proved, since the table's invariant must then hold whatever the caller writes (`invariant_of-self-lent`).
        match hunk.side {
            Side::Current => self.current.enter(self.ancestor_lines, hunk),
            Side::Other => self.other.enter(self.ancestor_lines, hunk),
            Side::Ancestor => Err(TableRefusal::NoHunksOfSide),
        }
    }

    /// Takes a side's last hunk out, and answers the side's new count.
    pub fn withdraw(&mut self, side: Side) -> Result<usize, TableRefusal>
        ensures answer { result ≡ withdraw_answer self.old side }
        ensures after { self.new ≡ withdraw_after self.old side }
        ensures same { is_err result ≡ true → self.new ≡ self.old }
    {
        // Stays: for the reason that enter has.
        match side {
            Side::Current => self.current.withdraw(),
            Side::Other => self.other.withdraw(),
            Side::Ancestor => Err(TableRefusal::NoHunksOfSide),
        }
    }

    // The side, or nothing; no hunks are held of the ancestor.
    fn side(&self, side: Side) -> Option<&HeldSide>
        ensures answer { IsSide self.now side result }
        ensures keeps { TableKeeps self.now }
    {
        // Both are read whatever the side, for what every table keeps is told where one is read.
        let HunkTable { current, other, .. } = self;
        match side {
            Side::Current => Some(current),
            Side::Other => Some(other),
            Side::Ancestor => None,
        }
    }

    /// Hunk n of a side, or nothing; none is held of the ancestor.
    pub fn held(&self, side: Side, n: usize) -> Option<Hunk>
        ensures answer { result ≡ held_at self.now side n }
        ensures keeps { TableKeeps self.now }
    {
        self.side(side)?.hunks.get(n)
    }

    /// How many hunks are held of a side.
    pub fn count(&self, side: Side) -> usize
        ensures answer { result ≡ length (held_of self.now side) }
        ensures keeps { TableKeeps self.now }
    {
        self.side(side).map_or(0, |held| held.hunks.len())
    }

    /// The count of a sheet's lines that the table was opened with.
    pub fn lines(&self, side: Side) -> u32
        ensures answer { result ≡ count_of self.now side }
        ensures keeps { TableKeeps self.now }
    {
        self.side(side)
            .map_or(self.ancestor_lines, |held| held.lines)
    }

    /// The hunks held of the current side, in order.
    // Stays: two calls, and both public: the rules' record of a table has two lists, and clauses name each of them.
    pub fn current(&self) -> &[Hunk]
        ensures hunks { result.now ≡ self.now.current }
        ensures keeps { TableKeeps self.now }
    {
        self.current.hunks.as_slice()
    }

    /// The hunks held of the other side, in order.
    pub fn other(&self) -> &[Hunk]
        ensures hunks { result.now ≡ self.now.other }
        ensures keeps { TableKeeps self.now }
    {
        self.other.hunks.as_slice()
    }
}
