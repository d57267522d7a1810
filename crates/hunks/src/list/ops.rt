ghost use Rattle.std.specs.Prelude.{◌≡◌, ℕ, ◌+◌, ◌≤◌, true, [], length, take, drop, nat_le, nat_lt, is_ok, is_err, slice_set};
ghost use Rattle.hunks.specs.Lists.{pushed, pushed_all, pointed};
ghost use Rattle.hunks.specs.contracts.list.HunkList.{the_row as list_row};
ghost use Rattle.rules.specs.Tables.{last_of, without_last};
ghost use Rattle.rules.specs.contracts.hunk.Hunk.{the_row as hunk_row};
ghost use Rattle.std.specs.List.{slice_get};
ghost use Rattle.std.specs.Borrow.{LendsIf, sem};

use crate::list::{Full, HunkList};
use rules::hunk::Hunk;

impl<const N: usize> HunkList<N> {
    /// A list that holds nothing.
    pub fn new() -> Self
        ensures { result ≡ [] }
    {
        HunkList {
            items: [Hunk::default(); N],
            len: 0,
        }
    }

    /// How many hunks are held.
    pub fn len(&self) -> usize
        ensures value { result ≡ length self.now }
        ensures fits { result ≤ N }
    {
        self.as_slice().len()
    }

    /// Hunk i, or nothing past the last.
    pub fn get(&self, i: usize) -> Option<Hunk>
        ensures { result ≡ slice_get self.now i }
    {
        self.as_slice().get(i).copied()
    }

    /// The last hunk, or nothing of an empty list.
    #[tactic(auto, using(crate::proofs::Helds::last_held))]
    pub fn last(&self) -> Option<Hunk>
        ensures { result ≡ last_of self.now }
    {
        self.as_slice().last().copied()
    }

    /// The hunks held, in order.
    pub fn as_slice(&self) -> &[Hunk]
        ensures value { result.now ≡ self.now }
        ensures fits { length result.now ≤ N }
    {
        &self.items[..self.len]
    }

    /// Puts a hunk behind the last one, if there is a place for it.
    pub fn push(&mut self, hunk: Hunk) -> Result<(), Full>
        ensures answer { is_ok result ≡ nat_lt (length self.old) N }
        ensures after { self.new ≡ pushed N self.old hunk }
        ensures same { is_err result ≡ true → self.new ≡ self.old }
    {
        let at = self.len;
        if at < N {
            self.items[at] = hunk;
            self.len = at + 1;
            Ok(())
        } else {
            Err(Full)
        }
    }

    /// Takes the last hunk out, or nothing of an empty list.
    #[tactic(auto, using(crate::proofs::Helds::last_held))]
    pub fn pop(&mut self) -> Option<Hunk>
        ensures answer { result ≡ last_of self.old }
        ensures after { self.new ≡ without_last self.old }
    {
        let last = self.last();
        self.len = self.len.saturating_sub(1);
        last
    }

    /// The first n hunks stay, or all where there are fewer.
    pub fn truncate(&mut self, n: usize)
        ensures { self.new ≡ take n self.old }
    {
        self.len = self.len().min(n);
    }

    /// Puts all the hunks behind the last one, if there is a place for each; otherwise puts none.
    pub fn push_all(&mut self, hunks: &[Hunk]) -> Result<(), Full>
        ensures answer { is_ok result ≡ nat_le (length self.old + length hunks.now) N }
        ensures after { self.new ≡ pushed_all N self.old hunks.now }
        ensures same { is_err result ≡ true → self.new ≡ self.old }
    {
        if hunks.len() > N - self.len() {
            return Err(Full);
        }
        let end = self.len + hunks.len();
        let places = &mut self.items[..];
        places[self.len..end].copy_from_slice(hunks);
        self.len = end;
        Ok(())
    }

    /// The first n hunks leave, or all where there are fewer, and the others move up.
    pub fn remove_front(&mut self, n: usize)
        ensures { self.new ≡ drop n self.old }
    {
        let gone = n.min(self.len);
        let places = &mut self.items[..];
        places.copy_within(gone..self.len, 0);
        self.len -= gone;
    }

    /// Lends hunk i, or nothing past the last; the others stay.
    pub fn lend(&mut self, i: usize) -> Option<&mut Hunk>
        ensures* writes_back { sem 𝓛 (LendsIf (list_row N.row) hunk_row self.entry result (λ w. slice_set self.old i w) self.old) }
        ensures lent { pointed result ≡ slice_get self.old i }
    {
        if i < self.len {
            Some(&mut self.items[i])
        } else {
            None
        }
    }
}
