ghost use Rattle.std.specs.Prelude.{◌≡◌, ℕ, ◌+◌, ◌≤◌, ◌++◌, length};
ghost use Rattle.rules.specs.Contraction.{cut_front, cut_back};
ghost use Rattle.contract.specs.Places.{ahead_at, behind_at, Placed};

use crate::cut::{drop_lines, keep_lines};
use crate::place::{Ahead, Place};
use hunks::list::HunkList;
use rules::hunk::Hunk;

impl Place {
    /// What stands ahead of the place stays; a hunk that it cuts is lent and cut.
    // Stays: keep_ahead, keep_behind, push_ahead and push_behind change a list in place or add to one, at one end each: four other calls.
    fn keep_ahead<const N: usize>(self, list: &mut HunkList<N>)
        requires placed { Placed self list.old }
        requires fits { length list.old ≤ N }
        ensures { list.new ≡ ahead_at self list.old }
    {
        if self.lines == 0 {
            list.truncate(self.whole);
        } else {
            list.truncate(self.whole + 1);
            if let Some(hunk) = list.lend(self.whole) {
                keep_lines(hunk, self.lines);
            }
        }
    }

    /// What stands behind the place stays; a hunk that it cuts is lent and cut.
    fn keep_behind<const N: usize>(self, list: &mut HunkList<N>)
        requires { Placed self list.old }
        ensures { list.new ≡ behind_at self list.old }
    {
        list.remove_front(self.whole);
        if self.lines > 0 {
            if let Some(hunk) = list.lend(0) {
                drop_lines(hunk, self.lines);
            }
        }
    }

    /// Adds what stands ahead of the place in other hunks.
    fn push_ahead<const N: usize>(self, list: &mut HunkList<N>, hunks: &[Hunk])
        requires placed { Placed self hunks.now }
        requires room { length list.old + length (ahead_at self hunks.now) ≤ N }
        ensures { list.new ≡ list.old ++ ahead_at self hunks.now }
    {
        let _ = list.push_all(&hunks[..self.whole]);
        if self.lines > 0 {
            let mut piece = hunks[self.whole];
            keep_lines(&mut piece, self.lines);
            let _ = list.push(piece);
        }
    }

    /// Adds what stands behind the place in other hunks.
    fn push_behind<const N: usize>(self, list: &mut HunkList<N>, hunks: &[Hunk])
        requires placed { Placed self hunks.now }
        requires room { length list.old + length (behind_at self hunks.now) ≤ N }
        ensures { list.new ≡ list.old ++ behind_at self hunks.now }
    {
        if self.lines == 0 {
            let _ = list.push_all(&hunks[self.whole..]);
        } else {
            let mut piece = hunks[self.whole];
            drop_lines(&mut piece, self.lines);
            let _ = list.push(piece);
            let _ = list.push_all(&hunks[self.whole + 1..]);
        }
    }
}

/// The first `n` lines leave.
#[tactic(auto, using(crate::proofs::Places::cut_behind))]
// Stays: lose_front, lose_back, gain_front and gain_back name one part of one cut each; what they share is `Place`.
pub fn lose_front<const N: usize>(list: &mut HunkList<N>, n: u32)
    ensures { list.new ≡ (cut_front n list.old).behind }
{
    let place = Place::behind(n, list.as_slice(), Ahead::Leaves);
    place.keep_behind(list);
}

/// Only the first `n` lines stay.
#[tactic(auto, using(crate::proofs::Places::cut_at))]
pub fn lose_back<const N: usize>(list: &mut HunkList<N>, n: u32)
    ensures { list.new ≡ (cut_back n list.old).ahead }
{
    let place = Place::behind(n, list.as_slice(), Ahead::Stays);
    place.keep_ahead(list);
}

/// Adds the first `n` lines of other hunks.
#[tactic(auto, using(crate::proofs::Places::cut_at))]
pub fn gain_front<const N: usize>(list: &mut HunkList<N>, hunks: &[Hunk], n: u32)
    requires { length list.old + length (cut_front n hunks.now).ahead ≤ N }
    ensures { list.new ≡ list.old ++ (cut_front n hunks.now).ahead }
{
    Place::behind(n, hunks, Ahead::Leaves).push_ahead(list, hunks);
}

/// Adds what stands behind the first `n` lines of other hunks.
#[tactic(auto, using(crate::proofs::Places::cut_behind))]
pub fn gain_back<const N: usize>(list: &mut HunkList<N>, hunks: &[Hunk], n: u32)
    requires { length list.old + length (cut_back n hunks.now).behind ≤ N }
    ensures { list.new ≡ list.old ++ (cut_back n hunks.now).behind }
{
    Place::behind(n, hunks, Ahead::Stays).push_behind(list, hunks);
}
