use rules::hunk::Hunk;
use std::marker::Model;

mod ops;

/// A list of at most N hunks, which lie in the value itself: those in the first `len` places.
#[derive(Drop)]
// Stays: an array with its length, and no `ArrayVec`: that writes a blank hunk over each place that is given up, so emptying a list would cost as much as filling it.
pub struct HunkList<const N: usize> {
    items: [Hunk; N],
    len: usize,
}

/// The list has no place for what was to be put into it.
#[derive(Clone, Copy, PartialEq, Eq, Debug)]
pub struct Full;

// Clauses see the hunks held, in order.
impl<const N: usize> Model for HunkList<N> {
    ghost use Rattle.std.specs.Prelude.{◌≡◌, ◌≤◌, List, length, take};
    ghost use Rattle.rules.specs.declared.hunk.Hunk.{Hunk};

    ghost Value = { List Hunk };

    ghost view = { λ l. take l.len l.items };

    ghost invariant = { λ l. (l.len ≤ N) × (length l.items ≡ N) };
}
