//! What the walk has ahead.
ghost use Rattle.groups.specs.Taking.{facing_of};
ghost use Rattle.rules.specs.Walk.{walk};
ghost use Rattle.std.specs.Prelude.{◌≡◌, Some, IfSome};
ghost use Rattle.std.specs.List.{slice_get};
ghost use Rattle.std.specs.Option.{option_map};

use rules::hunk::{Hunk, Side};

/// Both sides' hunks, and the first of them in the walk.
#[derive(Clone, Copy)]
pub struct Ahead<'a> {
    pub(crate) current: &'a [Hunk],
    pub(crate) other: &'a [Hunk],
    pub(crate) first: Hunk,
    ghost leads: { slice_get (walk current.now other.now) 0 ≡ Some first },
}

// The first hunk of the walk, or nothing where neither side has one. At equal starts the current side leads.
// Stays: the two lists travel side by side only as far as `Ahead`, which is the pair of them.
fn first_hunk(current: &[Hunk], other: &[Hunk]) -> Option<Hunk>
    ensures { result ≡ slice_get (walk current.now other.now) 0 }
{
    match (current.first(), other.first()) {
        (Some(ours), Some(theirs)) if theirs.before.start < ours.before.start => Some(*theirs),
        (ours, theirs) => ours.or(theirs).copied(),
    }
}

impl<'a> Ahead<'a> {
    /// What the walk over both sides' hunks has ahead, or nothing where neither side has one.
    pub fn of(current: &'a [Hunk], other: &'a [Hunk]) -> Option<Self>
        ensures first { option_map (λ ahead. ahead.first) result ≡ slice_get (walk current.now other.now) 0 }
        ensures sides { IfSome result (λ ahead. (ahead.current.now ≡ current.now) × (ahead.other.now ≡ other.now)) }
    {
        // Stays: in a closure for `map`, what the ghost field tells of the first hunk is not proved (`invariant_of-result`).
        let first = first_hunk(current, other)?;
        Some(Ahead {
            current,
            other,
            first,
        })
    }

    /// The hunks of the side that faces the first hunk.
    pub(crate) fn facing(self) -> &'a [Hunk]
        ensures { result.now ≡ facing_of self.entry.first.side self.entry.current.now self.entry.other.now }
    {
        match self.first.side {
            Side::Current => self.other,
            Side::Other => self.current,
            Side::Ancestor => &[],
        }
    }
}
