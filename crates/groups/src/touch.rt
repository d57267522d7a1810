//! When hunks touch.
ghost use Rattle.rules.specs.Groups.{last_end};
ghost use Rattle.rules.specs.Hunks.{opposite, touches, touches_any};
ghost use Rattle.std.specs.Prelude.{◌≡◌};

use rules::hunk::{Hunk, Side};

fn are_opposite(a: Side, b: Side) -> bool
    ensures { result ≡ opposite a b }
{
    matches!(
        (a, b),
        (Side::Current, Side::Other) | (Side::Other, Side::Current)
    )
}

/// Whether two hunks of opposite sides touch: neither starts behind the other's end.
pub(crate) fn touch(a: Hunk, b: Hunk) -> bool
    ensures { result ≡ touches a b }
{
    are_opposite(a.side, b.side) && a.before.start <= b.before.end && b.before.start <= a.before.end
}

/// Whether a hunk touches one of the others.
pub(crate) fn touches_any(hunk: Hunk, others: &[Hunk]) -> bool
    ensures { result ≡ touches_any hunk others.now }
{
    // Stays: the project fixes a `for` over the opposite hunks here, without an index.
    for other in others {
        if touch(hunk, *other) {
            return true;
        }
    }
    false
}

/// The largest end of the hunks' ranges in the ancestor, 0 where there are none.
pub(crate) fn last_end(hunks: &[Hunk]) -> u32
    ensures { result ≡ last_end hunks.now }
{
    // Stays: no end is 0, as in the rules' definition.
    hunks.iter().map(|hunk| hunk.before.end).max().unwrap_or(0)
}
