//! Which hunks of the two sides belong to a group.
ghost use Rattle.std.specs.Prelude.{◌≡◌, ℕ, ◌≤◌, length, take, Some};
ghost use Rattle.groups.specs.Taking.{offers, one_of, taken, Taken, KeptHunks};
ghost use Rattle.rules.specs.Groups.{clusters};
ghost use Rattle.rules.specs.Tables.{last_of};
ghost use Rattle.rules.specs.Walk.{walk};
ghost use Rattle.std.specs.List.{slice_get};

use crate::ahead::Ahead;
use crate::touch::touch;
use rules::hunk::{Hunk, Side};

// Whether the first hunk left of a side touches the last one taken of the facing side.
// Stays: a pair of Options in one match reads as the rule does; `zip` and `is_some_and` would say no more.
fn is_offered(left: &[Hunk], taken: &[Hunk]) -> bool
    ensures { result ≡ offers (slice_get left.now 0) (last_of taken.now) }
{
    match (left.first(), taken.last()) {
        (Some(next), Some(last)) => touch(*next, *last),
        _ => false,
    }
}

// A single hunk of a side, as numbers of current and other hunks.
fn one_of(side: Side) -> (usize, usize)
    ensures { result ≡ one_of side }
{
    match side {
        Side::Current => (1, 0),
        Side::Other => (0, 1),
        Side::Ancestor => (0, 0),
    }
}

/// The cluster that the first hunk of the walk begins: how many hunks it takes of the current side and of the other.
///
/// Once no further hunk of either side touches the last one taken of the facing side, the cluster is complete.
pub fn take_intersecting(ahead: Ahead<'_>) -> (usize, usize)
    requires { KeptHunks ahead.current.now ahead.other.now }
    ensures numbers { result ≡ taken (clusters (walk ahead.entry.current.now ahead.entry.other.now)) }
    ensures rest { Taken ahead.entry.current.now ahead.entry.other.now result.0 result.1 }
{
    let Ahead {
        current,
        other,
        first,
    } = ahead;
    // Stays: the project fixes two nested loops here, each left by its label.
    let (mut i, mut j) = one_of(first.side);
    'group: loop {
        while is_offered(&other[j..], &current[..i]) {
            j += 1;
        }
        'more: loop {
            if !is_offered(&current[i..], &other[..j]) {
                break 'group;
            }
            i += 1;
            if is_offered(&other[j..], &current[..i]) {
                break 'more;
            }
        }
    }
    (i, j)
}
