//! The walk, cluster by cluster.
ghost use Rattle.groups.specs.Taking.{KeptHunks, facing_of};
ghost use Rattle.groups.specs.Telling.{first_told, Rest, Next};
ghost use Rattle.rules.specs.Groups.{clusters};
ghost use Rattle.rules.specs.Hunks.{touches_any};
ghost use Rattle.rules.specs.Walk.{walk};
ghost use Rattle.std.specs.Prelude.{◌≡◌, Some};
ghost use Rattle.std.specs.List.{slice_get};

use crate::ahead::Ahead;
use crate::take::take_intersecting;
use crate::touch::{last_end, touches_any};
use rules::hunk::{Hunk, Side, Span};

/// A group of the walk, or a lone hunk.
// Stays: a flag and no enum, since each other field says the same of a lone hunk and of a group.
#[derive(Clone, Copy)]
pub struct NextCluster {
    /// How many hunks of the current side it takes.
    pub current: usize,
    /// How many hunks of the other side it takes.
    pub other: usize,
    /// Its range in the ancestor.
    pub range: Span,
    /// Whether it is a group, and not a lone hunk.
    pub is_group: bool,
    /// The side of its first hunk in the walk.
    pub lead: Side,
}

// The cluster that the first hunk of the walk begins: a group if it touches a hunk of the facing side, and else a lone hunk.
// Stays: `KeptHunks` is asked of three functions, since a ghost field of it is refused: it names some sheets, and is no proposition.
fn cluster_of(ahead: Ahead<'_>) -> NextCluster
    requires { KeptHunks ahead.current.now ahead.other.now }
    ensures { Next ahead.entry.current.now ahead.entry.other.now result }
{
    let (m, n) = take_intersecting(ahead);
    let end = last_end(&ahead.current[..m]).max(last_end(&ahead.other[..n]));
    NextCluster {
        current: m,
        other: n,
        range: Span {
            start: ahead.first.before.start,
            end,
        },
        is_group: touches_any(ahead.first, ahead.facing()),
        lead: ahead.first.side,
    }
}

/// What the next cluster of the walk takes of the two sides' hunks, or nothing where neither side has one.
pub fn next_cluster(current: &[Hunk], other: &[Hunk]) -> Option<NextCluster>
    requires { KeptHunks current.now other.now }
    ensures answer { result ≡ first_told (clusters (walk current.now other.now)) }
    ensures rest { Rest current.now other.now result }
{
    Ahead::of(current, other).map(cluster_of)
}
