//! The walk over the hunks of both sides, turn by turn.
ghost use Rattle.std.specs.Prelude.{MatchOption};
ghost use Rattle.groups.specs.Taking.{KeptHunks};
ghost use Rattle.rendering.specs.Turning.{Turned, Ended};

use groups::next::{NextCluster, next_cluster};
use rules::hunk::Hunk;

/// What is left of the walk: the hunks of both sides, and the ancestor's line at which the last cluster ended.
#[derive(Drop)]
pub(crate) struct Walk<'a> {
    pub(crate) since: u32,
    pub(crate) current: &'a [Hunk],
    pub(crate) other: &'a [Hunk],
}

// Stays: (d) the fields that have a walk's names hold other things: a turn's lists are the hunks taken, a walk's those that are left.
/// A cluster taken off the walk, with its hunks of both sides, and the line at which the one before it ended.
#[derive(Clone, Copy)]
pub struct Turn<'a> {
    pub since: u32,
    pub cluster: NextCluster,
    pub current: &'a [Hunk],
    pub other: &'a [Hunk],
}

// Stays: (c) no `Iterator`: behind `for turn in &mut walk` a proof knows nothing of the walk, where the ancestor's last lines begin; the loop's invariant sees the walk, but not its loan ("record `Walk` has no field `ghost_name`").
impl<'a> Walk<'a> {
    /// Takes the next cluster off, if one is left.
    pub(crate) fn turn(&mut self) -> Option<Turn<'a>>
        requires { KeptHunks self.old.current.now self.old.other.now }
        ensures { MatchOption result (Ended self.old self.new) (λ turn. Turned self.old self.new turn) }
    {
        let cluster = next_cluster(self.current, self.other)?;
        let (current, later_current) = self.current.split_at(cluster.current);
        let (other, later_other) = self.other.split_at(cluster.other);
        let since = self.since;
        self.since = cluster.range.end;
        self.current = later_current;
        self.other = later_other;
        Some(Turn {
            since,
            cluster,
            current,
            other,
        })
    }
}
