//! What is rendered, and how it is written into any sink.
ghost use Rattle.std.specs.Prelude.{◌≡◌, ◌+◌, ◌≤◌};
ghost use Rattle.rules.specs.Limits.{max_marker_size};
ghost use Rattle.rules.specs.Pieces.{total};
ghost use Rattle.rendering.specs.Renderings.{Writable, steps_in, pieces_in, marked_in};
ghost use Rattle.rendering.specs.Sinks.{Took};
ghost use Rattle.rendering.specs.Turning.{TurnOf, turn_steps, turn_marked};
ghost use Rattle.writing.specs.Marks.{labels_in};
ghost use Rattle.writing.specs.Sides.{size_of};
ghost use Rattle.writing.specs.States.{HasRoom, Wrote};

use crate::walk::{Turn, Walk};
use groups::fill::fill_ancestor;
use hunks::list::HunkList;
use reading::three::ThreeSheets;
use rules::hunk::{Hunk, Side, Span};
use rules::labels::Labels;
use rules::mode::Conflict;
use sink::piece::Kind;
use sink::sink::Sink;
use writing::desk::Desk;
use writing::keep::Stretch;
use writing::pen::Pen;

// Stays: (d) current and other stay two slices: `Ahead`, `Walk` and `Turn` hold the pair for what each does, and would take a struct of the pair alone apart.
// Stays: (c) that it is `Writable` is no ghost field: "antt found no proof that this ghost field's type is a proposition".
/// What is rendered: three sheets and the hunks of both sides, in a mode and with labels.
#[derive(Drop)]
pub struct Rendering<'a, T> {
    pub three: &'a T,
    pub mode: Conflict,
    pub labels: Labels<'a>,
    pub current: &'a [Hunk],
    pub other: &'a [Hunk],
}

impl<'a, T: ThreeSheets> Rendering<'a, T> {
    /// Writes a cluster by a pen: a group as the mode says, a lone hunk's lines as common. Answers whether the mode marks it.
    pub fn write_turn<S: Sink>(&self, turn: Turn<'_>, desk: &mut Desk, pen: &mut Pen<'_, S>) -> bool
        requires turn { TurnOf (T.sheets self.now.three.now) turn }
        requires size { size_of self.now.mode ≤ max_marker_size }
        requires room { HasRoom S.Sink pen.old (turn_steps self.now.mode (T.sheets self.now.three.now) (labels_in self.now.labels) turn) }
        ensures wrote { Wrote S.Sink pen.old pen.new (turn_steps self.now.mode (T.sheets self.now.three.now) (labels_in self.now.labels) turn.entry) }
        ensures marked { result ≡ turn_marked self.now.mode (T.sheets self.now.three.now) turn.entry }
    {
        let cluster = turn.cluster;
        if cluster.is_group {
            fill_ancestor(turn.current, cluster.range, &mut desk.ours);
            fill_ancestor(turn.other, cluster.range, &mut desk.theirs);
            let stretch = Stretch {
                since: turn.since,
                range: cluster.range,
            };
            pen.group(
                self.three,
                self.mode,
                self.labels,
                stretch,
                cluster.lead,
                desk,
            )
        } else {
            pen.hunks(self.three, turn.current, Kind::Common);
            pen.hunks(self.three, turn.other, Kind::Common);
            false
        }
    }

    /// Writes the ancestor's lines between the clusters, and each cluster, by a pen, which can be asked afterwards whether a line
    /// is open. Answers whether the mode marks a group.
    pub fn write_by<S: Sink>(&self, pen: &mut Pen<'_, S>) -> bool
        requires writable { Writable T.ThreeSheets self.now }
        requires room { HasRoom S.Sink pen.old (steps_in T.ThreeSheets self.now) }
        ensures wrote { Wrote S.Sink pen.old pen.new (steps_in T.ThreeSheets self.now) }
        ensures marked { result ≡ marked_in T.ThreeSheets self.now }
    {
        let mut desk = Desk {
            ours: HunkList::new(),
            theirs: HunkList::new(),
            removed: HunkList::new(),
        };
        let mut walk = Walk {
            since: 0,
            current: self.current,
            other: self.other,
        };
        // Stays: (d) a flag, since every turn is written: `any` would end at the first that is marked.
        let mut marked = false;
        while let Some(turn) = walk.turn() {
            let ahead = Span {
                start: turn.since,
                end: turn.cluster.range.start,
            };
            pen.ancestor(self.three, ahead);
            marked |= self.write_turn(turn, &mut desk, pen);
        }
        let behind = Span {
            start: walk.since,
            end: self.three.count_of(Side::Ancestor),
        };
        pen.ancestor(self.three, behind);
        marked
    }

    /// Gives a sink the pieces of the rendering. Answers whether the mode marks a group.
    pub fn write<S: Sink>(&self, sink: &mut S) -> bool
        requires writable { Writable T.ThreeSheets self.now }
        requires room { S.taken sink.old + total (pieces_in T.ThreeSheets self.now) ≤ S.announced sink.old }
        ensures took { Took S.Sink sink.old sink.new (pieces_in T.ThreeSheets self.now) }
        ensures marked { result ≡ marked_in T.ThreeSheets self.now }
    {
        let mut pen = Pen::new(sink);
        self.write_by(&mut pen)
    }
}
