ghost use Rattle.std.specs.Prelude.{◌≡◌, ℕ, ◌≤◌, length};
ghost use Rattle.rules.specs.Limits.{max_marker_size};
ghost use Rattle.rules.specs.Walk.{is_current};
ghost use Rattle.rules.specs.Blocks.{blocked, keep_steps};
ghost use Rattle.rules.specs.Unions.{union_steps};
ghost use Rattle.writing.specs.Desks.{Legible, desk_contracted, desk_lists};
ghost use Rattle.writing.specs.Marks.{labels_in};
ghost use Rattle.writing.specs.Sides.{lists_differ, lists_steps, lists_marked, size_of, GroupsTold};
ghost use Rattle.writing.specs.States.{HasRoom, Wrote};

use crate::desk::Desk;
use crate::keep::Stretch;
use crate::marks::Marks;
use crate::pen::Pen;
use reading::shared::hunks_differ;
use reading::three::ThreeSheets;
use rules::hunk::Side;
use rules::labels::Labels;
use rules::mode::Conflict;
use sink::piece::Kind;
use sink::sink::Sink;

impl<'a, S: Sink> Pen<'a, S> {
    /// Settles a group's lists and writes it under Keep. Answers whether a block was written.
    fn keep_group<T: ThreeSheets>(
        &mut self,
        three: &T,
        marks: Marks<'_>,
        stretch: Stretch,
        lead: Side,
        desk: &mut Desk,
    ) -> bool
        requires within { stretch.range.end ≤ length (T.sheets three.now).ancestor }
        requires legible { Legible (T.sheets three.now) desk.old }
        requires room { HasRoom S.Sink self.old (keep_steps marks.style (T.sheets three.now) marks.size (labels_in marks.labels) stretch.since stretch.range.start stretch.range.end (desk_lists marks.style (T.sheets three.now) lead desk.old)) }
        ensures wrote { Wrote S.Sink self.old self.new (keep_steps marks.entry.style (T.sheets three.now) marks.entry.size (labels_in marks.entry.labels) stretch.since stretch.range.start stretch.range.end (desk_lists marks.entry.style (T.sheets three.now) lead desk.old)) }
        ensures block { result ≡ blocked marks.entry.style (T.sheets three.now) (desk_lists marks.entry.style (T.sheets three.now) lead desk.old).left (desk_lists marks.entry.style (T.sheets three.now) lead desk.old).right }
    {
        let sides = desk.settle(three, marks.style, lead);
        self.keep(three, marks, stretch, sides)
    }

    /// Contracts a group's lists and writes it under Union. Answers whether what is left of the sides differs.
    fn union_group<T: ThreeSheets>(&mut self, three: &T, lead: Side, desk: &mut Desk) -> bool
        requires legible { Legible (T.sheets three.now) desk.old }
        requires room { HasRoom S.Sink self.old (union_steps (T.sheets three.now) (desk_contracted (T.sheets three.now) lead desk.old)) }
        ensures wrote { Wrote S.Sink self.old self.new (union_steps (T.sheets three.now) (desk_contracted (T.sheets three.now) lead desk.old)) }
        ensures marked { result ≡ lists_differ (T.sheets three.now) (desk_contracted (T.sheets three.now) lead desk.old).left (desk_contracted (T.sheets three.now) lead desk.old).right }
    {
        let sides = desk.contract(three, lead);
        self.union(three, sides);
        hunks_differ(three, sides.left, sides.right)
    }

    /// Writes a group in any mode. Its sides are handed over filled, with the side of its first hunk, and are contracted in
    /// place. Answers whether the mode marks the group.
    pub fn group<T: ThreeSheets>(
        &mut self,
        three: &T,
        mode: Conflict,
        labels: Labels<'_>,
        stretch: Stretch,
        lead: Side,
        desk: &mut Desk,
    ) -> bool
        requires within { stretch.range.end ≤ length (T.sheets three.now).ancestor }
        requires size { size_of mode ≤ max_marker_size }
        requires legible { Legible (T.sheets three.now) desk.old }
        requires room { HasRoom S.Sink self.old (lists_steps mode (T.sheets three.now) (labels_in labels) stretch.since stretch.range.start stretch.range.end (is_current lead) desk.old.ours desk.old.theirs) }
        ensures wrote { Wrote S.Sink self.old self.new (lists_steps mode (T.sheets three.now) (labels_in labels.entry) stretch.since stretch.range.start stretch.range.end (is_current lead) desk.old.ours desk.old.theirs) }
        ensures marked { result ≡ lists_marked mode (T.sheets three.now) (is_current lead) desk.old.ours desk.old.theirs }
    {
        match mode {
            Conflict::Keep { style, marker_size } => {
                let marks = Marks {
                    style,
                    size: marker_size,
                    labels,
                };
                self.keep_group(three, marks, stretch, lead, desk)
            }
            // Stays: two lines for each side; what they share is `hunks` and `differ`.
            Conflict::ResolveWithOurs => {
                self.hunks(three, desk.ours.as_slice(), Kind::Common);
                desk.differ(three)
            }
            Conflict::ResolveWithTheirs => {
                self.hunks(three, desk.theirs.as_slice(), Kind::Common);
                desk.differ(three)
            }
            Conflict::ResolveWithUnion => self.union_group(three, lead, desk),
        }
    }
}

/// What is written of a group's own sides is what the rules say of the group.
pub fn groups_told()
    ensures { GroupsTold }
{}
