ghost use Rattle.std.specs.Prelude.{◌≡◌, ℕ, ◌≤◌, length};
ghost use Rattle.writing.specs.Sides.{Few, lists_differ, lists_lent};
ghost use Rattle.writing.specs.Desks.{Legible, desk_contracted, desk_lists, split_lists};

use crate::sides::Sides;
use contract::zealous::zealously_contract_hunks;
use hunks::list::HunkList;
use reading::shared::hunks_differ;
use reading::three::ThreeSheets;
use rules::hunk::Side;
use rules::limits::{MAX_FILLED, MAX_REMOVED};
use rules::mode::ConflictStyle;

/// The lists that a group is worked in: its two sides, and what contraction removes of the side that leads.
#[derive(Drop)]
// Stays: the lead is no field, since one desk serves all groups and the lead is the group's own.
pub struct Desk {
    pub ours: HunkList<MAX_FILLED>,
    pub theirs: HunkList<MAX_FILLED>,
    pub removed: HunkList<MAX_REMOVED>,
}

impl Desk {
    /// The two sides, so many of the removed hunks in front: contraction answers that number.
    fn sides(&self, in_front: usize) -> Sides<'_>
        requires { in_front ≤ length self.now.removed }
        ensures lists { lists_lent result ≡ split_lists self.now in_front }
        ensures few { Few result }
    {
        let (front, back) = self.removed.as_slice().split_at(in_front);
        Sides {
            front,
            left: self.ours.as_slice(),
            right: self.theirs.as_slice(),
            back,
        }
    }

    /// Contracts the two sides, and lends them.
    pub(crate) fn contract<T: ThreeSheets>(&mut self, three: &T, lead: Side) -> Sides<'_>
        requires { Legible (T.sheets three.now) self.old }
        ensures lists { lists_lent result ≡ desk_contracted (T.sheets three.now) lead self.old }
        ensures few { Few result }
    {
        let Desk {
            ours,
            theirs,
            removed,
        } = self;
        // Stays: two calls, for of a pair that a match chooses the check says "a `&mut` inside an array, a struct or another reference would stand at another lifetime than the one that the value began with".
        let (_, in_front, _) = match lead {
            Side::Current => zealously_contract_hunks(three, ours, theirs, removed),
            Side::Other | Side::Ancestor => zealously_contract_hunks(three, theirs, ours, removed),
        };
        self.sides(in_front)
    }

    /// Contracts the two sides, if the style does, and lends them.
    pub(crate) fn settle<T: ThreeSheets>(
        &mut self,
        three: &T,
        style: ConflictStyle,
        lead: Side,
    ) -> Sides<'_>
        requires { Legible (T.sheets three.now) self.old }
        ensures lists { lists_lent result ≡ desk_lists style (T.sheets three.now) lead self.old }
        ensures few { Few result }
    {
        match style {
            ConflictStyle::Diff3 => {
                self.removed.truncate(0);
                self.sides(0)
            }
            ConflictStyle::Merge | ConflictStyle::ZealousDiff3 => self.contract(three, lead),
        }
    }

    /// Whether the lines of the two sides differ.
    pub(crate) fn differ<T: ThreeSheets>(&self, three: &T) -> bool
        requires { Legible (T.sheets three.now) self.now }
        ensures { result ≡ lists_differ (T.sheets three.now) self.now.ours self.now.theirs }
    {
        hunks_differ(three, self.ours.as_slice(), self.theirs.as_slice())
    }
}
