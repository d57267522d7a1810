ghost use Rattle.std.specs.Prelude.{◌≡◌};
ghost use Rattle.rules.specs.Sides.{line_left};
ghost use Rattle.reading.specs.Reading.{AllReadable};

use reading::hunk::contains_lines;
use reading::three::ThreeSheets;
use rules::hunk::Hunk;

/// The two sides of a group: what left them ahead, what is left of ours and of theirs, and what left them behind.
#[derive(Clone, Copy)]
// Stays: `Few` is no ghost field, for `union` and `any_line_left` take sides of any length; left and right are the rules' names.
pub struct Sides<'a> {
    pub front: &'a [Hunk],
    pub left: &'a [Hunk],
    pub right: &'a [Hunk],
    pub back: &'a [Hunk],
}

impl Sides<'_> {
    /// Whether either side has a line left.
    #[tactic(auto, using(reading::proofs::Counting::lines_there))]
    pub fn any_line_left<T: ThreeSheets>(self, three: &T) -> bool
        requires ours { AllReadable (T.sheets three.now) self.left.now }
        requires theirs { AllReadable (T.sheets three.now) self.right.now }
        ensures { result ≡ line_left (T.sheets three.now) self.entry.left.now self.entry.right.now }
    {
        contains_lines(self.left) || contains_lines(self.right)
    }
}
