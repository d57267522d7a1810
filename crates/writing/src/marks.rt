ghost use Rattle.std.specs.Prelude.{◌≤◌};
ghost use Rattle.rules.specs.Limits.{max_marker_size};

use rules::labels::Labels;
use rules::mode::ConflictStyle;

/// How a conflict that is kept is marked: the style, how many characters a marker has, and the labels.
#[derive(Clone, Copy)]
pub struct Marks<'a> {
    pub style: ConflictStyle,
    pub size: u32,
    pub labels: Labels<'a>,
    ghost fits: { size ≤ max_marker_size },
}
