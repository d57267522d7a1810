ghost use Rattle.std.specs.Prelude.{◌≡◌, ℕ, ◌≤◌, not, length};
ghost use Rattle.std.specs.Iterator.{UpTo};
ghost use Rattle.rules.specs.Limits.{max_filled};
ghost use Rattle.rules.specs.Lines.{same_lines};
ghost use Rattle.rules.specs.SharedLines.{shared_front, shared_back};
ghost use Rattle.rules.specs.Hunks.{side_lines};
ghost use Rattle.reading.specs.Reading.{AllReadable};
ghost use Rattle.reading.specs.Cursors.{CountsAlike};

use crate::cursor::{Back, Forward, Lines};
use crate::hunk::count_lines;
use crate::three::ThreeSheets;
use rules::hunk::Hunk;
use sheet::line::same_line;

// How many lines two cursors give alike, from the first on.
fn count_alike<'a, I: Iterator<Item = &'a [u8]>>(ours: I, theirs: I) -> u32
    requires ours { I.can_next ours }
    requires theirs { I.can_next theirs }
    requires few { UpTo (I.remaining ours) 4294967295 }
    ensures { CountsAlike I.next_gives ours theirs result }
{
    ours.zip(theirs)
        .take_while(|(x, y)| same_line(x, y))
        .count() as u32
}

/// How many leading lines two lists of hunks have in common: a cursor goes forward over each.
// Stays: the sheets and both lists are three parameters of three functions, since contraction cuts the lists between the calls.
pub fn shared_front<T: ThreeSheets>(three: &T, a: &[Hunk], b: &[Hunk]) -> u32
    requires few { length a.now ≤ max_filled }
    requires ours { AllReadable (T.sheets three.now) a.now }
    requires theirs { AllReadable (T.sheets three.now) b.now }
    ensures { result ≡ shared_front (side_lines (T.sheets three.now) a.now) (side_lines (T.sheets three.now) b.now) }
{
    count_alike(Forward(Lines::of(three, a)), Forward(Lines::of(three, b)))
}

/// How many trailing lines two lists of hunks have in common: a cursor goes back over each.
// Stays: what it shares with `shared_front` is `count_alike`; the cursor that each names is all that is left.
pub fn shared_back<T: ThreeSheets>(three: &T, a: &[Hunk], b: &[Hunk]) -> u32
    requires few { length a.now ≤ max_filled }
    requires ours { AllReadable (T.sheets three.now) a.now }
    requires theirs { AllReadable (T.sheets three.now) b.now }
    ensures { result ≡ shared_back (side_lines (T.sheets three.now) a.now) (side_lines (T.sheets three.now) b.now) }
{
    count_alike(Back(Lines::of(three, a)), Back(Lines::of(three, b)))
}

/// Whether the lines of two lists of hunks differ.
pub fn hunks_differ<T: ThreeSheets>(three: &T, a: &[Hunk], b: &[Hunk]) -> bool
    requires few { (length a.now ≤ max_filled) × (length b.now ≤ max_filled) }
    requires ours { AllReadable (T.sheets three.now) a.now }
    requires theirs { AllReadable (T.sheets three.now) b.now }
    ensures { result ≡ not (same_lines (side_lines (T.sheets three.now) a.now) (side_lines (T.sheets three.now) b.now)) }
{
    let n = shared_front(three, a, b);
    n != count_lines(a) || n != count_lines(b)
}
