ghost use Rattle.std.specs.Prelude.{◌≡◌, ℕ, ◌+◌, ◌≤◌, ◌++◌, length};
ghost use Rattle.rules.specs.Limits.{max_filled, max_removed};
ghost use Rattle.rules.specs.Contraction.{contracted};
ghost use Rattle.reading.specs.Reading.{AllReadable};
ghost use Rattle.contract.specs.Ends.{shared_front_cut, shared_back_cut, removed_of, counts_of};

use crate::list::{gain_back, gain_front, lose_back, lose_front};
use hunks::list::HunkList;
use reading::hunk::count_lines;
use reading::shared::{shared_back, shared_front};
use reading::three::ThreeSheets;
use rules::limits::{MAX_FILLED, MAX_REMOVED};

/// The equal leading lines leave both lists; those of the lead are kept as removed.
// Stays: a twin of contract_back in its shape alone, since each call is another one.
fn contract_front<T: ThreeSheets>(
    three: &T,
    lead: &mut HunkList<MAX_FILLED>,
    facing: &mut HunkList<MAX_FILLED>,
    removed: &mut HunkList<MAX_REMOVED>,
)
    requires ours { AllReadable (T.sheets three.now) lead.old }
    requires theirs { AllReadable (T.sheets three.now) facing.old }
    ensures few { length lead.old ≤ max_filled }
    ensures lead { lead.new ≡ (shared_front_cut (T.sheets three.now) lead.old facing.old lead.old).behind }
    ensures facing { facing.new ≡ (shared_front_cut (T.sheets three.now) lead.old facing.old facing.old).behind }
    ensures removed { removed.new ≡ (shared_front_cut (T.sheets three.now) lead.old facing.old lead.old).ahead }
{
    let n = shared_front(three, lead.as_slice(), facing.as_slice());
    removed.truncate(0);
    gain_front(removed, lead.as_slice(), n);
    lose_front(lead, n);
    lose_front(facing, n);
}

/// The equal trailing lines leave both lists; those of the lead are kept as removed.
fn contract_back<T: ThreeSheets>(
    three: &T,
    lead: &mut HunkList<MAX_FILLED>,
    facing: &mut HunkList<MAX_FILLED>,
    removed: &mut HunkList<MAX_REMOVED>,
)
    requires ours { AllReadable (T.sheets three.now) lead.old }
    requires theirs { AllReadable (T.sheets three.now) facing.old }
    requires room { length removed.old + length lead.old ≤ max_removed }
    ensures lead { lead.new ≡ (shared_back_cut (T.sheets three.now) lead.old facing.old lead.old).ahead }
    ensures facing { facing.new ≡ (shared_back_cut (T.sheets three.now) lead.old facing.old facing.old).ahead }
    ensures removed { removed.new ≡ removed.old ++ (shared_back_cut (T.sheets three.now) lead.old facing.old lead.old).behind }
{
    let n = shared_back(three, lead.as_slice(), facing.as_slice());
    let ours = count_lines(lead.as_slice()) - n;
    let theirs = count_lines(facing.as_slice()) - n;
    gain_back(removed, lead.as_slice(), ours);
    lose_back(lead, ours);
    lose_back(facing, theirs);
}

/// The longest equal run of leading lines leaves the two sides of a group, then that of trailing lines among the rest.
/// What the lead loses is put into `removed`, front then back. Answers how many hunks of the lead were removed, how
/// many of them stand in front, and how many remain.
// Stays: the project fixes that the lists are handed in and that the answer is a tuple of the three counts.
pub fn zealously_contract_hunks<T: ThreeSheets>(
    three: &T,
    lead: &mut HunkList<MAX_FILLED>,
    facing: &mut HunkList<MAX_FILLED>,
    removed: &mut HunkList<MAX_REMOVED>,
) -> (usize, usize, usize)
    requires ours { AllReadable (T.sheets three.now) lead.old }
    requires theirs { AllReadable (T.sheets three.now) facing.old }
    ensures lead { lead.new ≡ (contracted (T.sheets three.now) lead.old facing.old).lead }
    ensures facing { facing.new ≡ (contracted (T.sheets three.now) lead.old facing.old).facing }
    ensures removed { removed.new ≡ removed_of (contracted (T.sheets three.now) lead.old facing.old) }
    ensures counts { result ≡ counts_of (contracted (T.sheets three.now) lead.old facing.old) }
{
    contract_front(three, lead, facing, removed);
    let in_front = removed.len();
    contract_back(three, lead, facing, removed);
    (removed.len(), in_front, lead.len())
}
