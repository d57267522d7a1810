//! The laws, each the contract of a function: no check passes without their proofs.
ghost use Rattle.std.specs.Prelude.{◌≡◌};
ghost use Rattle.rules.specs.Hunks.{Sheets as AllSheets};
ghost use Rattle.rules.specs.Limits.{max_lines, max_bytes, max_hunks, max_label, max_marker_size};
ghost use Rattle.rules.specs.Tables.{Held};
ghost use Rattle.rules.specs.Agreement.{UnitsAgree};
ghost use Rattle.rules.specs.Cases.{Cases};
ghost use Rattle.rules.specs.GroupLaws.{ExchangeKeepsGroups};
ghost use Rattle.rules.specs.RenderLaws.{RenderRules};
ghost use Rattle.rules.specs.RunLaws.{TablesKeep, SameCallsSameHunks};
ghost use Rattle.rules.specs.RunAgreement.{AgreementOverRuns, UnitsAgreeOverRuns};
ghost use Rattle.rules.specs.TwoUnits.{UnitOf, TwoUnits};
ghost use Rattle.rules.specs.Exchange.{exchanged_sheets};
ghost use Rattle.rules.specs.Statements.{HunksStand, WalksStand, GroupsStand, RangesStand, SidesStand, EndingsStand, MarkersStand, UnionsStand, VerdictsStand, OutlinesStand, LengthsStand, HeldStands};
ghost use Rattle.rules.specs.TableLaws.{TablesFollowRules, KeepsLaw};
ghost use Rattle.rules.specs.WalkLaws.{TouchLaw};

use crate::limits::{MAX_BYTES, MAX_HUNKS, MAX_LABEL, MAX_LINES, MAX_MARKER_SIZE};
use crate::sink::{Bytes, Pieces, Takes};

/// The limits: 4,096 lines and 60,000 bytes a sheet, 256 hunks a side, 64 bytes a label, and marker size 255.
pub fn limits_stand() -> (u32, usize, usize, usize, u32)
    ensures numbers { result ≡ (4096, 60000, 256, 64, 255) }
    ensures names { result ≡ (max_lines, max_bytes, max_hunks, max_label, max_marker_size) }
{
    (MAX_LINES, MAX_BYTES, MAX_HUNKS, MAX_LABEL, MAX_MARKER_SIZE)
}

/// The worked cases come out as stated, in all six modes.
pub fn cases_stand()
    ensures { Cases }
{}

/// Which lines hunks stand for, and what fills the sides of a group.
pub fn hunks_stand()
    ensures { HunksStand }
{}

/// When two hunks touch.
pub fn touching_stands()
    ensures { TouchLaw }
{}

/// The walk holds every hunk of both sides, in order.
pub fn walks_stand()
    ensures { WalksStand }
{}

/// Groups are the chains of touching hunks.
pub fn groups_stand()
    ensures { GroupsStand }
{}

/// The ranges of groups and lone hunks, which lie apart.
pub fn ranges_stand()
    ensures { RangesStand }
{}

/// An exchange of sides keeps the groups.
pub fn exchange_keeps_groups()
    ensures { ExchangeKeepsGroups }
{}

/// What ours, theirs and Union write of each group, and what contraction leaves.
pub fn sides_stand()
    ensures { SidesStand }
{}

/// The line ending that a list of hunks shows.
pub fn endings_stand()
    ensures { EndingsStand }
{}

/// The form of a rendering that keeps conflicts, and where ending pieces stand.
pub fn markers_stand()
    ensures { MarkersStand }
{}

/// The form of a union, and its endings.
pub fn unions_stand()
    ensures { UnionsStand }
{}

/// When each mode says what.
pub fn verdicts_stand()
    ensures { VerdictsStand }
{}

/// A rendering's outline, from the groups alone: no line lost or doubled.
pub fn outlines_stand()
    ensures { OutlinesStand }
{}

/// No rendering is longer than 32 bits can tell.
pub fn lengths_stand()
    ensures { LengthsStand }
{}

/// What two units that hold the same hunks, sides exchanged, agree on.
pub fn units_agree()
    ensures { UnitsAgree }
{}

/// When a table takes a hunk or lets one go, and what it holds then.
pub fn tables_follow_rules()
    ensures { TablesFollowRules }
{}

/// What a hunk table keeps through every run of calls.
pub fn tables_keep()
    ensures { TablesKeep }
{}

/// The test of a side's hunks says what a table keeps of them.
pub fn tables_tested()
    ensures { KeepsLaw }
{}

/// What is held is the accepted enters not withdrawn.
pub fn held_stands()
    ensures { HeldStands }
{}

/// The same calls, sides exchanged, get the same answers and leave the same hunks, sides exchanged.
pub fn same_calls_same_hunks()
    ensures { SameCallsSameHunks }
{}

/// What size and render ask, answer and leave in a sink of any kind.
pub fn renders_follow_rules<K: Takes>()
    ensures { (t : Held) (s : AllSheets) → RenderRules K.Takes.value K.Takes.rule K.Takes.fresh t s }
{}

/// What accepted renders of two units show, told in words.
pub fn two_units_agree()
    ensures { (s : AllSheets) (u : UnitOf s) (v : UnitOf (exchanged_sheets s)) → TwoUnits s u v }
{}

/// What two units agree on after every two runs of calls, whatever kinds of sinks they render into.
pub fn units_agree_over_runs<K: Takes, L: Takes>()
    ensures { AgreementOverRuns K.Takes.value K.Takes.rule K.Takes.fresh L.Takes.value L.Takes.rule L.Takes.fresh }
{}

/// The same at two kinds of sink, one that keeps the pieces and one that keeps their bytes.
pub fn units_agree_in_bytes()
    ensures { UnitsAgreeOverRuns }
{
    units_agree_over_runs::<Pieces, Bytes>()
}
