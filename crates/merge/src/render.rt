//! What a caller asks: how long a rendering is, and the rendering itself.
ghost use Rattle.std.specs.Prelude.{◌≡◌, if◌then◌else◌, Ok};
ghost use Rattle.rules.specs.declared.mode.Resolution.{Resolution as Verdict};
ghost use Rattle.rules.specs.declared.mode.Resolution.TheVariants.{Complete};
ghost use Rattle.rules.specs.Renders.{size_answer};
ghost use Rattle.rules.specs.RunAgreement.{AgreementOverRuns};
ghost use Rattle.rules.specs.TableLaws.{TableKeeps};
ghost use Rattle.rules.specs.Verdict.{marked_verdict};
ghost use Rattle.writing.specs.Marks.{labels_in};
ghost use Rattle.merge.specs.Asking.{asked};
ghost use Rattle.merge.specs.Sinks.{sink_at, Renders};
ghost use Rattle.merge.specs.Told.{RenderTold};

use crate::asking::admit;
use hunks::table::HunkTable;
use reading::three::ThreeSheets;
use rules::labels::Labels;
use rules::mode::{Conflict, Resolution};
use rules::refusal::RenderRefusal;
use sink::refusal::TooLong;
use sink::sink::Sink;

// The verdict of a mode, by whether it has marked a group.
fn verdict_of(mode: Conflict, marked: bool) -> Resolution
    ensures { result ≡ (if marked then marked_verdict mode else Complete) }
{
    match (marked, mode) {
        (false, _) => Resolution::Complete,
        (true, Conflict::Keep { .. }) => Resolution::Conflict,
        (true, _) => Resolution::CompleteWithAutoResolvedConflict,
    }
}

// Stays: (d) mode and labels are no struct of their own here: a unit has its labels for good and is asked for a mode, and `Rendering` holds both; nor do `size` and `render` take a `Unit`: a caller that keeps no labels asks without making one, and `Unit::render` is the method of one that does.
/// The length of the rendering that three sheets and the hunks held make in a mode, or the first refusal.
pub fn size<T: ThreeSheets>(
    three: &T,
    table: &HunkTable,
    mode: Conflict,
    labels: Labels<'_>,
) -> Result<u32, RenderRefusal>
    ensures { result ≡ size_answer table.now (T.sheets three.now) mode (labels_in labels.entry) }
{
    admit(three, table, mode, labels).map(|rendering| rendering.measure())
}

/// Gives the sink the rendering that three sheets and the hunks held make in a mode, and answers the verdict; or refuses and changes nothing.
pub fn render<T: ThreeSheets, S: Sink>(
    three: &T,
    table: &HunkTable,
    mode: Conflict,
    labels: Labels<'_>,
    sink: &mut S,
) -> Result<Resolution, RenderRefusal>
    ensures renders { Renders S.Sink table.now (T.sheets three.now) (asked mode labels.entry (S.capacity sink.old)) sink.old sink.new result }
    ensures told { (v : Verdict) → result ≡ Ok v → RenderTold S.rule (S.fresh sink.old) (T.sheets three.now) table.now (asked mode labels.entry (S.capacity sink.old)) v (sink_at S.Sink sink.new) }
    ensures law { AgreementOverRuns S.Value S.rule (S.fresh sink.old) S.Value S.rule (S.fresh sink.old) }
    ensures keeps { TableKeeps table.now }
{
    let rendering = admit(three, table, mode, labels)?;
    let needed = rendering.measure();
    sink.begin(needed as usize).map_err(|TooLong { capacity }| RenderRefusal::SinkTooSmall {
        needed,
        capacity: capacity as u64,
    })?;
    let marked = rendering.write(sink);
    Ok(verdict_of(mode, marked))
}
