//! The questions that size and render share.
ghost use Rattle.std.specs.Prelude.{◌≡◌, length, ◌==◌, Some, None, MatchResult};
ghost use Rattle.std.specs.Option.{option_map};
ghost use Rattle.rules.specs.declared.refusal.RenderRefusal.TheVariants.{CountsDiffer, MarkerSize, LabelTooLong};
ghost use Rattle.rules.specs.Hunks.{sheet_of};
ghost use Rattle.rules.specs.Questions.{ask, answered};
ghost use Rattle.rules.specs.Renders.{size_fits, label_fits, size_questions};
ghost use Rattle.rules.specs.TableLaws.{TableKeeps};
ghost use Rattle.rules.specs.Tables.{count_of};
ghost use Rattle.writing.specs.Marks.{labels_in};
ghost use Rattle.merge.specs.Asking.{Admits};

use hunks::table::HunkTable;
use reading::three::ThreeSheets;
use rendering::whole::Rendering;
use rules::hunk::Side;
use rules::labels::Labels;
use rules::limits::{MAX_LABEL, MAX_MARKER_SIZE};
use rules::mode::Conflict;
use rules::refusal::RenderRefusal;

// One question: yes, or its refusal.
fn ask_whether(fits: bool, refusal: RenderRefusal) -> Result<(), RenderRefusal>
    ensures { result ≡ answered (ask fits refusal None) tt }
{
    if fits { Ok(()) } else { Err(refusal) }
}

// A sheet has the count of lines that the table was opened with.
fn ask_count<T: ThreeSheets>(three: &T, table: &HunkTable, side: Side) -> Result<(), RenderRefusal>
    ensures { result ≡ answered (ask (length (sheet_of (T.sheets three.now) side) == count_of table.now side) (CountsDiffer side) None) tt }
{
    ask_whether(
        three.count_of(side) == table.lines(side),
        RenderRefusal::CountsDiffer(side),
    )
}

// The marker size is asked for under Keep alone.
fn ask_marker_size(mode: Conflict) -> Result<(), RenderRefusal>
    ensures { result ≡ answered (ask (size_fits mode) MarkerSize None) tt }
{
    match mode {
        Conflict::Keep { marker_size, .. } => ask_whether(
            (1..=MAX_MARKER_SIZE).contains(&marker_size),
            RenderRefusal::MarkerSize,
        ),
        _ => Ok(()),
    }
}

fn ask_label(label: Option<&[u8]>, side: Side) -> Result<(), RenderRefusal>
    ensures { result ≡ answered (ask (label_fits (option_map (λ x. x.now) label.entry)) (LabelTooLong side) None) tt }
{
    ask_whether(
        label.is_none_or(|bytes| bytes.len() <= MAX_LABEL),
        RenderRefusal::LabelTooLong(side),
    )
}

// Asks for the sheets' counts, the marker size and the labels, in this order: the first that does not fit is refused.
fn ask<T: ThreeSheets>(
    three: &T,
    table: &HunkTable,
    mode: Conflict,
    labels: Labels<'_>,
) -> Result<(), RenderRefusal>
    ensures { result ≡ answered (size_questions table.now (T.sheets three.now) mode (labels_in labels.entry)) tt }
{
    ask_count(three, table, Side::Ancestor)?;
    ask_count(three, table, Side::Current)?;
    ask_count(three, table, Side::Other)?;
    ask_marker_size(mode)?;
    ask_label(labels.ancestor, Side::Ancestor)?;
    ask_label(labels.current, Side::Current)?;
    ask_label(labels.other, Side::Other)
}

// Stays: (d) `keeps` says the table's invariant again, here and in `render`: a caller is told it by clauses alone, as `HunkTable::current` tells it here.
// Stays: (c) with `ask(..).map(|()| Rendering { .. })` the contract that the check infers of the closure says nothing of the rendering made (`Unit`).
/// The rendering of three sheets and the hunks held, or the first refusal.
pub fn admit<'a, T: ThreeSheets>(
    three: &'a T,
    table: &'a HunkTable,
    mode: Conflict,
    labels: Labels<'a>,
) -> Result<Rendering<'a, T>, RenderRefusal>
    ensures answer { MatchResult result (λ rendering. Admits T.ThreeSheets table.now (T.sheets three.now) mode (labels_in labels.entry) rendering) (λ why. size_questions table.now (T.sheets three.now) mode (labels_in labels.entry) ≡ Some why) }
    ensures keeps { TableKeeps table.now }
{
    let (current, other) = (table.current(), table.other());
    ask(three, table, mode, labels)?;
    Ok(Rendering {
        three,
        mode,
        labels,
        current,
        other,
    })
}
