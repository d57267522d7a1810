//! Two units that render the same sheets, current on one being other on the second.
ghost use Rattle.rules.specs.TableLaws.{TableKeeps};
ghost use Rattle.merge.specs.Asking.{asked};
ghost use Rattle.merge.specs.Sinks.{Renders};
ghost use Rattle.merge.specs.Units.{UnitsTold, KindsAgree};

use crate::render::render;
use hunks::table::HunkTable;
use reading::three::ThreeSheets;
use rules::labels::Labels;
use rules::mode::{Conflict, Resolution};
use rules::refusal::RenderRefusal;
use sink::sink::Sink;

/// What a unit renders from: its three sheets, its table, and the labels that it writes.
#[derive(Drop)]
pub struct Unit<'a, T> {
    pub three: &'a T,
    pub table: &'a HunkTable,
    pub labels: Labels<'a>,
}

impl<'a, T: ThreeSheets> Unit<'a, T> {
    // The unit's render.
    fn render<S: Sink>(&self, mode: Conflict, sink: &mut S) -> Result<Resolution, RenderRefusal>
        ensures renders { Renders S.Sink self.now.table.now (T.sheets self.now.three.now) (asked mode self.now.labels (S.capacity sink.old)) sink.old sink.new result }
        ensures keeps { TableKeeps self.now.table.now }
    {
        render(self.three, self.table, mode, self.labels, sink)
    }
}

/// Renders on two units in one mode, each into a sink of its own, and answers what each of them does.
pub fn render_units<T: ThreeSheets, S: Sink, T2: ThreeSheets, S2: Sink>(
    first: &Unit<'_, T>,
    sink: &mut S,
    second: &Unit<'_, T2>,
    partner: &mut S2,
    mode: Conflict,
) -> (
    Result<Resolution, RenderRefusal>,
    Result<Resolution, RenderRefusal>,
)
    ensures first { Renders S.Sink first.now.table.now (T.sheets first.now.three.now) (asked mode first.now.labels (S.capacity sink.old)) sink.old sink.new result.0 }
    ensures second { Renders S2.Sink second.now.table.now (T2.sheets second.now.three.now) (asked mode second.now.labels (S2.capacity partner.old)) partner.old partner.new result.1 }
    ensures told { UnitsTold S.rule (S.fresh sink.old) S2.rule (S2.fresh partner.old) (T.sheets first.now.three.now) first.now.table.now (T2.sheets second.now.three.now) second.now.table.now }
    ensures law { KindsAgree S.rule (S.fresh sink.old) S2.rule (S2.fresh partner.old) }
{
    (first.render(mode, sink), second.render(mode, partner))
}
