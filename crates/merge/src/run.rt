//! A whole run of one unit: its opening, and then any calls, with its renders.
ghost use Rattle.std.specs.Prelude.{◌≡◌, List, ◌∷◌, map, Ok, slice_set};
ghost use Rattle.rules.specs.RunAgreement.{AgreementOverRuns};
ghost use Rattle.rules.specs.Runs.{Call as RulesCall, opening, opened_as, after_call, after_calls, after_run, answer as ruled_answer, answers as ruled_answers};
ghost use Rattle.merge.specs.Calls.{call_in, calls_in, run_in, answer_in, answer_to, answers_to, written_over, call_sink, sink_after, written_by, furthest, UnitTable};
ghost use Rattle.merge.specs.Sinks.{sink_at, KeepsBehind};

use crate::render::render;
use hunks::table::HunkTable;
use reading::three::ThreeSheets;
use rules::hunk::{Hunk, Side};
use rules::labels::Labels;
use rules::mode::{Conflict, Resolution};
use rules::refusal::{RenderRefusal, TableRefusal};
use sink::sink::Sink;

// Stays: (d) not the table's own enum of calls: a run opens its table itself, and a render is no call to a table.
/// A call to a unit's table, or a render of it.
#[derive(Clone, Copy)]
pub enum Call<'a> {
    Enter(Hunk),
    Withdraw(Side),
    Render { mode: Conflict, labels: Labels<'a> },
}

/// What a call answered.
#[derive(Clone, Copy, PartialEq, Eq, Debug)]
pub enum Answer {
    Counted(Result<usize, TableRefusal>),
    Judged(Result<Resolution, RenderRefusal>),
}

// Stays: (d) the calls of a run are values, which the rules of runs go over; so one of them is made by a match.
// One call, a render into the sink; and its answer.
fn make_call<T: ThreeSheets, S: Sink>(
    three: &T,
    table: &mut HunkTable,
    call: Call<'_>,
    sink: &mut S,
) -> Answer
    ensures answer { result ≡ answer_to (T.sheets three.now) (S.capacity sink.old) table.old call.entry }
    ensures table { table.new ≡ after_call table.old (call_in (T.sheets three.now) (S.capacity sink.old) call.entry) }
    ensures sink { sink_at S.Sink sink.new ≡ call_sink S.rule (S.fresh sink.old) table.old (call_in (T.sheets three.now) (S.capacity sink.old) call.entry) (sink_at S.Sink sink.old) }
    ensures kept { KeepsBehind S.Sink (written_by table.old (call_in (T.sheets three.now) (S.capacity sink.old) call.entry)) sink.old sink.new }
{
    match call {
        Call::Enter(hunk) => Answer::Counted(table.enter(hunk)),
        Call::Withdraw(side) => Answer::Counted(table.withdraw(side)),
        Call::Render { mode, labels } => Answer::Judged(render(three, table, mode, labels, sink)),
    }
}

// Stays: (c) by its index: with `if let Some(place) = answers.get_mut(n)` the check left `returns-in-Some` open (it knows of the slice its length alone).
// Notes an answer at place n, if there is one.
fn note(answers: &mut [Answer], n: usize, answer: Answer)
    ensures { answers.new ≡ slice_set answers.old n answer }
{
    if n < answers.len() {
        answers[n] = answer;
    }
}

// Stays: (d) a Result, though the sheets' counts are always accepted: `opened` and `answers` name what the opening answered, and callers are promised it.
/// Opens the table with the three sheets' counts of lines and makes the calls in order, each render into the sink.
/// A call that is refused changes nothing, and the next is made.
/// The answers are noted from the front of `answers`, as many as there are places. Answers what the opening did.
pub fn run<T: ThreeSheets, S: Sink>(
    three: &T,
    table: &mut HunkTable,
    calls: &[Call<'_>],
    answers: &mut [Answer],
    sink: &mut S,
) -> Result<(), TableRefusal>
    ensures opened { opened_as result ≡ ruled_answer table.old (opening (T.sheets three.now)) }
    ensures accepted { result ≡ Ok tt }
    ensures table { table.new ≡ after_calls table.old (run_in (T.sheets three.now) (S.capacity sink.old) calls.now) }
    ensures noted { answers.new ≡ written_over (answers_to (T.sheets three.now) (S.capacity sink.old) (after_call table.old (opening (T.sheets three.now))) calls.now) answers.old }
    ensures answers { opened_as result ∷ map answer_in (answers_to (T.sheets three.now) (S.capacity sink.old) (after_call table.old (opening (T.sheets three.now))) calls.now) ≡ ruled_answers table.old (run_in (T.sheets three.now) (S.capacity sink.old) calls.now) }
    ensures sink { sink_at S.Sink sink.new ≡ sink_after S.rule (S.fresh sink.old) table.old (run_in (T.sheets three.now) (S.capacity sink.old) calls.now) (sink_at S.Sink sink.old) }
    ensures kept { KeepsBehind S.Sink (furthest table.old (run_in (T.sheets three.now) (S.capacity sink.old) calls.now)) sink.old sink.new }
    ensures unit { (xs : List RulesCall) → table.old ≡ after_run xs → UnitTable (T.sheets three.now) xs (calls_in (T.sheets three.now) (S.capacity sink.old) calls.now) table.new }
    ensures law { AgreementOverRuns S.Value S.rule (S.fresh sink.old) S.Value S.rule (S.fresh sink.old) }
{
    let opened = table.open(
        three.count_of(Side::Ancestor),
        three.count_of(Side::Current),
        three.count_of(Side::Other),
    );
    for (n, call) in calls.iter().enumerate() {
        let answer = make_call(three, table, *call, sink);
        note(answers, n, answer);
    }
    opened
}
