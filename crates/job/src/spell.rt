//! Commands and what they are made of, as a job writes them.
ghost use Rattle.std.specs.Prelude.{◌≡◌, ◌++◌, codes, decimal};
ghost use Rattle.job.specs.Orders.{hunk_text, numbers_text, order, span_text, spelled as command_text};
ghost use Rattle.job.specs.Reports.{Adds};
ghost use Rattle.job.specs.Words.{kind_word, side_word, verb_word};

use crate::command::{Command, LineCounts, SheetKind, Verb};
use crate::names::Named;
use itoa::Buffer;
use rules::hunk::{Hunk, Side, Span};
use std::alloc::AllocError;

/// What a report can take in.
// Stays: (d) `Display` writes text, and a path of a job need not be text.
pub trait Spell {
    ghost use Rattle.std.specs.Prelude.{List, ℕ};

    ghost spelled: { Self → List ℕ };

    /// Adds it to a report.
    fn spell(&self, report: &mut Vec<u8>) -> Result<(), AllocError>
        ensures { Adds result report.old.items report.new.items (spelled self.now) };
}

impl Spell for Command<'_> {
    ghost spelled = { λ command. command_text (order command) };

    fn spell(&self, report: &mut Vec<u8>) -> Result<(), AllocError> {
        match *self {
            // A line that asks for nothing is spelled too: by no bytes.
            Command::Nothing => Ok(()),
            Command::Sheet { side, kind, path } => spell_sheet(report, side, kind, path),
            Command::Lines(side) => spell_sided(report, Verb::Lines, side),
            Command::Row { side, row } => spell_behind(report, Verb::Row, side, &row),
            Command::Open => put_name(report, Verb::Open),
            Command::OpenBy(counts) => spell_open(report, counts),
            Command::Enter(hunk) => spell_behind(report, Verb::Enter, hunk.side, &hunk),
            Command::Withdraw(side) => spell_sided(report, Verb::Withdraw, side),
            Command::Held => put_name(report, Verb::Held),
            Command::Help => put_name(report, Verb::Help),
        }
    }
}

// Stays: (d) these parts of a command are no values of their own that could be `Spell`.
fn spell_sheet(
    report: &mut Vec<u8>,
    side: Side,
    kind: SheetKind,
    path: &[u8],
) -> Result<(), AllocError>
    ensures { Adds result report.old.items report.new.items (codes "sheet " ++ (side_word side ++ (codes " " ++ (kind_word kind ++ (codes " " ++ path.now))))) }
{
    spell_sided(report, Verb::Sheet, side)?;
    put(report, b" ")?;
    put_name(report, kind)?;
    put(report, b" ")?;
    put(report, path)
}

/// A command's first word and a side.
fn spell_sided(report: &mut Vec<u8>, verb: Verb, side: Side) -> Result<(), AllocError>
    ensures { Adds result report.old.items report.new.items (verb_word verb ++ (codes " " ++ side_word side)) }
{
    put_name(report, verb)?;
    put(report, b" ")?;
    put_name(report, side)
}

/// A command's first word, a side, and what goes on behind them.
fn spell_behind<S: Spell>(
    report: &mut Vec<u8>,
    verb: Verb,
    side: Side,
    rest: &S,
) -> Result<(), AllocError>
    ensures { Adds result report.old.items report.new.items (verb_word verb ++ (codes " " ++ (side_word side ++ (codes " " ++ S.spelled rest.now)))) }
{
    spell_sided(report, verb, side)?;
    put(report, b" ")?;
    rest.spell(report)
}

fn spell_open(report: &mut Vec<u8>, counts: LineCounts) -> Result<(), AllocError>
    ensures { Adds result report.old.items report.new.items (codes "open " ++ numbers_text counts.ancestor counts.current counts.other) }
{
    put_name(report, Verb::Open)?;
    put(report, b" ")?;
    counts.spell(report)
}

/// The three counts with a space between them.
impl Spell for LineCounts {
    ghost spelled = { λ counts. numbers_text counts.ancestor counts.current counts.other };

    fn spell(&self, report: &mut Vec<u8>) -> Result<(), AllocError> {
        self.ancestor.spell(report)?;
        put(report, b" ")?;
        self.current.spell(report)?;
        put(report, b" ")?;
        self.other.spell(report)
    }
}

/// A hunk's two ranges with a slash between them.
impl Spell for Hunk {
    ghost spelled = { hunk_text };

    fn spell(&self, report: &mut Vec<u8>) -> Result<(), AllocError> {
        self.before.spell(report)?;
        put(report, b"/")?;
        self.after.spell(report)
    }
}

impl Spell for Span {
    ghost spelled = { span_text };

    fn spell(&self, report: &mut Vec<u8>) -> Result<(), AllocError> {
        self.start.spell(report)?;
        put(report, b"..")?;
        self.end.spell(report)
    }
}

/// A number in decimal digits.
impl Spell for u32 {
    ghost spelled = { decimal };

    fn spell(&self, report: &mut Vec<u8>) -> Result<(), AllocError> {
        put(report, Buffer::new().format(*self).as_bytes())
    }
}

fn put_name<N: Named>(report: &mut Vec<u8>, named: N) -> Result<(), AllocError>
    ensures { Adds result report.old.items report.new.items (N.name named) }
{
    put(report, named.name().as_bytes())
}

/// Adds bytes to a report as they are.
pub fn put(report: &mut Vec<u8>, bytes: &[u8]) -> Result<(), AllocError>
    ensures { Adds result report.old.items report.new.items bytes.now }
{
    report.extend_from_slice(bytes)
}
