//! What the program says of sheets, counts, lines and a job.
ghost use Rattle.std.specs.Prelude.{◌≡◌, Some};
ghost use Rattle.sheetmerge.specs.Words.{ending_text, listed_text};

use job::command::LineCounts;
use job::names::Named;
use job::outcome::Summary;
use rules::ending::Ending;
use rules::hunk::{Hunk, Side};
use sheet::line::ending_of;
use sheet::sheet::Sheet;
use sheet::total::bytes_in;
use std::fmt;

/// How many lines and bytes a sheet has.
#[derive(Clone, Copy)]
pub struct Extent {
    lines: u32,
    bytes: u32,
}

impl Extent {
    pub fn of<S: Sheet>(sheet: &S) -> Extent {
        Extent {
            lines: sheet.count(),
            bytes: bytes_in(sheet),
        }
    }
}

impl fmt::Display for Extent {
    fn fmt<W: fmt::Write>(&self, f: &mut fmt::Formatter<W>) -> fmt::Result {
        write!(f, "{} lines, {} bytes", self.lines, self.bytes)
    }
}

/// The counts that a table was opened by.
#[derive(Clone, Copy)]
pub struct Opened(pub LineCounts);

impl fmt::Display for Opened {
    fn fmt<W: fmt::Write>(&self, f: &mut fmt::Formatter<W>) -> fmt::Result {
        let LineCounts {
            ancestor,
            current,
            other,
        } = self.0;
        write!(f, "{ancestor}, {current} and {other} lines, no hunks held")
    }
}

/// How many hunks a table holds of the side that was changed.
#[derive(Clone, Copy)]
pub struct Held(pub usize);

impl fmt::Display for Held {
    fn fmt<W: fmt::Write>(&self, f: &mut fmt::Formatter<W>) -> fmt::Result {
        write!(f, "{} held of the side", self.0)
    }
}

/// A hunk that a side holds, as it is listed.
#[derive(Clone, Copy)]
pub struct Listed {
    pub side: Side,
    pub hunk: Hunk,
}

impl fmt::Display for Listed {
    ghost output = { λ listed. Some (listed_text listed.side listed.hunk) };

    fn fmt<W: fmt::Write>(&self, f: &mut fmt::Formatter<W>) -> fmt::Result {
        let Hunk { before, after, .. } = self.hunk;
        write!(
            f,
            "  {} {}..{}/{}..{}",
            self.side.name(),
            before.start,
            before.end,
            after.start,
            after.end
        )
    }
}

/// A job's commands, counted by what came of them.
#[derive(Clone, Copy)]
pub struct Summed(pub Summary);

impl fmt::Display for Summed {
    fn fmt<W: fmt::Write>(&self, f: &mut fmt::Formatter<W>) -> fmt::Result {
        let Summary {
            commands,
            done,
            refused,
            failed,
            not_understood,
        } = self.0;
        write!(
            f,
            "commands {commands}: done {done}, refused {refused}, failed {failed}, not understood {not_understood}"
        )
    }
}

/// How a line ends, in a column of its own.
// Stays: (a) each ending has its word; a slice pattern tells a newline alone, of which `ending_of` answers nothing.
pub fn ending_word(line: &[u8]) -> &'static str
    ensures { result.now ≡ ending_text line.now }
{
    match (ending_of(line), line) {
        (Some(Ending::ReturnNewline), _) => "cr lf",
        (Some(Ending::Newline), _) | (None, [.., b'\n']) => "lf",
        (None, _) => "open",
    }
}
