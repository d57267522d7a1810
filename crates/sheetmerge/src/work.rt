//! What each command does.
use crate::report::{echo, show_line, tell};
use crate::sheets::{list, show_row, take_in};
use crate::store::Section;
use crate::table::list_held;
use crate::words::{Held, Opened};
use hunks::table::HunkTable;
use job::command::{Command, LineCounts};
use job::outcome::{Outcome, Summary, sum_up};
use job::read::read_command;
use rules::refusal::TableRefusal;
use std::alloc::Global;
use std::io;

/// A handheld unit as a job works on it, and what came of the job's commands so far.
#[derive(Drop)]
pub struct Handheld {
    section: Section,
    table: HunkTable,
    outcomes: Vec<Outcome>,
}

impl Handheld {
    pub fn new(heap: Global) -> Handheld {
        Handheld {
            section: Section::new(heap),
            table: HunkTable::new(),
            outcomes: Vec::new(heap),
        }
    }

    /// Counts the commands that were done.
    pub fn summary(&self) -> Summary {
        sum_up(&self.outcomes)
    }

    /// Does one line of the job, and notes what came of a command. A line that asks for nothing is passed over.
    pub fn do_line(&mut self, rt: &HostRuntime, line: &[u8]) -> io::Result<()> {
        let outcome = match read_command(line) {
            Some(Command::Nothing) => return Ok(()),
            Some(command) => self.work(rt, command)?,
            None => {
                print!(rt; "not understood: ")?;
                show_line(rt, line)?;
                Outcome::NotUnderstood
            }
        };
        self.outcomes.push(outcome)?;
        Ok(())
    }

    /// Does a command and tells what came of it.
    fn work(&mut self, rt: &HostRuntime, command: Command<'_>) -> io::Result<Outcome> {
        if !matches!(command, Command::Nothing | Command::Help) {
            echo(rt, command)?;
        }
        let Handheld { section, table, .. } = self;
        match command {
            // Stays: (d) `do_line` has passed this one over; a match that names each command has an arm for it.
            Command::Nothing => Ok(Outcome::Done),
            Command::Help => help(rt),
            Command::Sheet { side, kind, path } => take_in(rt, section, side, kind, path),
            Command::Lines(side) => list(rt, &section.of(side).sheet()),
            Command::Row { side, row } => show_row(rt, &section.of(side).sheet(), row),
            Command::Open => tell(rt, open(table, section.counts())),
            Command::OpenBy(counts) => tell(rt, open(table, counts)),
            Command::Enter(hunk) => tell(rt, table.enter(hunk).map(Held)),
            Command::Withdraw(side) => tell(rt, table.withdraw(side).map(Held)),
            Command::Held => list_held(rt, table),
        }
    }
}

// Stays: (a) the table's `open` is public and takes the counts one by one, in the order of its refusal's places.
fn open(table: &mut HunkTable, counts: LineCounts) -> Result<Opened, TableRefusal> {
    table
        .open(counts.ancestor, counts.current, counts.other)
        .map(|()| Opened(counts))
}

const HELP: &str = "\
help: a job has one command a line; SIDE is ancestor, current or other
  sheet SIDE text PATH      take a side's sheet in from a text file
  sheet SIDE cells PATH     take it in from cells of 48 bytes
  lines SIDE                list a sheet's lines with their numbers and endings
  row SIDE N                show the first 40 bytes of row N of a sheet
  open                      open the hunk table by the three sheets' line counts
  open N N N                open it by the counts of ancestor, current and other
  enter SIDE B..E/B..E      enter a hunk by its before and after ranges
  withdraw SIDE             withdraw the side's last hunk
  held                      list the hunks held
  help                      print this
  # ..                      a comment; an empty line does nothing either";

fn help(rt: &HostRuntime) -> io::Result<Outcome> {
    println!(rt; "{HELP}")?;
    Ok(Outcome::Done)
}
