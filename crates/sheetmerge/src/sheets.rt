//! Sheets taken in, listed and shown row by row.
use crate::report::{fail, show_line, tell};
use crate::store::{Section, Stored};
use crate::words::{Extent, ending_word};
use job::command::SheetKind;
use job::outcome::Outcome;
use rules::hunk::Side;
use sheet::refusal::SheetRefusal;
use sheet::sheet::Sheet;
use sheet::total::bytes_in;
use sink::piece::Piece;
use sink::row::Row;
use sink::sink::Sink;
use std::{fs, io};

/// Takes a side's sheet in from a file. A file that cannot be read and a sheet that is refused leave the side as it was.
pub fn take_in(
    rt: &HostRuntime,
    section: &mut Section,
    side: Side,
    kind: SheetKind,
    path: &[u8],
) -> io::Result<Outcome> {
    let Ok(name) = str::from_utf8(path) else {
        return fail(rt, "the path is not text");
    };
    let Ok(bytes) = fs::read(rt, name) else {
        return fail(rt, "the file cannot be read");
    };
    let read = Stored::read(rt.alloc(), kind, bytes)?;
    tell(rt, put(section, side, read))
}

/// Puts a sheet in its side's place, unless it was refused, and answers how much it holds.
fn put(
    section: &mut Section,
    side: Side,
    read: Result<Stored, SheetRefusal>,
) -> Result<Extent, SheetRefusal> {
    let stored = read?;
    let extent = Extent::of(&stored.sheet());
    section.put(side, stored);
    Ok(extent)
}

/// Prints every line with its number and its ending.
pub fn list<S: Sheet>(rt: &HostRuntime, sheet: &S) -> io::Result<Outcome> {
    println!(rt; "{}", Extent::of(sheet))?;
    for (n, line) in sheet.lines().enumerate() {
        let ending = ending_word(line);
        print!(rt; "{n:>6}  {ending:<5}  ")?;
        show_line(rt, line)?;
    }
    Ok(Outcome::Done)
}

/// Prints a row of the text that a sheet's lines make, as a row sink shows it.
pub fn show_row<S: Sheet>(rt: &HostRuntime, sheet: &S, row: u32) -> io::Result<Outcome> {
    let mut sink = Row::new(row);
    copy(sheet, &mut sink);
    show_line(rt, sink.shown())?;
    Ok(Outcome::Done)
}

/// Gives a sink every line of a sheet. The sheet's length is announced, so none is refused.
fn copy<S: Sheet, K: Sink>(sheet: &S, sink: &mut K) {
    let _ = sink.begin(bytes_in(sheet) as usize);
    for line in sheet.lines() {
        let _ = sink.take(Piece::Common(line));
    }
}
