//! What a report takes in, with every expected byte written out by hand.
use crate::command::{Command, LineCounts, SheetKind};
use crate::escape::Shown;
use crate::spell::{Spell, put};
use rules::hunk::{Hunk, Side, Span};
use std::test::Fail;

#[test]
fn commands_as_a_job_writes_them(rt: HostRuntime) -> Result<(), Fail> {
    let mut report = Vec::new(rt.alloc());
    let take_in = Command::Sheet {
        side: Side::Ancestor,
        kind: SheetKind::Cells,
        path: b"a b.cells",
    };
    take_in.spell(&mut report)?;
    put(&mut report, b"; ")?;
    let row = Command::Row {
        side: Side::Other,
        row: 4294967295,
    };
    row.spell(&mut report)?;
    put(&mut report, b"; ")?;
    Command::Help.spell(&mut report)?;
    assert!(rt;
        report.as_slice()
            == b"sheet ancestor cells a b.cells; row other 4294967295; help".as_slice()
    );
    Ok(())
}

#[test]
fn counts_and_hunks_in_digits(rt: HostRuntime) -> Result<(), Fail> {
    let mut report = Vec::new(rt.alloc());
    let counts = LineCounts {
        ancestor: 0,
        current: 10,
        other: 4096,
    };
    counts.spell(&mut report)?;
    put(&mut report, b"; ")?;
    let hunk = Hunk {
        before: Span { start: 9, end: 12 },
        after: Span { start: 9, end: 9 },
        side: Side::Current,
    };
    hunk.spell(&mut report)?;
    assert!(rt; report.as_slice() == b"0 10 4096; 9..12/9..9".as_slice());
    Ok(())
}

#[test]
fn bytes_as_a_terminal_shows_them(rt: HostRuntime) -> Result<(), Fail> {
    let mut report = Vec::new(rt.alloc());
    Shown(b"a \\\t\r\n\x7f\xff~").spell(&mut report)?;
    assert!(rt; report.as_slice() == b"a \\\\\\t\\r\\n\\x7f\\xff~".as_slice());
    Ok(())
}
