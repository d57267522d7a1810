//! The commands on sheets, behind their first word.
ghost use Rattle.std.specs.Prelude.{◌≡◌, codes};
ghost use Rattle.std.specs.Option.{option_map};
ghost use Rattle.job.specs.Orders.{order, read_kind, read_lines, read_row, read_sheet, sheet_order};

use crate::command::{Command, SheetKind};
use crate::names::from_name;
use crate::read::numbers::last_number;
use crate::read::words::FrontNamed;
use rules::hunk::Side;

pub(super) fn read_lines(line: &[u8]) -> Option<Command<'_>>
    ensures { option_map order result ≡ read_lines line.now }
{
    // Stays: (c) the borrow checker does not cover `map` with `Command::Lines` itself, so a closure.
    from_name(line).map(|side| Command::Lines(side))
}

pub(super) fn read_row(line: &[u8]) -> Option<Command<'_>>
    ensures { option_map order result ≡ read_row line.now }
{
    let (side, rest) = Side::at_front(line)?;
    last_number(rest).map(|row| Command::Row { side, row })
}

pub(super) fn read_sheet(line: &[u8]) -> Option<Command<'_>>
    ensures { option_map order result ≡ read_sheet line.now }
{
    let (side, rest) = Side::at_front(line)?;
    read_kind(side, rest)
}

fn read_kind(side: Side, line: &[u8]) -> Option<Command<'_>>
    ensures { option_map order result ≡ read_kind side line.now }
{
    let (kind, path) = SheetKind::at_front(line)?;
    read_path(side, kind, path)
}

/// A path is not empty.
fn read_path(side: Side, kind: SheetKind, path: &[u8]) -> Option<Command<'_>>
    ensures { option_map order result ≡ sheet_order side kind path.now }
{
    (!path.is_empty()).then_some(Command::Sheet { side, kind, path })
}
