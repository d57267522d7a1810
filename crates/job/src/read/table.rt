//! The commands on the table of hunks, behind their first word.
ghost use Rattle.std.specs.Prelude.{◌≡◌, codes};
ghost use Rattle.std.specs.Option.{option_map};
ghost use Rattle.job.specs.Orders.{hunk_order, order, read_enter, read_open, read_withdraw};

use crate::command::{Command, LineCounts};
use crate::names::from_name;
use crate::read::numbers::{last_number, number_then};
use crate::read::words::FrontNamed;
use rules::hunk::{Hunk, Side, Span};

/// Three numbers with a space between them.
pub(super) fn read_open(line: &[u8]) -> Option<Command<'_>>
    ensures { option_map order result ≡ read_open line.now }
{
    let (ancestor, rest) = number_then(b" ", line)?;
    let (current, rest) = number_then(b" ", rest)?;
    let other = last_number(rest)?;
    Some(Command::OpenBy(LineCounts {
        ancestor,
        current,
        other,
    }))
}

pub(super) fn read_enter(line: &[u8]) -> Option<Command<'_>>
    ensures { option_map order result ≡ read_enter line.now }
{
    let (side, rest) = Side::at_front(line)?;
    read_hunk(side, rest)
}

/// A hunk of a side by its two ranges.
fn read_hunk(side: Side, line: &[u8]) -> Option<Command<'_>>
    ensures { option_map order result ≡ hunk_order side line.now }
{
    let (start, rest) = number_then(b"..", line)?;
    let (end, rest) = number_then(b"/", rest)?;
    let before = Span { start, end };
    let (start, rest) = number_then(b"..", rest)?;
    let end = last_number(rest)?;
    let after = Span { start, end };
    Some(Command::Enter(Hunk {
        before,
        after,
        side,
    }))
}

pub(super) fn read_withdraw(line: &[u8]) -> Option<Command<'_>>
    ensures { option_map order result ≡ read_withdraw line.now }
{
    // Stays: (c) the borrow checker does not cover `map` with `Command::Withdraw` itself, so a closure.
    from_name(line).map(|side| Command::Withdraw(side))
}
