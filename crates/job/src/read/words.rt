//! Words at the front of a line.
ghost use Rattle.std.specs.Prelude.{◌≡◌};
ghost use Rattle.std.specs.Option.{option_map};
ghost use Rattle.job.specs.Words.{front_named, told};

use crate::command::{SheetKind, Verb};
use crate::names::Named;
use rules::hunk::Side;

/// Things whose names are looked for at the front of a line.
// Stays: (d) each name stands here a second time, held to the table by the clause: a search for the space and then through the table takes twice the time.
pub(super) trait FrontNamed: Named {
    /// What the first word of a line names, and what follows the space behind it.
    fn at_front(line: &[u8]) -> Option<(Self, &[u8])>
        ensures { option_map told result ≡ front_named Self.name Self.all line.now };
}

impl FrontNamed for Verb {
    fn at_front(line: &[u8]) -> Option<(Verb, &[u8])> {
        if let Some(rest) = line.strip_prefix(b"lines ") {
            Some((Verb::Lines, rest))
        } else if let Some(rest) = line.strip_prefix(b"sheet ") {
            Some((Verb::Sheet, rest))
        } else if let Some(rest) = line.strip_prefix(b"row ") {
            Some((Verb::Row, rest))
        } else if let Some(rest) = line.strip_prefix(b"open ") {
            Some((Verb::Open, rest))
        } else if let Some(rest) = line.strip_prefix(b"enter ") {
            Some((Verb::Enter, rest))
        } else if let Some(rest) = line.strip_prefix(b"withdraw ") {
            Some((Verb::Withdraw, rest))
        } else if let Some(rest) = line.strip_prefix(b"held ") {
            Some((Verb::Held, rest))
        } else if let Some(rest) = line.strip_prefix(b"help ") {
            Some((Verb::Help, rest))
        } else {
            None
        }
    }
}

impl FrontNamed for Side {
    fn at_front(line: &[u8]) -> Option<(Side, &[u8])> {
        if let Some(rest) = line.strip_prefix(b"ancestor ") {
            Some((Side::Ancestor, rest))
        } else if let Some(rest) = line.strip_prefix(b"current ") {
            Some((Side::Current, rest))
        } else if let Some(rest) = line.strip_prefix(b"other ") {
            Some((Side::Other, rest))
        } else {
            None
        }
    }
}

impl FrontNamed for SheetKind {
    fn at_front(line: &[u8]) -> Option<(SheetKind, &[u8])> {
        if let Some(rest) = line.strip_prefix(b"text ") {
            Some((SheetKind::Text, rest))
        } else if let Some(rest) = line.strip_prefix(b"cells ") {
            Some((SheetKind::Cells, rest))
        } else {
            None
        }
    }
}
