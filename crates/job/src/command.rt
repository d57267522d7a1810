use rules::hunk::{Hunk, Side};

/// How a sheet's file is laid out.
#[derive(Clone, Copy, PartialEq, Eq, Debug)]
pub enum SheetKind {
    /// Lines one behind the other.
    Text,
    /// Cells of 48 bytes.
    Cells,
}

/// The first word of a command. Some stand alone, others go on, and one does either.
// Stays: (d) the words alone, which have names; a command has what goes on behind them too.
#[derive(Clone, Copy, PartialEq, Eq, Debug)]
pub enum Verb {
    Lines,
    Sheet,
    Row,
    Open,
    Enter,
    Withdraw,
    Held,
    Help,
}

/// The lines of three sheets, counted.
#[derive(Clone, Copy, PartialEq, Eq, Debug)]
pub struct LineCounts {
    pub ancestor: u32,
    pub current: u32,
    pub other: u32,
}

/// One line of a job.
#[derive(Clone, Copy)]
pub enum Command<'a> {
    /// A blank line or a comment.
    // Stays: (d) the definitions have it as an order, which is spelled and read back like the others; of an Option in an Option no reader knows which None it is.
    Nothing,
    /// Take a side's sheet in from a file.
    Sheet {
        side: Side,
        kind: SheetKind,
        path: &'a [u8],
    },
    /// List the lines of a side's sheet.
    Lines(Side),
    /// Show a row of the text that the lines of a side's sheet make.
    Row {
        side: Side,
        row: u32,
    },
    /// Open the table by the three sheets' counts of lines.
    Open,
    /// Open the table by counts that are given.
    // Stays: (d) two orders in the definitions: an Open of no counts would not say that it asks the sheets.
    OpenBy(LineCounts),
    /// Enter a hunk into the table.
    Enter(Hunk),
    /// Take a side's last hunk out of the table.
    Withdraw(Side),
    /// List the hunks that the table holds.
    Held,
    /// Tell the commands.
    Help,
}
