//! The sheets that were taken in, kept as the bytes of their files.
use crate::file_sheet::FileSheet;
use job::command::{LineCounts, SheetKind};
use rules::hunk::Side;
use rules::limits::MAX_LINES;
use sheet::cells::CellSheet;
use sheet::refusal::SheetRefusal;
use sheet::sheet::Sheet;
use sheet::split::split;
use sheet::text::TextSheet;
use std::alloc::{AllocError, Global};

/// A file's bytes as its kind of sheet has them.
// Stays: (d) `SheetKind` is read before there are bytes, and `FileSheet` borrows from these; one enum over what it holds would make the kind one of two empty payloads.
#[derive(Drop)]
pub enum Stored {
    /// A text, and where its lines start.
    // Stays: (d) `TextSheet::new` borrows the two side by side.
    Text { text: Vec<u8>, starts: Vec<u32> },
    Cells(Vec<u8>),
}

impl Stored {
    /// A text of no lines.
    pub fn empty(heap: Global) -> Stored {
        Stored::Text {
            text: Vec::new(heap),
            starts: Vec::new(heap),
        }
    }

    /// A file's bytes, if they are a sheet of the kind.
    pub fn read(
        heap: Global,
        kind: SheetKind,
        bytes: Vec<u8>,
    ) -> Result<Result<Stored, SheetRefusal>, AllocError> {
        match kind {
            SheetKind::Text => Stored::read_text(heap, bytes),
            SheetKind::Cells => Ok(Stored::read_cells(bytes)),
        }
    }

    fn read_text(heap: Global, text: Vec<u8>) -> Result<Result<Stored, SheetRefusal>, AllocError> {
        let mut starts = vec![in heap; 0u32; MAX_LINES as usize]?;
        Ok(split(&text, &mut starts).map(|_| Stored::Text { text, starts }))
    }

    fn read_cells(memory: Vec<u8>) -> Result<Stored, SheetRefusal> {
        CellSheet::new(&memory)?;
        Ok(Stored::Cells(memory))
    }

    /// The sheet in the bytes. They were a sheet when they were read; any others would be a sheet of no lines.
    // Stays: (d) made anew at each use; kept beside the bytes, it would borrow from its own struct.
    pub fn sheet(&self) -> FileSheet<'_> {
        match self {
            Stored::Text { text, starts } => {
                FileSheet::Text(TextSheet::new(text, starts).unwrap_or(TextSheet::empty()))
            }
            Stored::Cells(memory) => {
                FileSheet::Cells(CellSheet::new(memory).unwrap_or(CellSheet::empty()))
            }
        }
    }
}

/// The three sheets of a rope section; each is empty before one is taken in.
#[derive(Drop)]
pub struct Section {
    ancestor: Stored,
    current: Stored,
    other: Stored,
}

impl Section {
    pub fn new(heap: Global) -> Section {
        Section {
            ancestor: Stored::empty(heap),
            current: Stored::empty(heap),
            other: Stored::empty(heap),
        }
    }

    // Stays: (d) one match to read and one to write; an array would need a number for each side.
    pub fn of(&self, side: Side) -> &Stored {
        match side {
            Side::Ancestor => &self.ancestor,
            Side::Current => &self.current,
            Side::Other => &self.other,
        }
    }

    pub fn put(&mut self, side: Side, stored: Stored) {
        match side {
            Side::Ancestor => self.ancestor = stored,
            Side::Current => self.current = stored,
            Side::Other => self.other = stored,
        }
    }

    pub fn counts(&self) -> LineCounts {
        LineCounts {
            ancestor: self.ancestor.sheet().count(),
            current: self.current.sheet().count(),
            other: self.other.sheet().count(),
        }
    }
}
