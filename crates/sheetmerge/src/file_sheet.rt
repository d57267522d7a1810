ghost use Rattle.sheetmerge.specs.Files.{shown};

use sheet::cells::CellSheet;
use sheet::sheet::Sheet;
use sheet::text::TextSheet;

/// A sheet as its file is laid out.
// Stays: (d) a sheet of either kind borrows the bytes that `Stored` owns, so it is an enum of its own.
#[derive(Clone, Copy)]
pub enum FileSheet<'a> {
    Text(TextSheet<'a>),
    Cells(CellSheet<'a>),
}

impl Sheet for FileSheet<'_> {
    ghost sheet = { shown };

    fn count(&self) -> u32 {
        match self {
            FileSheet::Text(text) => text.count(),
            FileSheet::Cells(cells) => cells.count(),
        }
    }

    fn line(&self, n: u32) -> Option<&[u8]> {
        match self {
            FileSheet::Text(text) => text.line(n),
            FileSheet::Cells(cells) => cells.line(n),
        }
    }
}
