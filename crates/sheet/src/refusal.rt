ghost use Rattle.std.specs.Prelude.{Some};
ghost use Rattle.sheet.specs.Refusals.{number_of, layer_of, place_of, words_of};

use rules::refusal::{Layer, Refusal};
use std::fmt;

/// Why a sheet, or the table of its line starts, is refused.
#[derive(Clone, Copy, PartialEq, Eq, Debug)]
pub enum SheetRefusal {
    /// 1: the text has more than 60,000 bytes.
    TextTooLong,
    /// 2: the text has more than 4,096 lines.
    TooManyLines,
    /// 3: the table has fewer places than the text has lines.
    TableTooSmall,
    /// 4: the table does not begin with the text's line starts.
    StartsAbsent,
    /// 5: the memory is not made of whole cells, or has more than 1,024.
    CellsUnfit,
    /// 6: this cell holds no line.
    BadCell(u32),
}

impl Refusal for SheetRefusal {
    ghost number = { number_of };

    ghost layer = { layer_of };

    ghost place = { place_of };

    fn number(self) -> u32 {
        match self {
            SheetRefusal::TextTooLong => 1,
            SheetRefusal::TooManyLines => 2,
            SheetRefusal::TableTooSmall => 3,
            SheetRefusal::StartsAbsent => 4,
            SheetRefusal::CellsUnfit => 5,
            SheetRefusal::BadCell(_) => 6,
        }
    }

    fn layer(self) -> Layer {
        Layer::Sheet
    }

    /// The first bad cell, and 0 for every other refusal.
    fn place(self) -> u32 {
        match self {
            SheetRefusal::BadCell(cell) => cell,
            _ => 0,
        }
    }
}

impl fmt::Display for SheetRefusal {
    ghost output = { λ refusal. Some (words_of refusal) };

    fn fmt<W: fmt::Write>(&self, f: &mut fmt::Formatter<W>) -> fmt::Result {
        f.write_str(match self {
            Self::TextTooLong => "the text has more than 60000 bytes",
            Self::TooManyLines => "the text has more than 4096 lines",
            Self::TableTooSmall => "the table of line starts has too few places",
            Self::StartsAbsent => "the table does not begin with the line starts",
            Self::CellsUnfit => "the memory is not made of whole cells, or has more than 1024",
            Self::BadCell(_) => "this cell holds no line",
        })
    }
}
