ghost use Rattle.std.specs.Prelude.{◌≡◌, ℕ, ◌+◌, ◌/◌, ◌<◌, ◌≤◌, true, false, [], length, is_ok, IfOk};
ghost use Rattle.std.specs.Result.{result_map_both};
ghost use Rattle.rules.specs.Texts.{is_line};
ghost use Rattle.sheet.specs.Cells.{CellLaw, cell_size, cell_good, memory_lines, cells_answer};
ghost use Rattle.sheet.specs.Splits.{lines_after};
ghost use Rattle.sheet.specs.contracts.cells.ops.CellSheetSheet.TheImpl.{ghosts as meaning};

use crate::cells::{CELL_SIZE, CellSheet, MAX_CELLS};
use crate::refusal::SheetRefusal;
use crate::sheet::Sheet;

impl<'a> CellSheet<'a> {
    /// The sheet with no lines.
    pub fn empty() -> CellSheet<'a>
        ensures { ((meaning.sheet result).lines ≡ []) × (result.memory.now ≡ []) }
    {
        CellSheet { memory: &[] }
    }

    /// The sheet of the lines in a memory's cells, or why there is none.
    // Stays: new and open of both kinds differ in what they are handed: a text has a table beside it.
    pub fn new(memory: &'a [u8]) -> Result<CellSheet<'a>, SheetRefusal>
        ensures answer { result_map_both (λ s. length (meaning.sheet s).lines) (λ e. e) result ≡ cells_answer memory.now }
        ensures shown { IfOk result (λ s. (meaning.sheet s).lines ≡ memory_lines memory.now) }
        ensures opened { IfOk result (λ s. s.memory ≡ memory.entry) }
        ensures law { CellLaw memory.now }
    {
        checked(memory)?;
        Ok(CellSheet { memory })
    }

    /// Makes this the sheet of the lines in a memory's cells, and answers their number. A refusal leaves the sheet as it was.
    pub fn open(&mut self, memory: &'a [u8]) -> Result<u32, SheetRefusal>
        ensures answer { result ≡ cells_answer memory.now }
        ensures shown { (meaning.sheet self.new).lines ≡ lines_after result (memory_lines memory.now) (meaning.sheet self.old).lines }
        ensures opened { is_ok result ≡ true → self.new.memory ≡ memory.entry }
        ensures refused { is_ok result ≡ false → self.new ≡ self.old }
        ensures law { CellLaw memory.now }
    {
        *self = CellSheet::new(memory)?;
        Ok(self.count())
    }
}

/// Whether a memory is a cell sheet: the number of its lines, or why not.
fn checked(memory: &[u8]) -> Result<u32, SheetRefusal>
    ensures { result ≡ cells_answer memory.now }
{
    let (cells, rest) = memory.as_chunks::<CELL_SIZE>();
    if !rest.is_empty() || cells.len() > MAX_CELLS {
        return Err(SheetRefusal::CellsUnfit);
    }
    for (i, cell) in cells.iter().enumerate() {
        if !cell_stands(cell, i + 1 == cells.len()) {
            return Err(SheetRefusal::BadCell(i as u32));
        }
    }
    Ok(cells.len() as u32)
}

/// Whether a cell holds a line, which may lack its newline only in the last cell.
// Stays: the flag says which cell it is, as the rule's definition does.
fn cell_stands(cell: &[u8; CELL_SIZE], last: bool) -> bool
    ensures { result ≡ cell_good last cell.now }
{
    let len = cell[0] as usize;
    len < CELL_SIZE && line_stands(&cell[1..=len], last)
}

/// Whether the bytes are a line, which may lack its newline only where it may be open.
// Stays: the flag is the one that the rule `is_line` has.
fn line_stands(line: &[u8], open: bool) -> bool
    ensures { result ≡ is_line «open» line.now }
{
    match line {
        [front @ .., last] => !front.contains(&b'\n') && (open || *last == b'\n'),
        [] => false,
    }
}
