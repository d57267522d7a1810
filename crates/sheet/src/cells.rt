ghost use Rattle.std.specs.Prelude.{◌≡◌, ℕ, ◌/◌, true, length, is_ok};
ghost use Rattle.rules.specs.Texts.{Formed};
ghost use Rattle.sheet.specs.Cells.{memory_lines, cells_answer};

mod opening;
mod ops;

/// The bytes of a cell: one for the length of its line, and 47 for the line.
pub const CELL_SIZE: usize = 48;
/// The most cells of a sheet.
pub const MAX_CELLS: usize = 1024;

/// A sheet in cells of 48 bytes: a length from 1 to 47, the line, and bytes that say nothing.
#[derive(Clone, Copy)]
pub struct CellSheet<'a> {
    memory: &'a [u8],
    ghost fit: { is_ok (cells_answer memory.now) ≡ true },
    ghost formed: { Formed (memory_lines memory.now) },
}
