ghost use Rattle.std.specs.Prelude.{◌≡◌, ℕ, ◌+◌, ◌/◌, ◌<◌, ◌≤◌, length};
ghost use Rattle.rules.specs.Texts.{listed};
ghost use Rattle.sheet.specs.Cells.{memory_lines};

use crate::cells::{CELL_SIZE, CellSheet};
use crate::sheet::Sheet;

impl Sheet for CellSheet<'_> {
    ghost sheet = { λ s. listed (memory_lines s.memory.now) s.formed };

    fn count(&self) -> u32 {
        (self.memory.len() / CELL_SIZE) as u32
    }

    fn line(&self, n: u32) -> Option<&[u8]> {
        let (cells, _) = self.memory.as_chunks::<CELL_SIZE>();
        let cell = cells.get(n as usize)?.as_slice();
        Some(&cell[1..=cell[0] as usize])
    }
}
