ghost use Rattle.std.specs.Prelude.{◌≡◌, ℕ, length};
ghost use Rattle.rules.specs.Texts.{joined_lines};

use crate::sheet::Sheet;

/// How many bytes a sheet's lines have together: the limits of a sheet keep the sum in bounds.
pub fn bytes_in<S: Sheet>(sheet: &S) -> u32
    ensures { result ≡ length (joined_lines (S.Sheet.sheet sheet.now).lines) }
{
    sheet.lines().map(|line| line.len()).sum::<usize>() as u32
}
