ghost use Rattle.std.specs.Prelude.{◌≡◌, List, drop};
ghost use Rattle.std.specs.Iterator.{YieldsFirstRef, item_count};

use crate::sheet::Sheet;

/// What is left of a sheet's lines, one after another.
#[derive(Drop)]
pub struct Lines<'a, S> {
    pub(crate) sheet: &'a S,
    pub(crate) at: u32,
}

impl<'a, S: Sheet> Iterator for Lines<'a, S> {
    type Item = &'a [u8];

    ghost next_gives = { YieldsFirstRef (λ s. drop s.at (S.Sheet.sheet s.sheet.now).lines) };

    ghost remaining = { item_count (λ s. drop s.at (S.Sheet.sheet s.sheet.now).lines) };

    fn next(&mut self) -> Option<&'a [u8]> {
        let line = self.sheet.line(self.at)?;
        // Stays: the cursor is all that such an iterator is.
        self.at += 1;
        Some(line)
    }
}
