ghost use Rattle.std.specs.Prelude.{◌≡◌, ℕ, ◌+◌, ◌<◌, ◌≤◌, length};
ghost use Rattle.std.specs.Option.{option_map};
ghost use Rattle.rules.specs.Texts.{listed, nth_line, text_lines};

use crate::sheet::Sheet;
use crate::text::TextSheet;

impl Sheet for TextSheet<'_> {
    ghost sheet = { λ s. listed (text_lines s.text.now) s.formed };

    fn count(&self) -> u32 {
        self.lines
    }

    fn line(&self, n: u32) -> Option<&[u8]> {
        let starts = &self.starts[..self.lines as usize];
        let from = *starts.get(n as usize)?;
        let to = starts
            .get(n as usize + 1)
            .map_or(self.text.len(), |next| *next as usize);
        Some(&self.text[from as usize..to])
    }
}
