ghost use Rattle.sheet_tests.specs.Fixed.{fixed};

use sheet::sheet::Sheet;

/// The sheet on a rope's label: two fixed lines, of which the last lacks its newline.
#[derive(Clone, Copy)]
pub struct LabelSheet;

impl Sheet for LabelSheet {
    ghost sheet = { λ _. fixed };

    fn count(&self) -> u32 {
        2
    }

    fn line(&self, n: u32) -> Option<&[u8]> {
        match n {
            0 => Some(b"7\n"),
            1 => Some(b"ok"),
            _ => None,
        }
    }
}
