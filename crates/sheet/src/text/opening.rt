ghost use Rattle.std.specs.Prelude.{◌≡◌, ℕ, true, false, [], is_ok, IfOk, Ok};
ghost use Rattle.std.specs.Result.{result_map_both};
ghost use Rattle.rules.specs.Texts.{text_lines};
ghost use Rattle.sheet.specs.Splits.{TextLaw, lines_after, text_answer};
ghost use Rattle.sheet.specs.contracts.text.ops.TextSheetSheet.TheImpl.{ghosts as meaning};

use crate::refusal::SheetRefusal;
use crate::split::{count_lines, starts_stand};
use crate::text::TextSheet;

impl<'a> TextSheet<'a> {
    /// The sheet with no lines.
    pub fn empty() -> TextSheet<'a>
        ensures { ((meaning.sheet result).lines ≡ []) × (result.text.now ≡ []) × (result.starts.now ≡ []) × (result.lines ≡ 0) }
    {
        TextSheet {
            text: &[],
            starts: &[],
            lines: 0,
        }
    }

    /// The sheet of a text whose line starts stand in the table, or why there is none.
    pub fn new(text: &'a [u8], starts: &'a [u32]) -> Result<TextSheet<'a>, SheetRefusal>
        ensures answer { result_map_both (λ s. s.lines) (λ e. e) result ≡ text_answer text.now starts.now }
        ensures shown { IfOk result (λ s. (meaning.sheet s).lines ≡ text_lines text.now) }
        ensures opened { IfOk result (λ s. (s.text ≡ text.entry) × (s.starts ≡ starts.entry)) }
        ensures law { TextLaw text.now starts.now }
    {
        let lines = checked(text, starts)?;
        Ok(TextSheet {
            text,
            starts,
            lines,
        })
    }

    /// Makes this the sheet of another text, whose line starts stand in the table, and answers its number of lines.
    /// A refusal leaves the sheet as it was.
    pub fn open(&mut self, text: &'a [u8], starts: &'a [u32]) -> Result<u32, SheetRefusal>
        ensures answer { result ≡ text_answer text.now starts.now }
        ensures shown { (meaning.sheet self.new).lines ≡ lines_after result (text_lines text.now) (meaning.sheet self.old).lines }
        ensures opened { is_ok result ≡ true → (self.new.text ≡ text.entry) × (self.new.starts ≡ starts.entry) × (result ≡ Ok self.new.lines) }
        ensures refused { is_ok result ≡ false → self.new ≡ self.old }
        ensures law { TextLaw text.now starts.now }
    {
        *self = TextSheet::new(text, starts)?;
        Ok(self.lines)
    }
}

/// Whether a text and its table make a sheet: the number of lines, or why not.
fn checked(text: &[u8], starts: &[u32]) -> Result<u32, SheetRefusal>
    ensures { result ≡ text_answer text.now starts.now }
{
    let count = count_lines(text, starts.len())?;
    if !starts_stand(text, starts) {
        return Err(SheetRefusal::StartsAbsent);
    }
    Ok(count)
}
