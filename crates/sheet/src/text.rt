ghost use Rattle.std.specs.Prelude.{◌≡◌, ℕ, ◌+◌, ◌<◌, ◌≤◌, length, take};
ghost use Rattle.rules.specs.Texts.{Formed, text_lines};
ghost use Rattle.sheet.specs.Starts.{starts_of};

mod opening;
mod ops;

/// A sheet as a text and the table of its line starts.
#[derive(Clone, Copy)]
pub struct TextSheet<'a> {
    text: &'a [u8],
    // Stays: the table is lent beside its text, since a unit has no memory of its own to keep both in one.
    starts: &'a [u32],
    // Stays: the table may be longer than the text has lines, and `open` promises that it is the one given.
    lines: u32,
    ghost formed: { Formed (text_lines text.now) },
    ghost placed: { take lines starts.now ≡ starts_of text.now },
    ghost counted: { lines ≡ length (text_lines text.now) },
}
