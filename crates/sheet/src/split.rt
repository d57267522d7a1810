ghost use Rattle.std.specs.Prelude.{◌≡◌, ℕ, ◌+◌, ◌<◌, ◌≤◌, false, List, [], ◌∷◌, ◌++◌, length, take};
ghost use Rattle.rules.specs.Limits.{max_bytes};
ghost use Rattle.rules.specs.Steps.{left_open};
ghost use Rattle.rules.specs.Texts.{text_lines};
ghost use Rattle.sheet.specs.Splits.{LineLaw, split_answer, filled, table_after, same};
ghost use Rattle.sheet.specs.Starts.{starts_of};

use crate::refusal::SheetRefusal;
use rules::limits::{MAX_BYTES, MAX_LINES};

/// Fills the table with the line starts and answers their number; later places keep what they had.
// Stays: text and table are two memories of the caller, and one thing only once they stand together, in a `TextSheet`.
pub fn split(text: &[u8], starts: &mut [u32]) -> Result<u32, SheetRefusal>
    ensures answer { result ≡ split_answer text.now (length starts.old) }
    ensures table { starts.new ≡ table_after result text.now starts.old }
    ensures law { LineLaw text.now }
{
    let count = count_lines(text, starts.len())?;
    write_starts(text, starts);
    Ok(count)
}

/// The number of the text's lines, if text and table keep their limits.
pub(crate) fn count_lines(text: &[u8], room: usize) -> Result<u32, SheetRefusal>
    ensures { result ≡ split_answer text.now room }
{
    if text.len() > MAX_BYTES {
        return Err(SheetRefusal::TextTooLong);
    }
    let count = lines_in(text);
    if count > MAX_LINES {
        return Err(SheetRefusal::TooManyLines);
    }
    if room < count as usize {
        return Err(SheetRefusal::TableTooSmall);
    }
    Ok(count)
}

/// How many lines a text has.
// Stays: `requires` of private functions, whose caller has just asked for the text's length.
fn lines_in(text: &[u8]) -> u32
    requires { length text.now ≤ max_bytes }
    ensures { result ≡ length (text_lines text.now) }
{
    // Stays: newlines are added up with no test on the way, which is faster than to look for one after the other.
    let newlines = text.iter().map(|b| (*b == b'\n') as u32).sum::<u32>();
    newlines + is_open(text) as u32
}

/// Whether the last line of a text lacks its newline.
fn is_open(text: &[u8]) -> bool
    ensures { result ≡ left_open false text.now }
{
    text.last().is_some_and(|last| *last != b'\n')
}

/// Writes where each line starts.
// Stays: byte by byte, as the test below; an iterator over the starts took two to four times as long where lines are short.
fn write_starts(text: &[u8], starts: &mut [u32])
    requires { (length text.now ≤ max_bytes) × (length (text_lines text.now) ≤ length starts.old) }
    ensures { starts.new ≡ filled text.now starts.old }
{
    let mut count = 0;
    let mut fresh = true;
    for (i, b) in text.iter().enumerate() {
        if fresh {
            starts[count] = i as u32;
            count += 1;
        }
        fresh = *b == b'\n';
    }
}

/// Whether the table begins with where each line starts.
// Stays: for the reason that `write_starts` has.
pub(crate) fn starts_stand(text: &[u8], starts: &[u32]) -> bool
    requires { (length text.now ≤ max_bytes) × (length (text_lines text.now) ≤ length starts.now) }
    ensures { result ≡ same (take (length (text_lines text.now)) starts.now) (starts_of text.now) }
{
    let mut count = 0;
    let mut fresh = true;
    for (i, b) in text.iter().enumerate() {
        if fresh {
            if starts[count] != i as u32 {
                return false;
            }
            count += 1;
        }
        fresh = *b == b'\n';
    }
    true
}
