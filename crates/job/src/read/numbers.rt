//! Decimal numbers in a line.
ghost use Rattle.std.specs.Prelude.{◌≡◌, ℕ, ◌≤◌, length};
ghost use Rattle.std.specs.Option.{option_map};
ghost use Rattle.job.specs.Numbers.{digit_count, front_number, last_number, number_of, number_then};
ghost use Rattle.job.specs.Words.{told};

/// A number with a mark behind it, and what follows the mark.
pub(super) fn number_then<'a>(mark: &[u8], line: &'a [u8]) -> Option<(u32, &'a [u8])>
    ensures { option_map told result ≡ number_then mark.now line.now }
{
    let (n, behind) = front_number(line)?;
    behind.strip_prefix(mark).map(|rest| (n, rest))
}

/// The number that a whole line is.
pub(super) fn last_number(line: &[u8]) -> Option<u32>
    ensures { result ≡ last_number line.now }
{
    let (n, behind) = front_number(line)?;
    behind.is_empty().then_some(n)
}

/// The number at the front of a line, and what follows it.
fn front_number(line: &[u8]) -> Option<(u32, &[u8])>
    ensures { option_map told result ≡ front_number line.now }
{
    let (digits, rest) = line.split_at(digit_count(line));
    number_of(digits).map(|n| (n, rest))
}

/// How many digits stand at the front of a line.
fn digit_count(line: &[u8]) -> usize
    ensures answer { result ≡ digit_count line.now }
    ensures within { result ≤ length line.now }
{
    line.iter().take_while(|b| b.is_ascii_digit()).count()
}

/// The number that digits write, if there is one and it fits.
// Stays: (d) `from_utf8` and `parse` take twice the instructions, a line of a job through.
fn number_of(digits: &[u8]) -> Option<u32>
    ensures { result ≡ number_of digits.now }
{
    let mut n: u32 = 0;
    for d in digits {
        n = n
            .checked_mul(10)?
            .checked_add(d.saturating_sub(b'0') as u32)?;
    }
    (!digits.is_empty()).then_some(n)
}
