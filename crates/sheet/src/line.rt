ghost use Rattle.std.specs.Prelude.{◌≡◌, ℕ};
ghost use Rattle.rules.specs.Endings.{line_ending};
ghost use Rattle.rules.specs.Lines.{same_line};

use rules::ending::Ending;

/// Whether two lines have the same bytes.
// Stays: (d) the body is `==` already; the name is the rule's, and what the contract ties to it.
pub fn same_line(a: &[u8], b: &[u8]) -> bool
    ensures { result ≡ same_line a.now b.now }
{
    a == b
}

/// What a line's last two bytes say of line endings: nothing if it lacks the newline or is a newline alone.
pub fn ending_of(line: &[u8]) -> Option<Ending>
    ensures { result ≡ line_ending line.now }
{
    // Stays: (a) slice patterns on the line decide its ending.
    match line {
        [.., b'\r', b'\n'] => Some(Ending::ReturnNewline),
        [_, .., b'\n'] => Some(Ending::Newline),
        _ => None,
    }
}
