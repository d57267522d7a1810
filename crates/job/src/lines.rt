ghost use Rattle.std.specs.Prelude.{◌≡◌, ℕ, ◌<◌, ◌≤◌, ◌==◌, length, drop, position};
ghost use Rattle.std.specs.Iterator.{YieldsFirstRef, item_count};
ghost use Rattle.rules.specs.Texts.{text_lines};
ghost use Rattle.job.specs.Ends.{bare, line_end};
ghost use Rattle.job.specs.Lines.{lines_left};

/// The lines of a job, each with its ending.
// Stays: (d) its `next_gives` is the promise that they are `text_lines`; std's `split_inclusive` speaks of each piece alone, and `line_end` is public beside it.
#[derive(Drop)]
pub struct Lines<'a> {
    rest: &'a [u8],
}

impl<'a> Lines<'a> {
    /// All lines of a job, from its first.
    pub fn of(job: &'a [u8]) -> Lines<'a>
        ensures { lines_left result ≡ text_lines job.now }
    {
        Lines { rest: job }
    }
}

impl<'a> Iterator for Lines<'a> {
    type Item = &'a [u8];

    ghost next_gives = { YieldsFirstRef lines_left };

    ghost remaining = { item_count lines_left };

    #[tactic(auto, using(crate::proofs::Folds::first_line))]
    fn next(&mut self) -> Option<&'a [u8]> {
        if self.rest.is_empty() {
            return None;
        }
        let (line, rest) = self.rest.split_at(line_end(self.rest, 0));
        self.rest = rest;
        Some(line)
    }
}

/// Where the line that begins at a place of a job ends: behind its newline, or at the job's end.
// Stays: (a) public, with a promise and an edit of its own; what sheets have for a text's first line is private there.
#[tactic(auto, using(crate::proofs::Folds::ends_with_job, crate::proofs::Folds::line_forward))]
pub fn line_end(job: &[u8], from: usize) -> usize
    ensures answer { result ≡ line_end job.now from }
    ensures forward { from < length job.now → (from < result) × (result ≤ length job.now) }
{
    match find_from(b'\n', job, from) {
        Some(n) => from + n + 1,
        None => job.len().max(from),
    }
}

/// How many bytes stand ahead of the first such byte from a place on.
fn find_from(byte: u8, bytes: &[u8], from: usize) -> Option<usize>
    ensures { result ≡ position (λ b. b == byte) (drop from bytes.now) }
{
    bytes.iter().skip(from).position(|b| *b == byte)
}

/// A line without its ending.
// Stays: (a) slice patterns on the borrowed line decide its ending, in every crate.
pub fn bare_line(line: &[u8]) -> &[u8]
    ensures { result.now ≡ bare line.now }
{
    match line {
        [bare @ .., b'\r', b'\n'] => bare,
        [bare @ .., b'\n'] => bare,
        _ => line,
    }
}
