ghost use Rattle.std.specs.Prelude.{◌≡◌, ℕ, ◌+◌, length};
ghost use Rattle.job.specs.Sums.{count_of, summed};

/// What came of a command.
#[derive(Clone, Copy, PartialEq, Eq, Debug)]
pub enum Outcome {
    Done,
    /// Refused by the library, with a number.
    Refused,
    /// A file could not be read.
    Failed,
    NotUnderstood,
}

/// How many commands a job had, and what came of them.
#[derive(Clone, Copy, PartialEq, Eq, Debug)]
pub struct Summary {
    pub commands: usize,
    pub done: usize,
    pub refused: usize,
    pub failed: usize,
    pub not_understood: usize,
}

/// Counts every command once.
pub fn sum_up(outcomes: &[Outcome]) -> Summary
    ensures answer { result ≡ summed outcomes.now }
    ensures once { result.done + (result.refused + (result.failed + result.not_understood)) ≡ result.commands }
{
    Summary {
        commands: outcomes.len(),
        done: count_of(outcomes, Outcome::Done),
        refused: count_of(outcomes, Outcome::Refused),
        failed: count_of(outcomes, Outcome::Failed),
        not_understood: count_of(outcomes, Outcome::NotUnderstood),
    }
}

/// How many outcomes are this one.
fn count_of(outcomes: &[Outcome], which: Outcome) -> usize
    ensures { result ≡ count_of which outcomes.now }
{
    outcomes
        .iter()
        .map(|outcome| (*outcome == which) as usize)
        .sum()
}
