ghost use Rattle.std.specs.Prelude.{◌≡◌, ℕ, ◌+◌, ◌<◌, ◌≤◌};
ghost use Rattle.rules.specs.Pieces.{Chunk, size};
ghost use Rattle.sink.specs.Pieces.{chunk};
ghost use Rattle.sink.specs.Answers.{begin_answer, take_answer};

use crate::piece::Piece;
use crate::refusal::{NoRoom, TooLong};

/// What pieces are given to, one after another.
pub trait Sink {
    // What the sink makes of the pieces, what it starts from, and what one more piece makes of it.
    ghost Value: { Type 0 };

    ghost value: { Self → Value };

    ghost fresh: { Self → Value };

    ghost rule: { Value → Chunk → Value };

    // How many bytes it took, how many were announced, and how many may be.
    ghost taken: { Self → ℕ };

    ghost announced: { Self → ℕ };

    ghost capacity: { Self → ℕ };

    // What each kind of sink owes: it has taken no more than was announced, and that is no more than its capacity.
    ghost within: { (s : Self) → (taken s ≤ announced s) × (announced s ≤ capacity s) };

    // What the sink leaves alone from a place on, as the rest of a lent memory: no take reaches behind the bytes taken.
    // Stays: (c) no default for sinks that lend nothing: "a default sees no member", and the type of `rest` names `Rest`.
    ghost Rest: { Type 0 };

    ghost rest: { Self → ℕ → Rest };

    /// Announces `n` bytes and starts afresh, or refuses and changes nothing.
    fn begin(&mut self, n: usize) -> Result<(), TooLong>
        ensures answer { result ≡ begin_answer n (capacity self.old) }
        ensures value { n ≤ capacity self.old → value self.new ≡ fresh self.old }
        ensures announced { n ≤ capacity self.old → announced self.new ≡ n }
        ensures taken { n ≤ capacity self.old → taken self.new ≡ 0 }
        ensures fresh { fresh self.new ≡ fresh self.old }
        ensures capacity { capacity self.new ≡ capacity self.old }
        ensures rest { (k : ℕ) → rest self.new k ≡ rest self.old k }
        ensures refused { capacity self.old < n → self.new ≡ self.old };

    /// Takes one more piece, or refuses it and changes nothing.
    fn take(&mut self, p: Piece<'_>) -> Result<(), NoRoom>
        ensures answer { result ≡ take_answer (taken self.old) (announced self.old) (size (chunk p.entry)) }
        ensures value { taken self.old + size (chunk p.entry) ≤ announced self.old → value self.new ≡ rule (value self.old) (chunk p.entry) }
        ensures taken { taken self.old + size (chunk p.entry) ≤ announced self.old → taken self.new ≡ taken self.old + size (chunk p.entry) }
        ensures announced { announced self.new ≡ announced self.old }
        ensures fresh { fresh self.new ≡ fresh self.old }
        ensures capacity { capacity self.new ≡ capacity self.old }
        ensures rest { (k : ℕ) → taken self.new ≤ k → rest self.new k ≡ rest self.old k }
        ensures refused { announced self.old < taken self.old + size (chunk p.entry) → self.new ≡ self.old };
}
