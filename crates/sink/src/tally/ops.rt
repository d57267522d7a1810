ghost use Rattle.std.specs.Prelude.{ℕ};
ghost use Rattle.sink.specs.Answers.{largest};
ghost use Rattle.sink.specs.Tallies.{tally_rule};

use crate::piece::Piece;
use crate::refusal::{NoRoom, TooLong};
use crate::sink::Sink;
use crate::tally::Tally;

impl Sink for Tally {
    ghost Value = { ℕ };

    ghost value = { λ s. s.meter.taken };

    ghost fresh = { λ _. 0 };

    ghost rule = { tally_rule };

    // Stays: a sink of its own says what its meter counts, since a trait's default sees no member.
    ghost taken = { λ s. s.meter.taken };

    ghost announced = { λ s. s.meter.announced };

    ghost capacity = { λ _. largest };

    ghost within = { λ s. (s.meter.within, s.fits) };

    ghost Rest = { Unit {0} };

    ghost rest = { λ _ _. tt };

    fn begin(&mut self, n: usize) -> Result<(), TooLong> {
        self.meter.begin(n, usize::MAX)
    }

    fn take(&mut self, p: Piece<'_>) -> Result<(), NoRoom> {
        self.meter.take(p.bytes().len())
    }
}
