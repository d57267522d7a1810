ghost use Rattle.std.specs.Prelude.{◌≡◌, List};
ghost use Rattle.rules.specs.Pieces.{Chunk, total};
ghost use Rattle.sink.specs.Sinks.{Empty, MadeOf};
ghost use Rattle.sink.specs.contracts.tally.ops.TallySink.TheImpl.{ghosts as meaning};

use crate::meter::Meter;
use crate::tally::Tally;

impl Tally {
    /// A tally, as after begin with 0.
    pub fn new() -> Tally
        ensures { Empty meaning result }
    {
        Tally {
            meter: Meter::new(),
        }
    }

    /// How many bytes it took: the length of the pieces together, whatever pieces made the tally's value as a sink.
    // Stays: `MadeOf` is the word that the sinks share here; what follows from it is another thing for each.
    pub fn count(&self) -> usize
        ensures count { result ≡ self.now.meter.taken }
        ensures total { (cs : List Chunk) → MadeOf meaning self.now cs → result ≡ total cs }
    {
        self.meter.taken()
    }
}
