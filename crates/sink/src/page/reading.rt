ghost use Rattle.std.specs.Prelude.{◌≡◌, List};
ghost use Rattle.rules.specs.Pieces.{Chunk, all_bytes};
ghost use Rattle.sink.specs.PageState.{page_value};
ghost use Rattle.sink.specs.Sinks.{Empty, MadeOf};
ghost use Rattle.sink.specs.contracts.page.ops.PageSink.TheImpl.{ghosts as meaning};

use crate::meter::Meter;
use crate::page::Page;

impl<'a> Page<'a> {
    /// A page over the lent buffer, as after begin with 0.
    pub fn new(buffer: &'a mut [u8]) -> Page<'a>
        ensures buffer { result.buffer ≡ buffer.entry }
        ensures empty { Empty meaning result }
    {
        Page {
            buffer,
            meter: Meter::new(),
        }
    }

    /// The bytes taken: those of the pieces, joined, whatever pieces made the page's value as a sink.
    // Stays: `MadeOf` is the word that the sinks share here; what follows from it is another thing for each.
    pub fn bytes(&self) -> &[u8]
        ensures bytes { result.now ≡ page_value self.now }
        ensures joined { (cs : List Chunk) → MadeOf meaning self.now cs → result.now ≡ all_bytes cs }
    {
        &self.buffer[..self.meter.taken()]
    }
}
