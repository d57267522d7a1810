ghost use Rattle.std.specs.Prelude.{ℕ, List, [], length};
ghost use Rattle.rules.specs.Pieces.{more_bytes};
ghost use Rattle.sink.specs.PageState.{page_value, page_rest};

use crate::page::Page;
use crate::piece::Piece;
use crate::refusal::{NoRoom, TooLong};
use crate::sink::Sink;

impl<'a> Sink for Page<'a> {
    ghost Value = { List ℕ };

    ghost value = { page_value };

    ghost fresh = { λ _. [] };

    ghost rule = { more_bytes };

    // Stays: a sink of its own says what its meter counts, since a trait's default sees no member.
    ghost taken = { λ s. s.meter.taken };

    ghost announced = { λ s. s.meter.announced };

    ghost capacity = { λ s. length s.buffer.now };

    ghost within = { λ s. (s.meter.within, s.fits) };

    ghost Rest = { ℕ × List ℕ };

    ghost rest = { page_rest };

    fn begin(&mut self, n: usize) -> Result<(), TooLong> {
        self.meter.begin(n, self.buffer.len())
    }

    fn take(&mut self, p: Piece<'_>) -> Result<(), NoRoom> {
        let bytes = p.bytes();
        let at = self.meter.taken();
        self.meter.take(bytes.len())?;
        self.buffer[at..at + bytes.len()].copy_from_slice(bytes);
        Ok(())
    }
}
