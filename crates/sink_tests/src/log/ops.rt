ghost use Rattle.std.specs.Prelude.{◌≡◌, ℕ, ◌+◌, ◌<◌, ◌≤◌, Bool, true, false, List, slice_get};
ghost use Rattle.std.specs.Option.{option_map};
ghost use Rattle.rules.specs.Pieces.{Chunk, made, size};
ghost use Rattle.sink.specs.Answers.{begin_answer, take_answer};
ghost use Rattle.sink.specs.Pieces.{chunk};
ghost use Rattle.sink_tests.specs.Logs.{LogValue, log_bytes, fresh_log, log_rule};
ghost use Rattle.sink_tests.specs.LogState.{log_value};

use crate::entry::{Entry, LOG_BYTES};
use crate::log::Log;
use arrayvec::ArrayVec;
use sink::meter::Meter;
use sink::piece::Piece;
use sink::refusal::{NoRoom, TooLong};
use sink::sink::Sink;

impl Log {
    /// A log, as after begin with 0.
    pub fn new() -> Log
        ensures value { log_value result ≡ fresh_log }
        ensures empty { (result.meter.announced ≡ 0) × (result.meter.taken ≡ 0) }
    {
        Log {
            entries: ArrayVec::new(),
            lost: false,
            meter: Meter::new(),
        }
    }

    /// Whether a piece was lost. Where none was, the pieces kept are those taken, whatever pieces made the log's value: none is
    /// left out, added or put elsewhere.
    pub fn lost(&self) -> bool
        ensures lost { result ≡ (log_value self.now).lost }
        ensures whole { (cs : List Chunk) → log_value self.now ≡ made log_rule fresh_log cs → result ≡ false → (log_value self.now).pieces ≡ cs }
    {
        self.lost
    }

    /// Piece `n` of those kept, or nothing past the last.
    pub fn piece(&self, n: usize) -> Option<Piece<'_>>
        ensures { option_map chunk result ≡ slice_get (log_value self.now).pieces n }
    {
        self.entries.as_slice().get(n).map(|entry| entry.piece())
    }
}

impl Sink for Log {
    ghost Value = { LogValue };

    ghost value = { log_value };

    ghost fresh = { λ _. fresh_log };

    ghost rule = { log_rule };

    // Stays: a sink of its own says what its meter counts, since a trait's default sees no member.
    ghost taken = { λ s. s.meter.taken };

    ghost announced = { λ s. s.meter.announced };

    ghost capacity = { λ _. log_bytes };

    ghost within = { λ s. (s.meter.within, s.fits) };

    ghost Rest = { Unit {0} };

    ghost rest = { λ _ _. tt };

    fn begin(&mut self, n: usize) -> Result<(), TooLong> {
        self.meter.begin(n, LOG_BYTES)?;
        self.entries.clear();
        self.lost = false;
        Ok(())
    }

    fn take(&mut self, p: Piece<'_>) -> Result<(), NoRoom> {
        self.meter.take(p.bytes().len())?;
        if self.entries.try_push(Entry::copy(p)).is_err() {
            self.lost = true;
        }
        Ok(())
    }
}
