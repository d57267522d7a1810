ghost use Rattle.std.specs.Prelude.{◌≡◌, ◌+◌, ◌<◌, ◌≤◌};
ghost use Rattle.rules.specs.Limits.{row_capacity};
ghost use Rattle.sink.specs.Rows.{RowValue, fresh_row, row_rule, shows};
ghost use Rattle.sink.specs.RowState.{row_value};

use crate::piece::Piece;
use crate::refusal::{NoRoom, TooLong};
use crate::row::Row;
use crate::sink::Sink;
use rules::limits::ROW_CAPACITY;

impl Row {
    // One more byte, which was counted as taken. Past the row's width it is not shown.
    fn show(&mut self, b: u8)
        requires { self.old.newlines < self.old.meter.taken }
        ensures value { row_value self.new ≡ shows (row_value self.old) b }
        ensures newlines { self.new.newlines ≤ self.old.newlines + 1 }
        ensures meter { self.new.meter ≡ self.old.meter }
    {
        if b == b'\n' {
            // Stays: the count goes on from one piece to the next.
            self.newlines += 1;
        } else if self.newlines == self.wanted {
            let _ = self.bytes.try_push(b);
        }
    }
}

impl Sink for Row {
    ghost Value = { RowValue };

    ghost value = { row_value };

    ghost fresh = { λ s. fresh_row s.wanted };

    ghost rule = { row_rule };

    // Stays: a sink of its own says what its meter counts, since a trait's default sees no member.
    ghost taken = { λ s. s.meter.taken };

    ghost announced = { λ s. s.meter.announced };

    ghost capacity = { λ _. row_capacity };

    ghost within = { λ s. (s.meter.within, s.fits) };

    ghost Rest = { Unit {0} };

    ghost rest = { λ _ _. tt };

    fn begin(&mut self, n: usize) -> Result<(), TooLong> {
        self.meter.begin(n, ROW_CAPACITY)?;
        self.newlines = 0;
        self.bytes.clear();
        Ok(())
    }

    fn take(&mut self, p: Piece<'_>) -> Result<(), NoRoom> {
        let bytes = p.bytes();
        self.meter.take(bytes.len())?;
        for b in bytes {
            self.show(*b);
        }
        Ok(())
    }
}
