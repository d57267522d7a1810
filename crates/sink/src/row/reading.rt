ghost use Rattle.std.specs.Prelude.{◌≡◌, List};
ghost use Rattle.rules.specs.Pieces.{Chunk, all_bytes};
ghost use Rattle.sink.specs.Rows.{fresh_row, shown_row};
ghost use Rattle.sink.specs.RowState.{row_value};
ghost use Rattle.sink.specs.Sinks.{Empty, MadeOf};
ghost use Rattle.sink.specs.contracts.row.ops.RowSink.TheImpl.{ghosts as meaning};

use crate::meter::Meter;
use crate::row::Row;
use arrayvec::ArrayVec;

impl Row {
    /// A sink for row `wanted`, counted from 0, as after begin with 0.
    pub fn new(wanted: u32) -> Row
        ensures row { row_value result ≡ fresh_row wanted }
        ensures empty { Empty meaning result }
    {
        Row {
            wanted,
            newlines: 0,
            bytes: ArrayVec::new(),
            meter: Meter::new(),
        }
    }

    /// The row's first bytes: those of the pieces' bytes joined, whatever pieces made the row's value as a sink.
    // Stays: `MadeOf` is the word that the sinks share here; what follows from it is another thing for each.
    pub fn shown(&self) -> &[u8]
        ensures bytes { result.now ≡ (row_value self.now).bytes }
        ensures row { (cs : List Chunk) → MadeOf meaning self.now cs → result.now ≡ shown_row self.now.wanted (all_bytes cs) }
    {
        self.bytes.as_slice()
    }
}
