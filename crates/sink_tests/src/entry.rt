ghost use Rattle.std.specs.Prelude.{◌≡◌, ◌≤◌};
ghost use Rattle.rules.specs.Pieces.{size};
ghost use Rattle.sink.specs.Pieces.{chunk};
ghost use Rattle.sink_tests.specs.Logs.{log_bytes};
ghost use Rattle.sink_tests.specs.Entries.{entry_chunk};

use arrayvec::ArrayVec;
use sink::piece::{Kind, Piece};

/// The most bytes of a piece that is kept.
pub const LOG_BYTES: usize = 64;

/// A piece that is kept: its kind and a copy of its bytes.
#[derive(Drop)]
pub struct Entry {
    kind: Kind,
    bytes: ArrayVec<u8, LOG_BYTES>,
}

/// What stands in a place that no piece has taken yet.
// Stays: a derive asks a default of `Kind`, and no kind of piece is one.
impl Default for Entry {
    fn default() -> Entry {
        Entry {
            kind: Kind::Common,
            bytes: ArrayVec::new(),
        }
    }
}

impl Entry {
    /// A copy of a piece that is short enough to be kept.
    // Stays: a method and no `From`, which could not require that the piece is short enough.
    pub fn copy(p: Piece<'_>) -> Entry
        requires { size (chunk p) ≤ log_bytes }
        ensures { entry_chunk result ≡ chunk p.entry }
    {
        let mut bytes = ArrayVec::new();
        let _ = bytes.try_extend_from_slice(p.bytes());
        Entry {
            kind: p.kind(),
            bytes,
        }
    }

    /// The piece that is kept.
    // Stays: a method as those of `Piece` are: it lends the entry's bytes, and converts nothing.
    pub fn piece(&self) -> Piece<'_>
        ensures { chunk result ≡ entry_chunk self.now }
    {
        Piece::new(self.kind, self.bytes.as_slice())
    }
}
