ghost use Rattle.std.specs.Prelude.{◌≤◌};
ghost use Rattle.sink_tests.specs.Logs.{log_bytes};

mod ops;

use crate::entry::Entry;
use arrayvec::ArrayVec;
use sink::meter::Meter;

/// How many pieces a log keeps.
pub const LOG_PLACES: usize = 16;

/// A sink that keeps the pieces themselves, and says so where it has lost one.
#[derive(Drop)]
pub struct Log {
    entries: ArrayVec<Entry, LOG_PLACES>,
    // Stays: (d) no value goes with the flag: the pieces kept are the same to read whether or not one was lost.
    lost: bool,
    meter: Meter,
    ghost fits: { meter.announced ≤ log_bytes },
}
