ghost use Rattle.std.specs.Prelude.{◌≤◌};
ghost use Rattle.rules.specs.Limits.{row_capacity};

mod ops;
mod reading;

use crate::meter::Meter;
use arrayvec::ArrayVec;
use rules::limits::ROW_WIDTH;

/// A sink that holds the first bytes of one row of what it takes.
#[derive(Drop)]
pub struct Row {
    wanted: u32,
    newlines: u32,
    bytes: ArrayVec<u8, ROW_WIDTH>,
    meter: Meter,
    ghost counted: { newlines ≤ meter.taken },
    ghost fits: { meter.announced ≤ row_capacity },
}
