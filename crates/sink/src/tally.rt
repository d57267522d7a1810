ghost use Rattle.std.specs.Prelude.{◌≤◌};
ghost use Rattle.sink.specs.Answers.{largest};

mod ops;
mod reading;

use crate::meter::Meter;

/// A sink that only counts bytes, and as many as can be counted: what is measured goes through it first.
#[derive(Drop)]
pub struct Tally {
    meter: Meter,
    ghost fits: { meter.announced ≤ largest },
}
