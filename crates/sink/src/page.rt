ghost use Rattle.std.specs.Prelude.{◌≤◌, length};

mod ops;
mod reading;

use crate::meter::Meter;

/// A sink that writes into a lent buffer.
#[derive(Drop)]
pub struct Page<'a> {
    // Stays: the memory is lent, and how far it is written the meter says for every kind of sink.
    buffer: &'a mut [u8],
    meter: Meter,
    ghost fits: { meter.announced ≤ length buffer.now },
}
