//! The stated limits, each under one name; `specs/Limits.antt` has the same names for the contracts.

/// The most lines of a sheet.
pub const MAX_LINES: u32 = 4096;
/// The most bytes of a sheet's lines together.
pub const MAX_BYTES: usize = 60000;
/// The most hunks held of a side.
pub const MAX_HUNKS: usize = 256;
/// The most bytes of a label.
pub const MAX_LABEL: usize = 64;
/// The largest marker size.
pub const MAX_MARKER_SIZE: u32 = 255;
/// The most bytes that a row sink shows of its row.
pub const ROW_WIDTH: usize = 40;
/// The most bytes that can be announced to a row sink.
pub const ROW_CAPACITY: usize = 4294967295;
/// The most hunks of a group's side with its stretches filled in: `MAX_HUNKS` of the side, and one stretch more than these.
pub const MAX_FILLED: usize = 513;
/// The most hunks that contraction removes of a side: it may cut one in front and one in back.
pub const MAX_REMOVED: usize = 515;
