/// `begin` refused: the length asked for is above the sink's capacity.
#[derive(Clone, Copy, PartialEq, Eq, Debug)]
pub struct TooLong {
    pub capacity: usize,
}

/// `take` refused: the piece is longer than what is left of the announced length.
#[derive(Clone, Copy, PartialEq, Eq, Debug)]
pub struct NoRoom {
    pub room: usize,
}

/// `write_all` refused: the length is past what a `usize` counts, or above the sink's capacity.
#[derive(Clone, Copy, PartialEq, Eq, Debug)]
pub enum Unwritten {
    Uncountable,
    TooLong { needed: usize, capacity: usize },
}
