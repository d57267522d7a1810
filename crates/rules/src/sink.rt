ghost use Rattle.std.specs.Prelude.{ℕ, List, []};
ghost use Rattle.rules.specs.Pieces.{Chunk};
ghost use Rattle.rules.specs.Pieces.{one_more, more_bytes};

/// What a kind of sink makes of the pieces that it is given: a value, with a rule for one more piece, from a fresh one on.
pub trait Takes {
    ghost value: { Type 0 };

    ghost fresh: { value };

    ghost rule: { value → Chunk → value };
}

/// A sink that keeps the pieces.
#[derive(Clone, Copy)]
pub struct Pieces {}

impl Takes for Pieces {
    ghost value = { List Chunk };

    ghost fresh = { [] };

    ghost rule = { one_more };
}

/// A sink that keeps their bytes.
#[derive(Clone, Copy)]
pub struct Bytes {}

impl Takes for Bytes {
    ghost value = { List ℕ };

    ghost fresh = { [] };

    ghost rule = { more_bytes };
}
