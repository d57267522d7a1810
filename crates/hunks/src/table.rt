use crate::list::HunkList;
use rules::limits::MAX_HUNKS;
use std::marker::Model;

mod ops;
mod side;

/// One side: the line count of its sheet, and the hunks held of it in the order of their enters.
#[derive(Drop)]
struct HeldSide {
    lines: u32,
    hunks: HunkList<MAX_HUNKS>,
}

/// The line counts of the three sheets, and the hunks held of the two sides.
#[derive(Drop)]
pub struct HunkTable {
    ancestor_lines: u32,
    current: HeldSide,
    other: HeldSide,
}

// Clauses see the table of the rules, which keeps what the rules say that every table keeps.
impl Model for HunkTable {
    ghost use Rattle.rules.specs.Tables.{Held};
    ghost use Rattle.rules.specs.TableLaws.{TableKeeps};

    ghost Value = { Held };

    ghost use Rattle.hunks.specs.Tables.{table_of};

    ghost view = { table_of };

    ghost invariant = { λ t. TableKeeps (table_of t) };
}
