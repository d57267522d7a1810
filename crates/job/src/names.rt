//! What a job writes as one word, by its name.
ghost use Rattle.std.specs.Prelude.{◌≡◌};
ghost use Rattle.job.specs.Words.{kind_word, kinds, named, side_word, sides, verb_word, verbs};

use crate::command::{SheetKind, Verb};
use rules::hunk::Side;

/// Things that have a name each, of which no two are the same.
// Stays: (d) reading and spelling share one table, and the law `back` ties them; `FromStr` and `Display` apart would not owe that they fit.
pub trait Named: Copy + 'static {
    ghost use Rattle.std.specs.Prelude.{List, ℕ, Some};

    ghost all: { List Self };

    ghost name: { Self → List ℕ };

    fn all() -> &'static [Self]
        ensures { result.now ≡ all };

    fn name(self) -> &'static str
        ensures { result.now ≡ name self };

    ghost back: { (x : Self) → named name all (name x) ≡ Some x };
}

/// What a whole word names.
pub fn from_name<N: Named>(word: &[u8]) -> Option<N>
    ensures { result ≡ named N.name N.all word.now }
{
    N::all()
        .iter()
        .copied()
        .find(|x| x.name().as_bytes() == word)
}

impl Named for Side {
    ghost use Rattle.std.proofs.Common.{rules};

    ghost all = { sides };

    ghost name = { side_word };

    fn all() -> &'static [Side] {
        &[Side::Ancestor, Side::Current, Side::Other]
    }

    fn name(self) -> &'static str {
        match self {
            Side::Ancestor => "ancestor",
            Side::Current => "current",
            Side::Other => "other",
        }
    }

    ghost back = { Prim.search rules };
}

impl Named for SheetKind {
    ghost use Rattle.std.proofs.Common.{rules};

    ghost all = { kinds };

    ghost name = { kind_word };

    fn all() -> &'static [SheetKind] {
        &[SheetKind::Text, SheetKind::Cells]
    }

    fn name(self) -> &'static str {
        match self {
            SheetKind::Text => "text",
            SheetKind::Cells => "cells",
        }
    }

    ghost back = { Prim.search rules };
}

impl Named for Verb {
    ghost use Rattle.std.proofs.Common.{rules};

    ghost all = { verbs };

    ghost name = { verb_word };

    fn all() -> &'static [Verb] {
        &[
            Verb::Lines,
            Verb::Sheet,
            Verb::Row,
            Verb::Open,
            Verb::Enter,
            Verb::Withdraw,
            Verb::Held,
            Verb::Help,
        ]
    }

    fn name(self) -> &'static str {
        match self {
            Verb::Lines => "lines",
            Verb::Sheet => "sheet",
            Verb::Row => "row",
            Verb::Open => "open",
            Verb::Enter => "enter",
            Verb::Withdraw => "withdraw",
            Verb::Held => "held",
            Verb::Help => "help",
        }
    }

    ghost back = { Prim.search rules };
}
