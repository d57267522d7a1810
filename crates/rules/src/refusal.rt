//! Why a call is refused. Each layer has an enum of its own that lists what it can answer; the layer, the number and the place of a case, and
//! what is printed of it, are definitions of that case in `specs/Refusals.antt`.
ghost use Rattle.std.specs.Prelude.{◌≡◌, ℕ, Some};
ghost use Rattle.rules.specs.Refusals.{layer_word, side_place, range_place, table_number, table_layer, table_place, table_words, render_number, render_layer, render_place};
ghost use Rattle.rules.specs.declared.refusal.Layer.{Layer as TheLayer};

use crate::hunk::Side;
use std::fmt;

/// What each refusal tells: its number, the layer that refuses, and where.
pub trait Refusal: Copy {
    ghost number: { Self → ℕ };

    ghost layer: { Self → TheLayer };

    ghost place: { Self → ℕ };

    // Stays: numbers and places of refusals are part of the product, which shows them, and place 0 where there is none.
    fn number(self) -> u32
        ensures { result ≡ number self };

    fn layer(self) -> Layer
        ensures { result ≡ layer self };

    fn place(self) -> u32
        ensures { result ≡ place self };
}

/// The layers that refuse.
#[derive(Clone, Copy, PartialEq, Eq, Debug)]
pub enum Layer {
    Sheet,
    Table,
    Render,
}

/// One of a hunk's two ranges.
#[derive(Clone, Copy, PartialEq, Eq, Debug)]
pub enum HunkRange {
    Before,
    After,
}

/// Why open, enter or withdraw is refused.
#[derive(Clone, Copy, PartialEq, Eq, Debug)]
pub enum TableRefusal {
    /// 7: a count of lines is too large.
    CountTooLarge(Side),
    /// 8: no hunks are held of the side.
    NoHunksOfSide,
    /// 9: the side holds as many hunks as it may.
    SideFull,
    /// 10: a range runs backward, or past its sheet's last line.
    RangeOutside(HunkRange),
    /// 11: both ranges are empty.
    HunkEmpty,
    /// 12: the hunk does not lie behind the side's last one.
    NotBehindLast,
    /// 13: no hunk is held there.
    NothingHeld,
}

/// Why size or render is refused.
#[derive(Clone, Copy, PartialEq, Eq, Debug)]
pub enum RenderRefusal {
    /// 14: a sheet has another count of lines than the table was opened with.
    CountsDiffer(Side),
    /// 15: the marker size is 0 or too large.
    MarkerSize,
    /// 16: a label is too long.
    LabelTooLong(Side),
    /// 17: the sink has less room than the rendering needs.
    SinkTooSmall { needed: u32, capacity: u64 },
}

/// The place of a sheet in a refusal.
impl From<Side> for u32 {
    ghost from_gives = { λ side place. place ≡ side_place side };

    fn from(side: Side) -> u32 {
        match side {
            Side::Ancestor => 0,
            Side::Current => 1,
            Side::Other => 2,
        }
    }
}

/// The place of a hunk's range in a refusal.
impl From<HunkRange> for u32 {
    ghost from_gives = { λ range place. place ≡ range_place range };

    fn from(range: HunkRange) -> u32 {
        match range {
            HunkRange::Before => 0,
            HunkRange::After => 1,
        }
    }
}

impl Refusal for TableRefusal {
    ghost number = { table_number };

    ghost layer = { table_layer };

    ghost place = { table_place };

    fn number(self) -> u32 {
        match self {
            TableRefusal::CountTooLarge(_) => 7,
            TableRefusal::NoHunksOfSide => 8,
            TableRefusal::SideFull => 9,
            TableRefusal::RangeOutside(_) => 10,
            TableRefusal::HunkEmpty => 11,
            TableRefusal::NotBehindLast => 12,
            TableRefusal::NothingHeld => 13,
        }
    }

    fn layer(self) -> Layer {
        Layer::Table
    }

    fn place(self) -> u32 {
        match self {
            TableRefusal::CountTooLarge(side) => side.into(),
            TableRefusal::RangeOutside(range) => range.into(),
            _ => 0,
        }
    }
}

impl Refusal for RenderRefusal {
    ghost number = { render_number };

    ghost layer = { render_layer };

    ghost place = { render_place };

    fn number(self) -> u32 {
        match self {
            RenderRefusal::CountsDiffer(_) => 14,
            RenderRefusal::MarkerSize => 15,
            RenderRefusal::LabelTooLong(_) => 16,
            RenderRefusal::SinkTooSmall { .. } => 17,
        }
    }

    fn layer(self) -> Layer {
        Layer::Render
    }

    fn place(self) -> u32 {
        match self {
            RenderRefusal::CountsDiffer(side) | RenderRefusal::LabelTooLong(side) => side.into(),
            _ => 0,
        }
    }
}

impl fmt::Display for Layer {
    ghost output = { λ layer. Some (layer_word layer) };

    fn fmt<W: fmt::Write>(&self, f: &mut fmt::Formatter<W>) -> fmt::Result {
        f.write_str(match self {
            Self::Sheet => "sheet",
            Self::Table => "table",
            Self::Render => "render",
        })
    }
}

impl fmt::Display for TableRefusal {
    ghost output = { λ refusal. Some (table_words refusal) };

    fn fmt<W: fmt::Write>(&self, f: &mut fmt::Formatter<W>) -> fmt::Result {
        f.write_str(match self {
            Self::CountTooLarge(_) => "this sheet has more than 4096 lines",
            Self::NoHunksOfSide => "no hunks are held of the ancestor",
            Self::SideFull => "the side holds 256 hunks",
            Self::RangeOutside(HunkRange::Before) =>
                "the before range runs backward or past the ancestor's end",
            Self::RangeOutside(HunkRange::After) =>
                "the after range runs backward or past the sheet's end",
            Self::HunkEmpty => "both ranges are empty",
            Self::NotBehindLast =>
                "the hunk does not lie behind the side's last one, with an ancestor line between",
            Self::NothingHeld => "no hunk is held of the side",
        })
    }
}
