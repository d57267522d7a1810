ghost use Rattle.std.specs.Prelude.{◌≡◌, ℕ, length};
ghost use Rattle.std.specs.Option.{option_map};
ghost use Rattle.rules.specs.Texts.{nth_line};
ghost use Rattle.rules.specs.Hunks.{Sheets as Lists, sheet_of};
ghost use Rattle.reading.specs.Three.{AllFormed, three_lists, three_formed};

use rules::hunk::Side;
use sheet::sheet::Sheet;

/// The three sheets of a merge, whatever their kinds: what they mean is three lists of lines.
pub trait ThreeSheets {
    ghost sheets: { Self → Lists };

    ghost formed: { (s : Self) → AllFormed (sheets s) };

    /// How many lines the sheet has that the side names.
    fn count_of(&self, side: Side) -> u32
        ensures { result ≡ length (sheet_of (sheets self.now) side) };

    /// Line `n` of the sheet that the side names, or nothing past the last.
    fn line_of(&self, side: Side, n: u32) -> Option<&[u8]>
        ensures { option_map (λ x. x.now) result ≡ nth_line (sheet_of (sheets self.now) side) n };
}

/// Three borrowed sheets.
#[derive(Drop)]
pub struct Sheets<'a, A, C, O> {
    pub ancestor: &'a A,
    pub current: &'a C,
    pub other: &'a O,
}

/// The three sheets together, for as long as all are lent.
pub fn sheets_of<'a, A: Sheet, C: Sheet, O: Sheet>(
    ancestor: &'a A,
    current: &'a C,
    other: &'a O,
) -> Sheets<'a, A, C, O>
    ensures ancestor { result.ancestor.now ≡ ancestor.now }
    ensures current { result.current.now ≡ current.now }
    ensures other { result.other.now ≡ other.now }
    ensures meaning { ⟦<Sheets<'a, A, C, O> as ThreeSheets>⟧.sheets result ≡ three_lists (A.Sheet.sheet ancestor.now) (C.Sheet.sheet current.now) (O.Sheet.sheet other.now) }
{
    Sheets {
        ancestor,
        current,
        other,
    }
}

/// Line `n` of the sheet that the side names, borrowed from that sheet.
// Stays: the project fixes this call, whose answer outlives the borrow of the three; `line_of` answers for as long as that borrow.
pub fn line_for_side<'a, A: Sheet, C: Sheet, O: Sheet>(
    sheets: &Sheets<'a, A, C, O>,
    side: Side,
    n: u32,
) -> Option<&'a [u8]>
    ensures { option_map (λ x. x.now) result ≡ nth_line (sheet_of (three_lists (A.Sheet.sheet sheets.now.ancestor.now) (C.Sheet.sheet sheets.now.current.now) (O.Sheet.sheet sheets.now.other.now)) side) n }
{
    match side {
        Side::Ancestor => sheets.ancestor.line(n),
        Side::Current => sheets.current.line(n),
        Side::Other => sheets.other.line(n),
    }
}

impl<'a, A: Sheet, C: Sheet, O: Sheet> ThreeSheets for Sheets<'a, A, C, O> {
    ghost sheets = { λ s. three_lists (A.Sheet.sheet s.ancestor.now) (C.Sheet.sheet s.current.now) (O.Sheet.sheet s.other.now) };

    ghost formed = { λ s. three_formed (A.Sheet.sheet s.ancestor.now) (C.Sheet.sheet s.current.now) (O.Sheet.sheet s.other.now) };

    fn count_of(&self, side: Side) -> u32 {
        // Stays: the sheets are of three types, so no reference to one of them serves this match and that of `line_for_side`.
        match side {
            Side::Ancestor => self.ancestor.count(),
            Side::Current => self.current.count(),
            Side::Other => self.other.count(),
        }
    }

    fn line_of(&self, side: Side, n: u32) -> Option<&[u8]> {
        line_for_side(self, side, n)
    }
}
