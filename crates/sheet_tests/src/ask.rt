//! Questions put to any kind of sheet, and to the two kinds of the library.
use rules::refusal::Refusal;
use sheet::cells::CellSheet;
use sheet::line::same_line;
use sheet::refusal::SheetRefusal;
use sheet::sheet::Sheet;
use sheet::text::TextSheet;

/// Whether line `n` is there and has these bytes.
pub fn shows<S: Sheet>(sheet: &S, n: u32, want: &[u8]) -> bool {
    sheet.line(n).is_some_and(|line| same_line(line, want))
}

/// Whether there are two lines, these, and none behind them.
pub fn shows_two<S: Sheet>(sheet: &S, first: &[u8], second: &[u8]) -> bool {
    sheet.count() == 2
        && shows(sheet, 0, first)
        && shows(sheet, 1, second)
        && sheet.line(2).is_none()
}

/// Whether there is no line.
pub fn shows_none<S: Sheet>(sheet: &S) -> bool {
    sheet.count() == 0 && sheet.line(0).is_none()
}

/// Whether the text with this table shows this line at `n`.
// Stays: text_shows, _refused and _kept beside those of cells: a text is opened with its table, and cells without one.
pub fn text_shows(text: &[u8], starts: &[u32], n: u32, want: &[u8]) -> bool {
    TextSheet::new(text, starts).is_ok_and(|sheet| shows(&sheet, n, want))
}

/// The number of the refusal that a text meets with this table.
pub fn text_refused(text: &[u8], starts: &[u32]) -> Option<u32> {
    TextSheet::new(text, starts)
        .err()
        .map(|refusal| refusal.number())
}

/// Whether a sheet of "a\n" and "b" still shows them when another text was refused.
pub fn text_kept(text: &[u8], starts: &[u32]) -> bool {
    let mut sheet = TextSheet::empty();
    sheet.open(b"a\nb", &[0, 2]).is_ok()
        && sheet.open(text, starts).is_err()
        && shows_two(&sheet, b"a\n", b"b")
}

/// Whether the memory's cells show this line at `n`.
pub fn cells_show(memory: &[u8], n: u32, want: &[u8]) -> bool {
    CellSheet::new(memory).is_ok_and(|sheet| shows(&sheet, n, want))
}

/// What refuses the memory's cells: number and place.
pub fn cells_refused(memory: &[u8]) -> Option<(u32, u32)> {
    CellSheet::new(memory)
        .err()
        .map(|refusal| (refusal.number(), refusal.place()))
}

/// How many lines the memory's cells hold.
pub fn cells_shown(memory: &[u8]) -> Result<u32, SheetRefusal> {
    CellSheet::new(memory).map(|sheet| sheet.count())
}

/// Whether a sheet of this memory still shows "a\n" and "b" when another memory was refused.
pub fn cells_kept(memory: &[u8], bad: &[u8]) -> bool {
    let mut sheet = CellSheet::empty();
    sheet.open(memory).is_ok() && sheet.open(bad).is_err() && shows_two(&sheet, b"a\n", b"b")
}

/// Whether new sheets of both kinds show no line.
pub fn new_sheets_empty() -> bool {
    shows_none(&TextSheet::empty()) && shows_none(&CellSheet::empty())
}
