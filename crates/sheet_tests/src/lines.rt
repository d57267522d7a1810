use rules::ending::Ending;
use rules::refusal::Refusal;
use sheet::line::{ending_of, same_line};
use sheet::refusal::SheetRefusal;

#[test]
fn lines_are_equal_byte_for_byte(rt: HostRuntime) {
    assert!(rt; same_line(b"ab\n", b"ab\n"));
    assert!(rt; !same_line(b"ab\n", b"ab"));
    assert!(rt; !same_line(b"ab\n", b"aB\n"));
}

#[test]
fn endings(rt: HostRuntime) {
    assert_eq!(rt; ending_of(b"a\n"), Some(Ending::Newline));
    assert_eq!(rt; ending_of(b"a\r\n"), Some(Ending::ReturnNewline));
    assert_eq!(rt; ending_of(b"\r\n"), Some(Ending::ReturnNewline));
    assert_eq!(rt; ending_of(b"\n"), None);
    assert_eq!(rt; ending_of(b"a\r"), None);
    assert_eq!(rt; ending_of(b""), None);
}

#[test]
fn a_bad_cell_has_a_place(rt: HostRuntime) {
    assert_eq!(rt; SheetRefusal::BadCell(17).number(), 6);
    assert_eq!(rt; SheetRefusal::BadCell(17).place(), 17);
    assert_eq!(rt; SheetRefusal::CellsUnfit.number(), 5);
    assert_eq!(rt; SheetRefusal::CellsUnfit.place(), 0);
}
