use crate::ask::{new_sheets_empty, text_kept, text_refused, text_shows};
use rules::refusal::Refusal;
use sheet::split::split;

/// Whether split answers this count and leaves this table, whose places were 9 before.
fn splits(text: &[u8], count: u32, table: [u32; 3]) -> bool {
    let mut starts = [9u32; 3];
    split(text, &mut starts) == Ok(count) && starts == table
}

/// Whether split refuses a table of two places for this number, and leaves them.
fn refuses_two(text: &[u8], number: u32) -> bool {
    let mut starts = [9u32; 2];
    let refused = split(text, &mut starts).is_err_and(|refusal| refusal.number() == number);
    refused && starts == [9, 9]
}

#[test]
fn an_empty_text_has_no_lines(rt: HostRuntime) {
    assert!(rt; splits(b"", 0, [9, 9, 9]));
    assert!(rt; text_refused(b"", &[]) == None);
    assert!(rt; !text_shows(b"", &[], 0, b""));
    assert!(rt; new_sheets_empty());
}

#[test]
fn one_line_with_and_without_newline(rt: HostRuntime) {
    assert!(rt; splits(b"ab\n", 1, [0, 9, 9]));
    assert!(rt; text_shows(b"ab\n", &[0], 0, b"ab\n"));
    assert!(rt; splits(b"ab", 1, [0, 9, 9]));
    assert!(rt; text_shows(b"ab", &[0], 0, b"ab"));
    assert!(rt; !text_shows(b"ab", &[0], 1, b""));
}

#[test]
fn a_carriage_return_ends_no_line(rt: HostRuntime) {
    let text = b"a\rb\r\n\r\n\rc";
    assert!(rt; splits(text, 3, [0, 5, 7]));
    assert!(rt; text_shows(text, &[0, 5, 7], 0, b"a\rb\r\n"));
    assert!(rt; text_shows(text, &[0, 5, 7], 1, b"\r\n"));
    assert!(rt; text_shows(text, &[0, 5, 7], 2, b"\rc"));
}

#[test]
fn a_place_for_each_line(rt: HostRuntime) {
    assert!(rt; splits(b"ab\n\ncd", 3, [0, 3, 4]));
    assert!(rt; splits(b"ab\ncd", 2, [0, 3, 9]));
    assert!(rt; refuses_two(b"ab\n\ncd", 3));
    assert!(rt; text_refused(b"ab\n\ncd", &[0, 3]) == Some(3));
}

#[test]
fn starts_that_do_not_stand(rt: HostRuntime) {
    assert!(rt; text_refused(b"ab\ncd\n", &[0, 3, 77]) == None);
    assert!(rt; text_refused(b"ab\ncd\n", &[0, 4]) == Some(4));
    assert!(rt; text_refused(b"ab\ncd\n", &[1, 3]) == Some(4));
    assert!(rt; text_refused(b"ab\ncd\n", &[3, 0]) == Some(4));
}

#[test]
fn a_refused_opening_keeps_the_old_lines(rt: HostRuntime) {
    assert!(rt; !text_kept(b"ab\ncd\n", &[0, 3]));
    assert!(rt; text_kept(b"ab\ncd\n", &[0, 4]));
    assert!(rt; text_kept(b"ab\ncd\n", &[0]));
}
