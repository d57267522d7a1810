use crate::ask::{cells_kept, cells_refused, cells_show, cells_shown};
use std::alloc::{AllocError, Global};
use std::test::Fail;

/// A cell with this length byte and these first two bytes behind it; the others are 'z'.
fn cell(len: u8, a: u8, b: u8) -> [u8; 48] {
    let mut cell = [b'z'; 48];
    cell[0] = len;
    cell[1] = a;
    cell[2] = b;
    cell
}

/// As many cells of the first form, then one of the second.
fn cells(heap: Global, count: usize, first: &[u8], last: &[u8]) -> Result<Vec<u8>, AllocError> {
    let mut memory = first.repeat(heap, count)?;
    memory.extend_from_slice(last)?;
    Ok(memory)
}

#[test]
fn lengths_0_47_48_255(rt: HostRuntime) {
    assert!(rt; cells_refused(&cell(0, b'a', b'\n')) == Some((6, 0)));
    assert!(rt; cells_refused(&cell(48, b'a', b'b')) == Some((6, 0)));
    assert!(rt; cells_refused(&cell(255, b'a', b'b')) == Some((6, 0)));
    assert!(rt;
        cells_show(
            &cell(47, b'a', b'b'),
            0,
            b"abzzzzzzzzzzzzzzzzzzzzzzzzzzzzzzzzzzzzzzzzzzzzz",
        )
    );
}

#[test]
fn a_newline_ends_a_cells_line(rt: HostRuntime) {
    assert!(rt; cells_show(&cell(2, b'a', b'\n'), 0, b"a\n"));
    assert!(rt; cells_show(&cell(1, b'\n', b'\n'), 0, b"\n"));
    assert!(rt; cells_refused(&cell(3, b'a', b'\n')) == Some((6, 0)));
    assert!(rt; cells_refused(&cell(2, b'\n', b'\n')) == Some((6, 0)));
}

#[test]
fn only_the_last_cell_lacks_its_newline(rt: HostRuntime) -> Result<(), Fail> {
    let memory = cells(rt.alloc(), 2, &cell(2, b'a', b'\n'), &cell(1, b'b', b'\n'))?;
    assert!(rt; cells_show(&memory, 2, b"b"));
    let memory = cells(rt.alloc(), 2, &cell(2, b'a', b'\n'), &cell(0, b'b', b'\n'))?;
    assert!(rt; cells_refused(&memory) == Some((6, 2)));
    let memory = cells(rt.alloc(), 2, &cell(1, b'a', b'\n'), &cell(2, b'b', b'\n'))?;
    assert!(rt; cells_refused(&memory) == Some((6, 0)));
    Ok(())
}

#[test]
fn whole_cells(rt: HostRuntime) {
    assert!(rt; cells_shown(&[]) == Ok(0));
    assert!(rt; cells_refused(&[1; 24]) == Some((5, 0)));
    assert!(rt; cells_shown(&[1; 48]) == Ok(1));
    assert!(rt; cells_refused(&[1; 49]) == Some((5, 0)));
}

#[test]
fn cells_1024_and_1025(rt: HostRuntime) -> Result<(), Fail> {
    let memory = cells(
        rt.alloc(),
        1023,
        &cell(2, b'a', b'\n'),
        &cell(1, b'b', b'\n'),
    )?;
    assert!(rt; cells_show(&memory, 1022, b"a\n"));
    assert!(rt; cells_show(&memory, 1023, b"b"));
    let memory = cells(
        rt.alloc(),
        1024,
        &cell(2, b'a', b'\n'),
        &cell(1, b'b', b'\n'),
    )?;
    assert!(rt; cells_refused(&memory) == Some((5, 0)));
    Ok(())
}

#[test]
fn a_refused_opening_keeps_the_old_lines(rt: HostRuntime) -> Result<(), Fail> {
    let good = cells(rt.alloc(), 1, &cell(2, b'a', b'\n'), &cell(1, b'b', b'\n'))?;
    assert!(rt;
        !cells_kept(&good, &[1; 48]) && cells_kept(&good, &[1; 24]) && cells_kept(&good, &[0; 48])
    );
    Ok(())
}
