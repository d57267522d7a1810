use crate::ask::text_refused;
use rules::refusal::Refusal;
use sheet::split::split;
use std::alloc::{AllocError, Global};
use std::test::Fail;

/// The number of the refusal that a text of this many such bytes meets at a table of this many places.
fn refused(heap: Global, byte: u8, bytes: usize, places: usize) -> Result<Option<u32>, AllocError> {
    let text = vec![in heap; byte; bytes]?;
    let mut table = vec![in heap; 9u32; places]?;
    let number = split(&text, &mut table)
        .err()
        .map(|refusal| refusal.number());
    Ok(number.or_else(|| text_refused(&text, &table)))
}

/// Whether line n of as many newlines starts at byte n, and the place behind the last keeps what it had.
fn starts_at(heap: Global, lines: usize, n: usize, want: u32) -> Result<bool, AllocError> {
    let text = vec![in heap; b'\n'; lines]?;
    let mut table = vec![in heap; 9u32; 4097]?;
    let split = split(&text, &mut table).is_ok();
    Ok(split && table.get(n) == Some(&want))
}

#[test]
fn lines_4096_and_4097(rt: HostRuntime) -> Result<(), Fail> {
    assert!(rt; refused(rt.alloc(), b'\n', 4096, 4096)? == None);
    assert!(rt; refused(rt.alloc(), b'\n', 4097, 4097)? == Some(2));
    assert!(rt; refused(rt.alloc(), b'\n', 4096, 4095)? == Some(3));
    Ok(())
}

#[test]
fn starts_of_4096_lines(rt: HostRuntime) -> Result<(), Fail> {
    assert!(rt; starts_at(rt.alloc(), 4096, 4095, 4095)?);
    assert!(rt; starts_at(rt.alloc(), 4096, 4096, 9)?);
    assert!(rt; !starts_at(rt.alloc(), 4097, 4096, 9)?);
    Ok(())
}

#[test]
fn bytes_60000_and_60001(rt: HostRuntime) -> Result<(), Fail> {
    assert!(rt; refused(rt.alloc(), b'x', 60000, 1)? == None);
    assert!(rt; refused(rt.alloc(), b'x', 60001, 1)? == Some(1));
    Ok(())
}

#[test]
fn the_first_question_that_fails(rt: HostRuntime) -> Result<(), Fail> {
    assert!(rt; refused(rt.alloc(), b'\n', 60001, 0)? == Some(1));
    assert!(rt; refused(rt.alloc(), b'\n', 60000, 0)? == Some(2));
    assert!(rt; refused(rt.alloc(), b'x', 60000, 0)? == Some(3));
    assert!(rt; text_refused(b"a\nb", &[7]) == Some(3));
    Ok(())
}
