//! Lists of hunks in a fixed number of places.
use crate::make::hunk;
use hunks::list::{Full, HunkList};
use rules::hunk::{Hunk, Side};

// The hunk of line n.
fn line(n: u32) -> Hunk {
    hunk(Side::Current, n, n, n, n)
}

#[test]
fn a_full_list(rt: HostRuntime) {
    let mut list: HunkList<3> = HunkList::new();
    assert_eq!(rt; list.last(), None);
    assert_eq!(rt; list.push(line(1)), Ok(()));
    assert_eq!(rt; list.push_all(&[line(2), line(3), line(4)]), Err(Full));
    assert_eq!(rt; list.len(), 1);
    assert_eq!(rt; list.push_all(&[line(2), line(3)]), Ok(()));
    assert_eq!(rt; list.push(line(4)), Err(Full));
    assert_eq!(rt; list.len(), 3);
    assert_eq!(rt; list.pop(), Some(line(3)));
    assert_eq!(rt; list.last(), Some(line(2)));
}

#[test]
fn the_front_leaves(rt: HostRuntime) {
    let mut list: HunkList<4> = HunkList::new();
    assert_eq!(rt;
        list.push_all(&[line(1), line(2), line(3), line(4)]),
        Ok(())
    );
    list.remove_front(1);
    assert_eq!(rt; list.get(0), Some(line(2)));
    assert_eq!(rt; list.get(2), Some(line(4)));
    assert_eq!(rt; list.get(3), None);
    list.truncate(2);
    assert_eq!(rt; list.last(), Some(line(3)));
    list.remove_front(9);
    assert_eq!(rt; list.len(), 0);
}

#[test]
fn one_is_lent(rt: HostRuntime) {
    let mut list: HunkList<4> = HunkList::new();
    assert_eq!(rt; list.push_all(&[line(1), line(2), line(3)]), Ok(()));
    if let Some(hunk) = list.lend(1) {
        hunk.after.end = 9;
    }
    assert!(rt; list.lend(3).is_none());
    assert_eq!(rt; list.get(0), Some(line(1)));
    assert_eq!(rt; list.get(1), Some(hunk(Side::Current, 2, 2, 2, 9)));
    assert_eq!(rt; list.get(2), Some(line(3)));
}
