//! The order of a side's hunks, and what enter, withdraw and open leave.
use crate::make::hunk;
use hunks::table::HunkTable;
use rules::hunk::Side;
use rules::refusal::TableRefusal;

#[test]
fn a_gap_in_the_ancestor(rt: HostRuntime) {
    let mut t = HunkTable::new();
    assert_eq!(rt; t.open(2, 3, 3), Ok(()));
    assert_eq!(rt; t.enter(hunk(Side::Current, 0, 1, 0, 1)), Ok(1));
    assert_eq!(rt;
        t.enter(hunk(Side::Current, 1, 1, 1, 2)),
        Err(TableRefusal::NotBehindLast)
    );
    assert_eq!(rt; t.enter(hunk(Side::Current, 2, 2, 2, 3)), Ok(2));
    assert_eq!(rt;
        t.held(Side::Current, 0),
        Some(hunk(Side::Current, 0, 1, 0, 1))
    );
    assert_eq!(rt;
        t.held(Side::Current, 1),
        Some(hunk(Side::Current, 2, 2, 2, 3))
    );
    assert_eq!(rt; t.held(Side::Current, 2), None);
}

#[test]
fn a_place_is_used_again(rt: HostRuntime) {
    let mut t = HunkTable::new();
    assert_eq!(rt; t.open(9, 9, 9), Ok(()));
    assert_eq!(rt; t.enter(hunk(Side::Other, 0, 1, 0, 1)), Ok(1));
    assert_eq!(rt; t.enter(hunk(Side::Other, 4, 6, 4, 6)), Ok(2));
    assert_eq!(rt; t.withdraw(Side::Other), Ok(1));
    assert_eq!(rt; t.held(Side::Other, 1), None);
    assert_eq!(rt; t.enter(hunk(Side::Other, 2, 3, 2, 2)), Ok(2));
    assert_eq!(rt; t.held(Side::Other, 0), Some(hunk(Side::Other, 0, 1, 0, 1)));
    assert_eq!(rt; t.held(Side::Other, 1), Some(hunk(Side::Other, 2, 3, 2, 2)));
    assert_eq!(rt; t.held(Side::Current, 0), None);
    assert_eq!(rt; t.held(Side::Ancestor, 0), None);
}

#[test]
fn open_empties_the_table(rt: HostRuntime) {
    let mut t = HunkTable::new();
    assert_eq!(rt; t.open(4, 5, 6), Ok(()));
    assert_eq!(rt; t.enter(hunk(Side::Current, 3, 4, 4, 5)), Ok(1));
    assert_eq!(rt; t.enter(hunk(Side::Other, 3, 4, 5, 6)), Ok(1));
    assert_eq!(rt; t.open(1, 2, 3), Ok(()));
    assert_eq!(rt; t.count(Side::Current), 0);
    assert_eq!(rt; t.count(Side::Other), 0);
    assert_eq!(rt; t.lines(Side::Ancestor), 1);
    assert_eq!(rt; t.lines(Side::Current), 2);
    assert_eq!(rt; t.lines(Side::Other), 3);
}
