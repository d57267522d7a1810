//! A side holds 256 hunks.
use crate::make::{enter_many, hunk};
use hunks::table::HunkTable;
use rules::hunk::Side;
use rules::refusal::TableRefusal;

#[test]
fn a_side_takes_256(rt: HostRuntime) {
    let mut t = HunkTable::new();
    assert_eq!(rt; t.open(4096, 0, 0), Ok(()));
    assert_eq!(rt; enter_many(&mut t, Side::Current, 256), Some(256));
    assert_eq!(rt; t.count(Side::Current), 256);
    assert_eq!(rt;
        t.enter(hunk(Side::Current, 512, 513, 0, 0)),
        Err(TableRefusal::SideFull)
    );
    assert_eq!(rt; t.count(Side::Current), 256);
    assert_eq!(rt;
        t.held(Side::Current, 255),
        Some(hunk(Side::Current, 510, 511, 0, 0))
    );
    assert_eq!(rt; t.held(Side::Current, 256), None);
}

#[test]
fn each_side_has_its_own_places(rt: HostRuntime) {
    let mut t = HunkTable::new();
    assert_eq!(rt; t.open(4096, 0, 0), Ok(()));
    assert_eq!(rt; enter_many(&mut t, Side::Other, 257), Some(256));
    assert_eq!(rt; t.enter(hunk(Side::Current, 0, 1, 0, 0)), Ok(1));
    assert_eq!(rt; t.withdraw(Side::Other), Ok(255));
    assert_eq!(rt; t.enter(hunk(Side::Other, 4095, 4096, 0, 0)), Ok(256));
}
