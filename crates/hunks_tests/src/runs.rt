//! Runs of calls, accepted and refused.
use crate::make::hunk;
use hunks::run::{Call, run};
use hunks::table::HunkTable;
use rules::hunk::Side;

#[test]
fn a_run(rt: HostRuntime) {
    let calls = [
        Call::Enter(hunk(Side::Current, 0, 1, 0, 1)),
        Call::Open {
            ancestor: 2,
            current: 3,
            other: 3,
        },
        Call::Enter(hunk(Side::Current, 0, 1, 0, 1)),
        Call::Enter(hunk(Side::Current, 1, 1, 1, 2)),
        Call::Enter(hunk(Side::Other, 0, 0, 0, 1)),
        Call::Withdraw(Side::Ancestor),
        Call::Withdraw(Side::Other),
        Call::Withdraw(Side::Other),
        Call::Open {
            ancestor: 2,
            current: 3,
            other: 5000,
        },
        Call::Enter(hunk(Side::Current, 2, 2, 2, 3)),
    ];
    let mut t = HunkTable::new();
    run(&mut t, &calls);
    assert_eq!(rt; t.lines(Side::Other), 3);
    assert_eq!(rt; t.count(Side::Current), 2);
    assert_eq!(rt; t.count(Side::Other), 0);
    assert_eq!(rt;
        t.held(Side::Current, 0),
        Some(hunk(Side::Current, 0, 1, 0, 1))
    );
    assert_eq!(rt;
        t.held(Side::Current, 1),
        Some(hunk(Side::Current, 2, 2, 2, 3))
    );
}
