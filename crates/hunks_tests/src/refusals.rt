//! Every refusal with its number, layer and place, and that it leaves the table as it was.
use crate::make::{enter_many, hunk};
use hunks::table::HunkTable;
use rules::hunk::{Hunk, Side};
use rules::refusal::{Layer, Refusal, TableRefusal};
use std::process::Abort;

// Counts 10, 8 and 6; current holds 2..3/2..4, other holds 0..0/0..1.
fn table() -> HunkTable {
    let mut t = HunkTable::new();
    let _ = t.open(10, 8, 6);
    let _ = t.enter(hunk(Side::Current, 2, 3, 2, 4));
    let _ = t.enter(hunk(Side::Other, 0, 0, 0, 1));
    t
}

// The table holds what it held, and its counts are the same.
fn untouched(rt: &impl Abort, t: &HunkTable) {
    assert_eq!(rt; t.lines(Side::Ancestor), 10);
    assert_eq!(rt; t.lines(Side::Current), 8);
    assert_eq!(rt; t.lines(Side::Other), 6);
    assert_eq!(rt; t.count(Side::Current), 1);
    assert_eq!(rt; t.count(Side::Other), 1);
    assert_eq!(rt;
        t.held(Side::Current, 0),
        Some(hunk(Side::Current, 2, 3, 2, 4))
    );
    assert_eq!(rt; t.held(Side::Other, 0), Some(hunk(Side::Other, 0, 0, 0, 1)));
}

// The answer is this refusal of the table, at this place.
fn tells<T: Drop>(rt: &impl Abort, answer: Result<T, TableRefusal>, n: u32, p: u32) {
    let told = answer.err().map(|refusal| (refusal.number(), refusal.layer(), refusal.place()));
    assert_eq!(rt; told, Some((n, Layer::Table, p)));
}

// Stays: refused_open and refused make different calls, and have one line of it each.
fn refused_open(rt: &impl Abort, ancestor: u32, current: u32, other: u32, p: u32) {
    let mut t = table();
    tells(rt, t.open(ancestor, current, other), 7, p);
    untouched(rt, &t);
}

fn refused(rt: &impl Abort, hunk: Hunk, n: u32, p: u32) {
    let mut t = table();
    tells(rt, t.enter(hunk), n, p);
    untouched(rt, &t);
}

#[test]
fn seven(rt: HostRuntime) {
    refused_open(&rt, 4097, 0, 0, 0);
    refused_open(&rt, 4096, 4097, 4097, 1);
    refused_open(&rt, 4096, 4096, 4097, 2);
    refused_open(&rt, u32::MAX, u32::MAX, u32::MAX, 0);
    let mut t = table();
    assert!(rt; t.open(4096, 4096, 4096).is_ok());
}

#[test]
fn eight(rt: HostRuntime) {
    refused(&rt, hunk(Side::Ancestor, 0, 1, 0, 1), 8, 0);
    refused(&rt, hunk(Side::Ancestor, 9, 1, 9, 1), 8, 0);
    let mut t = table();
    tells(&rt, t.withdraw(Side::Ancestor), 8, 0);
    untouched(&rt, &t);
}

#[test]
fn ten(rt: HostRuntime) {
    refused(&rt, hunk(Side::Current, 6, 5, 6, 5), 10, 0);
    refused(&rt, hunk(Side::Current, 5, 11, 5, 5), 10, 0);
    refused(&rt, hunk(Side::Current, 5, 6, 6, 5), 10, 1);
    refused(&rt, hunk(Side::Current, 5, 6, 5, 9), 10, 1);
    refused(&rt, hunk(Side::Other, 5, 6, 5, 7), 10, 1);
    refused(&rt, hunk(Side::Current, u32::MAX, u32::MAX, 0, 0), 10, 0);
    refused(&rt, hunk(Side::Current, 0, u32::MAX, 0, 0), 10, 0);
    refused(&rt, hunk(Side::Other, 5, 5, u32::MAX, u32::MAX), 10, 1);
    refused(&rt, hunk(Side::Other, 5, 5, u32::MAX, 0), 10, 1);
}

#[test]
fn eleven(rt: HostRuntime) {
    refused(&rt, hunk(Side::Current, 5, 5, 5, 5), 11, 0);
    refused(&rt, hunk(Side::Other, 0, 0, 0, 0), 11, 0);
}

#[test]
fn twelve(rt: HostRuntime) {
    refused(&rt, hunk(Side::Current, 0, 1, 0, 1), 12, 0);
    refused(&rt, hunk(Side::Current, 3, 4, 4, 5), 12, 0);
    refused(&rt, hunk(Side::Current, 4, 5, 3, 5), 12, 0);
    let mut t = table();
    assert!(rt; t.enter(hunk(Side::Current, 4, 5, 4, 5)).is_ok());
}

#[test]
fn nine_and_thirteen(rt: HostRuntime) {
    let mut t = HunkTable::new();
    tells(&rt, t.withdraw(Side::Current), 13, 0);
    assert!(rt; t.open(4096, 1, 1).is_ok());
    assert_eq!(rt; enter_many(&mut t, Side::Current, 256), Some(256));
    tells(&rt, t.enter(hunk(Side::Current, 512, 513, 0, 1)), 9, 0);
    tells(&rt, t.enter(hunk(Side::Current, 9, 1, 0, 1)), 9, 0);
    tells(&rt, t.withdraw(Side::Other), 13, 0);
}
