use crate::log::Log;
use crate::print::{print, row_of};
use sink::page::Page;
use sink::piece::{Kind, Piece};
use sink::refusal::{NoRoom, TooLong, Unwritten};
use sink::row::Row;
use sink::run::{take_all, write_all};
use sink::sink::Sink;
use sink::tally::Tally;

#[test]
fn capacity_zero(rt: HostRuntime) {
    let mut buffer = [0u8; 0];
    let mut page = Page::new(&mut buffer);
    assert_eq!(rt; page.take(Piece::Ours(b"")), Ok(()));
    assert_eq!(rt; page.take(Piece::Ours(b"a")), Err(NoRoom { room: 0 }));
    assert_eq!(rt; page.begin(1), Err(TooLong { capacity: 0 }));
    assert_eq!(rt; page.begin(0), Ok(()));
}

#[test]
fn exactly_full_and_one_over(rt: HostRuntime) {
    let mut buffer = [b'.'; 6];
    let mut page = Page::new(&mut buffer);
    assert_eq!(rt; page.begin(7), Err(TooLong { capacity: 6 }));
    assert_eq!(rt; page.begin(4), Ok(()));
    assert_eq!(rt; page.take(Piece::Common(b"abc")), Ok(()));
    assert_eq!(rt; page.take(Piece::Ours(b"de")), Err(NoRoom { room: 1 }));
    assert!(rt; page.bytes() == b"abc".as_slice());
    assert_eq!(rt; page.take(Piece::Theirs(b"f")), Ok(()));
    assert_eq!(rt; page.take(Piece::Marker(b"")), Ok(()));
    assert_eq!(rt; page.take(Piece::Ending(b"\n")), Err(NoRoom { room: 0 }));
    assert!(rt; page.bytes() == b"abcf".as_slice());
}

#[test]
fn begin_starts_afresh(rt: HostRuntime) {
    let mut buffer = [b'.'; 6];
    let mut page = Page::new(&mut buffer);
    assert_eq!(rt; page.take(Piece::Common(b"a")), Err(NoRoom { room: 0 }));
    assert_eq!(rt; page.begin(6), Ok(()));
    assert_eq!(rt; page.take(Piece::Common(b"abcdef")), Ok(()));
    assert_eq!(rt; page.begin(2), Ok(()));
    assert!(rt; page.bytes().is_empty());
    assert_eq!(rt; page.take(Piece::Common(b"xy")), Ok(()));
    assert!(rt; page.bytes() == b"xy".as_slice());
}

#[test]
fn bytes_behind_stay(rt: HostRuntime) {
    let mut buffer = [b'.'; 8];
    assert_eq!(rt;
        print(
            &mut buffer,
            &[Piece::Ours(b"ab"), Piece::Base(b""), Piece::Ending(b"\n")],
        ),
        Ok(())
    );
    assert!(rt; buffer == *b"ab\n.....");
    assert_eq!(rt;
        print(
            &mut buffer,
            &[Piece::Ours(b"12345"), Piece::Theirs(b"6789")],
        ),
        Err(Unwritten::TooLong {
            needed: 9,
            capacity: 8,
        })
    );
    assert!(rt; buffer == *b"ab\n.....");
}

// Whether row `n` of the pieces is `expected`.
fn row_is(n: u32, pieces: &[Piece<'_>], expected: &[u8]) -> bool {
    row_of(n, pieces).is_ok_and(|row| row.shown() == expected)
}

#[test]
fn rows_across_pieces(rt: HostRuntime) {
    let pieces = [
        Piece::Common(b"ab"),
        Piece::Ours(b"c\nde"),
        Piece::Base(b""),
        Piece::Theirs(b"f\n\n"),
        Piece::Marker(b"g"),
    ];
    assert!(rt; row_is(0, &pieces, b"abc"));
    assert!(rt; row_is(1, &pieces, b"def"));
    assert!(rt; row_is(2, &pieces, b""));
    assert!(rt; row_is(3, &pieces, b"g"));
    assert!(rt; row_is(4, &pieces, b""), "past the end");
    assert!(rt; row_is(4294967295, &pieces, b""), "far past the end");
}

#[test]
fn a_line_of_41_bytes(rt: HostRuntime) {
    let line = b"0123456789012345678901234567890123456789X\nnext\n";
    assert!(rt;
        row_is(
            0,
            &[Piece::Common(line)],
            b"0123456789012345678901234567890123456789",
        )
    );
    assert!(rt; row_is(1, &[Piece::Common(line)], b"next"));
}

#[test]
fn carriage_returns_in_a_row(rt: HostRuntime) {
    let pieces = [Piece::Common(b"a\rb\r"), Piece::Common(b"\n\rc\n")];
    assert!(rt; row_is(0, &pieces, b"a\rb\r"));
    assert!(rt; row_is(1, &pieces, b"\rc"));
}

#[test]
fn row_capacity(rt: HostRuntime) {
    let mut row = Row::new(1);
    assert_eq!(rt; row.take(Piece::Common(b"a")), Err(NoRoom { room: 0 }));
    assert_eq!(rt;
        row.begin(4294967296),
        Err(TooLong {
            capacity: 4294967295,
        })
    );
    assert_eq!(rt; row.begin(4294967295), Ok(()));
    assert_eq!(rt; row.take(Piece::Common(b"a\nb")), Ok(()));
    assert!(rt; row.shown() == b"b".as_slice());
    assert_eq!(rt; row.begin(3), Ok(()));
    assert!(rt; row.shown().is_empty());
    assert_eq!(rt; row.take(Piece::Common(b"\nxy")), Ok(()));
    assert!(rt; row.shown() == b"xy".as_slice());
}

#[test]
fn a_tally_counts(rt: HostRuntime) {
    let mut tally = Tally::new();
    assert_eq!(rt; tally.take(Piece::Common(b"a")), Err(NoRoom { room: 0 }));
    assert_eq!(rt; tally.begin(usize::MAX), Ok(()));
    assert_eq!(rt;
        take_all(
            &mut tally,
            &[
                Piece::Common(b"abc"),
                Piece::Ours(b""),
                Piece::Marker(b"de"),
            ],
        ),
        3
    );
    assert_eq!(rt; tally.count(), 5);
}

#[test]
fn the_first_refused_ends_a_run(rt: HostRuntime) {
    let mut buffer = [b'.'; 8];
    let mut page = Page::new(&mut buffer);
    assert_eq!(rt; page.begin(4), Ok(()));
    assert_eq!(rt;
        take_all(
            &mut page,
            &[
                Piece::Common(b"abc"),
                Piece::Common(b"de"),
                Piece::Common(b"f"),
            ],
        ),
        1
    );
    assert!(rt; page.bytes() == b"abc".as_slice());
}

// Whether piece `n` of the log has this kind and these bytes.
fn logged(log: &Log, n: usize, kind: Kind, bytes: &[u8]) -> bool {
    log.piece(n)
        .is_some_and(|piece| piece.kind() == kind && piece.bytes() == bytes)
}

#[test]
fn every_piece_in_order(rt: HostRuntime) {
    let mut log = Log::new();
    let pieces = [
        Piece::Common(b"a\n"),
        Piece::Marker(b"<<<"),
        Piece::Marker(b""),
        Piece::Ours(b"o"),
        Piece::Ending(b"\r\n"),
        Piece::Base(b"b\n"),
        Piece::Theirs(b"t\n"),
    ];
    assert_eq!(rt; write_all(&mut log, &pieces), Ok(()));
    assert!(rt; !log.lost());
    assert!(rt; logged(&log, 0, Kind::Common, b"a\n"));
    assert!(rt; logged(&log, 1, Kind::Marker, b"<<<"));
    assert!(rt; logged(&log, 2, Kind::Marker, b""));
    assert!(rt; logged(&log, 3, Kind::Ours, b"o"));
    assert!(rt; logged(&log, 4, Kind::Ending, b"\r\n"));
    assert!(rt; logged(&log, 5, Kind::Base, b"b\n"));
    assert!(rt; logged(&log, 6, Kind::Theirs, b"t\n"));
    assert!(rt; log.piece(7).is_none());
}

#[test]
fn a_full_log_says_so(rt: HostRuntime) {
    let mut log = Log::new();
    assert_eq!(rt; write_all(&mut log, &[Piece::Base(b""); 16]), Ok(()));
    assert!(rt; !log.lost());
    assert_eq!(rt; write_all(&mut log, &[Piece::Base(b""); 17]), Ok(()));
    assert!(rt; log.lost());
    assert!(rt; log.piece(15).is_some() && log.piece(16).is_none());
}
