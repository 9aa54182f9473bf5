//! The commands: how they end over devices and stores that fail. Whole inputs stand in examples/.
use crate::desk::{published_desk, released_desk};
use crate::devices::{failing_reader, failing_writer};
use crate::opening::PEOPLE;
use hall_desk::Desk;
use hall_grid::Counted;
use hall_store::{MapStore, ReadStore, Store};
use hall_tool::{ToolFault, init_run, judge_run, seed_run, table_run};
use std::alloc::Global;
use std::io::{ErrorKind, Read, Write};
use test_harness::LimitedStore;

#[test]
fn a_counted_device_is_asked(rt: HostRuntime) {
    let mut reader = failing_reader(b"ab", 2, ErrorKind::Other);
    let mut given = [0u8; 2];
    let bytes = [
        reader.read(&mut given).ok(),
        reader.read(&mut given[1..]).ok(),
        reader.read(&mut given).ok(),
    ];
    assert!(rt; bytes == [Some(1), Some(1), None]);
    assert!(rt; given == *b"ab");
    assert!(rt; reader.failures() == 1);
    assert!(rt; reader.into_inner().asked == 3);
    let mut writer = failing_writer(1, true);
    let bytes = [writer.write(b"ab").ok(), writer.write(b"b").ok()];
    assert!(rt; bytes == [Some(1), Some(0)]);
    assert!(rt; writer.flush().is_ok());
    assert!(rt; writer.failures() == 1);
    let device = writer.into_inner();
    assert!(rt; device.asked == 2 && device.flushed == 1);
}

const RIGHT: &[u8] = b"sudoku/4/4/123434122143432g\n1234341221434321\n";

#[test]
fn a_command_ends_at_a_device_fault(rt: HostRuntime) {
    for fails_at in 0..RIGHT.len() + 1 {
        for error in [ErrorKind::Other, ErrorKind::Interrupted] {
            let mut reader = failing_reader(RIGHT, fails_at, error);
            let mut writer = Counted::new(Vec::new(rt.alloc()));
            let ended = judge_run(rt.alloc(), &mut reader, &mut writer);
            assert!(rt; ended == Err(ToolFault::Device));
            assert!(rt; reader.failures() == 1 && writer.into_inner().is_empty());
        }
    }
    for fails_at in 0..6 {
        for by_taking_none in [false, true] {
            let mut writer = failing_writer(fails_at, by_taking_none);
            let ended = judge_run(rt.alloc(), &mut Counted::new(RIGHT), &mut writer);
            assert!(rt; ended == Err(ToolFault::Device));
            assert!(rt; writer.failures() == 1 && writer.into_inner().asked == fails_at + 1);
        }
    }
}

const EVE_CHANGED: &[u8] = b"name,key,roles\neve,eve-key-2,entrant\n";

#[test]
fn a_list_is_imported_over_a_writer_that_fails(rt: HostRuntime) {
    for fails_at in 0..8 {
        let mut desk = Desk::new(MapStore::new(rt.alloc()));
        let mut writer = failing_writer(fails_at, fails_at % 2 == 0);
        let ended = init_run(rt.alloc(), &mut desk, PEOPLE, &mut writer);
        assert!(rt; ended == Err(ToolFault::Device));
        assert!(rt; writer.failures() == 1 && writer.into_inner().asked == fails_at + 1);
        // The people were imported before the line was written.
        let mut writer = Counted::new(Vec::new(rt.alloc()));
        assert!(rt; init_run(rt.alloc(), &mut desk, PEOPLE, &mut writer) == Ok(0));
        assert!(rt; writer.into_inner().as_slice() == b"added 0\n".as_slice());
        desk.into_store();
    }
}

/// Words that name no released round: a draft's id, one of none, and four that are no round's id.
const NO_ROUNDS: [&[u8]; 6] = [
    b"r2",
    b"r9",
    b"UP",
    b"",
    b"r\xff",
    b"a-name-of-more-than-24-bytes",
];

/// Forty points, and two for each of sixty minutes.
const TABLE: &[u8] = b"   1 eve                           160\n";

/// Writes a table, and what was written.
fn tabled<S: ReadStore>(
    alloc: Global,
    desk: &mut Desk<S>,
    round: &[u8],
) -> (Result<u8, ToolFault>, Vec<u8>) {
    let mut writer = Counted::new(Vec::new(alloc));
    let ended = table_run(alloc, desk, round, &mut writer);
    (ended, writer.into_inner())
}

#[test]
fn a_table_is_written_or_denied(rt: HostRuntime) {
    let mut desk = released_desk(&rt);
    for round in &NO_ROUNDS {
        let (ended, written) = tabled(rt.alloc(), &mut desk, round);
        assert!(rt; ended == Ok(2) && written.as_slice() == b"denied 4\n".as_slice());
    }
    let (ended, written) = tabled(rt.alloc(), &mut desk, b"r1");
    assert!(rt; ended == Ok(2) && written.as_slice() == b"denied 15\n".as_slice());
    desk.into_store();
    let mut desk = published_desk(&rt);
    for _ in 0..2 {
        let (ended, written) = tabled(rt.alloc(), &mut desk, b"r1");
        assert!(rt; ended == Ok(0) && written.as_slice() == TABLE);
    }
    for fails_at in 0..TABLE.len() {
        let mut writer = failing_writer(fails_at, fails_at % 2 == 0);
        let ended = table_run(rt.alloc(), &mut desk, b"r1", &mut writer);
        assert!(rt; ended == Err(ToolFault::Device));
        assert!(rt; writer.failures() == 1 && writer.into_inner().asked == fails_at + 1);
    }
    desk.into_store();
}

#[test]
fn a_table_over_a_store_that_fails(rt: HostRuntime) {
    let mut empty = MapStore::new(rt.alloc());
    let mut desk = Desk::new(LimitedStore {
        store: &mut empty,
        left: 0,
    });
    let (ended, written) = tabled(rt.alloc(), &mut desk, b"r1");
    assert!(rt; ended == Err(ToolFault::Store) && written.is_empty());
    // Bytes that are no round's id don't ask the store.
    let (ended, written) = tabled(rt.alloc(), &mut desk, b"UP");
    assert!(rt; ended == Ok(2) && written.as_slice() == b"denied 4\n".as_slice());
    desk.into_store();
}

/// Seeds the desk, and what was written.
fn seeded<S: Store>(
    alloc: Global,
    desk: &mut Desk<S>,
    list: &[u8],
) -> (Result<u8, ToolFault>, Vec<u8>) {
    let mut writer = Counted::new(Vec::new(alloc));
    let ended = seed_run(alloc, desk, list, &mut writer);
    (ended, writer.into_inner())
}

#[test]
fn a_list_is_seeded_over_a_writer_that_fails(rt: HostRuntime) {
    let lists: [(&[u8], &[u8]); 2] = [(EVE_CHANGED, b"denied 20\n"), (b"", b"refused F1\n")];
    for (list, line) in &lists {
        let mut desk = Desk::new(MapStore::new(rt.alloc()));
        // Nothing is written of this list, so the writer isn't asked.
        let mut unasked = failing_writer(0, false);
        let ended = seed_run(rt.alloc(), &mut desk, PEOPLE, &mut unasked);
        assert!(rt; ended == Ok(0) && unasked.into_inner().asked == 0);
        for fails_at in 0..line.len() {
            let mut writer = failing_writer(fails_at, fails_at % 2 == 0);
            let ended = seed_run(rt.alloc(), &mut desk, list, &mut writer);
            assert!(rt; ended == Err(ToolFault::Device));
            assert!(rt; writer.failures() == 1 && writer.into_inner().asked == fails_at + 1);
        }
        let (ended, written) = seeded(rt.alloc(), &mut desk, list);
        assert!(rt; ended == Ok(2) && written.as_slice() == *line);
        desk.into_store();
    }
}

#[test]
fn a_store_that_fails_is_told(rt: HostRuntime) {
    // Six times a name and a key, six times a name, and the import.
    for left in 0..19 {
        let mut empty = MapStore::new(rt.alloc());
        let mut desk = Desk::new(LimitedStore {
            store: &mut empty,
            left,
        });
        let (ended, written) = seeded(rt.alloc(), &mut desk, PEOPLE);
        desk.into_store();
        assert!(rt;
            ended == Err(ToolFault::Store) && written.is_empty(),
            "calls {left}"
        );
    }
    let mut empty = MapStore::new(rt.alloc());
    let mut desk = Desk::new(LimitedStore {
        store: &mut empty,
        left: 19,
    });
    let (ended, written) = seeded(rt.alloc(), &mut desk, PEOPLE);
    desk.into_store();
    assert!(rt; ended == Ok(0) && written.is_empty());
}
