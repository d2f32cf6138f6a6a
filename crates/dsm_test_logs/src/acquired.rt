//! Grants, openings and records.

use dsm_acqlog::AcquireLog;
use dsm_base::{Bar, Lock, MemFault, Mode, Proc, Record, Records};
use sqlite_items::Items;
use std::alloc::Global;
use std::test::Fail;

/// Records of lock 0 with these turns.
fn records(alloc: Global, turns: &[u32]) -> Result<Records, MemFault> {
    let mut made = Items::new(alloc);
    for turn in turns {
        made.push(Record {
            turn: *turn,
            lock: Lock(0),
            version: 0,
        })?;
    }
    Ok(made)
}

/// The turns of these records.
fn turns(alloc: Global, records: &Records) -> Result<Vec<u32>, MemFault> {
    let mut turns = Vec::new(alloc);
    for taken in records.as_slice() {
        turns.push(taken.turn)?;
    }
    Ok(turns)
}

/// Records that come, the turn up to which they are pruned, records that come then, and those that
/// are kept, each by turn.
struct Row {
    first: &'static [u32],
    upto: u32,
    then: &'static [u32],
    kept: &'static [u32],
}

const KEPT: &[Row] = &[
    Row {
        first: &[2, 5],
        upto: 0,
        then: &[2, 5, 9],
        kept: &[2, 5, 9],
    },
    Row {
        first: &[2, 5],
        upto: 0,
        then: &[4],
        kept: &[2, 5],
    },
    Row {
        first: &[],
        upto: 0,
        then: &[5, 3, 7, 7],
        kept: &[5, 7],
    },
    Row {
        first: &[2, 5, 9],
        upto: 5,
        then: &[5],
        kept: &[9],
    },
    Row {
        first: &[2, 5],
        upto: 5,
        then: &[2],
        kept: &[2],
    },
];

#[test]
fn a_record_is_kept_once(rt: HostRuntime) -> Result<(), Fail> {
    for row in KEPT {
        let mut log = AcquireLog::new(rt.alloc());
        log.keep(Proc(2), &records(rt.alloc(), &[3])?)?;
        log.keep(Proc(1), &records(rt.alloc(), row.first)?)?;
        log.prune(Proc(1), row.upto);
        log.keep(Proc(1), &records(rt.alloc(), row.then)?)?;
        let kept = turns(rt.alloc(), &log.of(Proc(1))?.records)?;
        assert_eq!(rt; kept.as_slice(), row.kept);
        assert_eq!(rt; log.of(Proc(2))?.records.len(), 1);
    }
    Ok(())
}

/// A log of grants of turns 4 and 7 and an opening of turn 6 to processor 1, a grant of turn 3 to
/// processor 2, and a record of turn 2 of processor 1.
fn sent_to_two(alloc: Global) -> Result<AcquireLog, MemFault> {
    let mut log = AcquireLog::new(alloc);
    log.grant(Proc(1), 4, Lock(0), Mode::Excl, 2)?;
    log.grant(Proc(2), 3, Lock(0), Mode::Shared, 3)?;
    log.opening(Proc(1), 6, Bar(0), 1)?;
    log.grant(Proc(1), 7, Lock(2), Mode::Shared, 5)?;
    log.keep(Proc(1), &records(alloc, &[2])?)?;
    Ok(log)
}

#[test]
fn what_was_sent_to_one_is_pruned(rt: HostRuntime) -> Result<(), Fail> {
    const TABLE: &[(u32, usize, usize, usize)] = &[
        (1, 2, 1, 1),
        (2, 2, 1, 0),
        (4, 1, 1, 0),
        (6, 1, 0, 0),
        (7, 0, 0, 0),
    ];
    for (upto, grants, openings, records) in TABLE {
        let mut log = sent_to_two(rt.alloc())?;
        log.prune(Proc(1), *upto);
        let left = log.of(Proc(1))?;
        assert_eq!(rt; left.grants.len(), *grants);
        assert_eq!(rt; left.openings.len(), *openings);
        assert_eq!(rt; left.records.len(), *records);
        assert_eq!(rt; log.of(Proc(2))?.grants.len(), 1);
    }
    Ok(())
}

#[test]
fn what_was_sent_is_forgotten_and_records_stay(rt: HostRuntime) -> Result<(), Fail> {
    let mut log = sent_to_two(rt.alloc())?;
    let logged = log.of(Proc(1))?;
    assert_eq!(rt; logged.grants.len(), 2);
    assert_eq!(rt; logged.grants.get(0).map(|sent| sent.version), Some(2));
    assert_eq!(rt; logged.openings.get(0).map(|sent| sent.epoch), Some(1));
    log.forget_sent();
    let left = log.of(Proc(1))?;
    assert_eq!(rt; left.grants.len(), 0);
    assert_eq!(rt; left.openings.len(), 0);
    assert_eq!(rt; left.records.len(), 1);
    assert_eq!(rt; log.of(Proc(2))?.grants.len(), 0);
    Ok(())
}
