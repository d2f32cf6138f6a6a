//! Versions and arrivals.

use dsm_base::{Bar, Lock, MemFault};
use dsm_lines::{Line, LineList, LineValues};
use dsm_verlog::VersionLog;
use std::alloc::Global;
use std::test::Fail;

/// What is left of versions 1 to 130 once they are pruned up to one: how many, in how many segments;
/// and of those over another version the first and how many they are.
struct Row {
    upto: u32,
    kept: usize,
    segments: usize,
    have: u32,
    first: usize,
    found: usize,
}

const PRUNES: &[Row] = &[
    Row {
        upto: 0,
        kept: 130,
        segments: 3,
        have: 129,
        first: 130,
        found: 1,
    },
    Row {
        upto: 63,
        kept: 67,
        segments: 3,
        have: 0,
        first: 64,
        found: 67,
    },
    Row {
        upto: 64,
        kept: 66,
        segments: 2,
        have: 64,
        first: 65,
        found: 66,
    },
    Row {
        upto: 70,
        kept: 60,
        segments: 2,
        have: 0,
        first: 71,
        found: 60,
    },
    Row {
        upto: 70,
        kept: 60,
        segments: 2,
        have: 100,
        first: 101,
        found: 30,
    },
    Row {
        upto: 130,
        kept: 0,
        segments: 0,
        have: 0,
        first: 0,
        found: 0,
    },
];

/// The log of lock 0 with versions 1 to 130.
fn pushed_130(alloc: Global) -> Result<VersionLog, MemFault> {
    let mut log = VersionLog::new(alloc);
    for version in 1..131u32 {
        log.push(Lock(0), version, LineList::new(alloc))?;
    }
    Ok(log)
}

#[test]
fn versions_that_are_not_pruned_are_there(rt: HostRuntime) -> Result<(), Fail> {
    for row in PRUNES {
        let mut log = pushed_130(rt.alloc())?;
        log.prune(Lock(0), row.upto);
        assert_eq!(rt; log.kept(Lock(0)), row.kept);
        assert_eq!(rt; log.segments(Lock(0)), row.segments);
        let found = log.since(Lock(0), row.have)?;
        assert_eq!(rt; found.len(), row.found);
        for (place, made) in found.as_slice().iter().enumerate() {
            assert_eq!(rt; made.version as usize, row.first.saturating_add(place));
        }
    }
    Ok(())
}

/// One line of one value.
fn one_line(alloc: Global, number: u32, value: i64) -> Result<LineList, MemFault> {
    let mut lines = LineList::new(alloc);
    lines.push(Line {
        number,
        values: LineValues::from_slice(&[value]),
    })?;
    Ok(lines)
}

#[test]
fn each_lock_has_its_own_versions(rt: HostRuntime) -> Result<(), Fail> {
    let mut log = VersionLog::new(rt.alloc());
    log.push(Lock(3), 1, one_line(rt.alloc(), 5, 7)?)?;
    log.push(Lock(1), 1, LineList::new(rt.alloc()))?;
    log.push(Lock(3), 2, LineList::new(rt.alloc()))?;
    log.prune(Lock(1), 1);
    assert_eq!(rt; log.kept(Lock(1)), 0);
    assert_eq!(rt; log.kept(Lock(9)), 0);
    let made = log.since(Lock(3), 0)?;
    assert_eq!(rt; made.len(), 2);
    assert_eq!(rt; made.get(0).map(|first| first.lines.len()), Some(1));
    if let Some(first) = made.get(0) {
        for line in first.lines.as_slice() {
            assert_eq!(rt; line.number, 5);
            assert_eq!(rt; line.values.as_slice(), [7].as_slice());
        }
    }
    Ok(())
}

#[test]
fn arrivals_of_epochs_that_are_pruned_are_gone(rt: HostRuntime) -> Result<(), Fail> {
    const TABLE: &[(u32, u32, Option<usize>)] = &[
        (0, 0, Some(1)),
        (0, 2, Some(1)),
        (0, 3, None),
        (2, 1, None),
        (2, 2, Some(1)),
        (3, 2, None),
    ];
    for (below, epoch, lines) in TABLE {
        let mut log = VersionLog::new(rt.alloc());
        for made in 0..3u32 {
            log.push_arrival(Bar(0), made, one_line(rt.alloc(), made, 1)?)?;
        }
        log.prune_arrivals(Bar(0), *below);
        log.prune_arrivals(Bar(1), 3);
        let found = log.arrivals(Bar(0), *epoch);
        assert_eq!(rt; found.map(|lines| lines.len()), *lines);
        assert_eq!(rt; log.arrivals(Bar(1), *epoch).is_none(), true);
    }
    Ok(())
}
