//! Reports that come, and what they answer.

use dsm_base::{Bar, Lock, LoggedGrant, LoggedOpening, MemFault, Mode, Proc, Record};
use dsm_lines::{Arrival, Line, LineList, LineValues, Version};
use dsm_msg::Report;
use dsm_replay::{Gather, Input, Replay, Waited};
use sqlite_items::Items;
use std::alloc::Global;
use std::test::Fail;

/// Lines of one value each, by number and value.
fn lines(alloc: Global, of: &[(u32, i64)]) -> Result<LineList, MemFault> {
    let mut list = LineList::new(alloc);
    for (number, value) in of {
        let values = LineValues::from_slice(&[*value]);
        list.push(Line {
            number: *number,
            values,
        })?;
    }
    Ok(list)
}

/// What a report has, in short: a grant and a record of a lock (turn, lock, version), an opening
/// (turn, barrier, epoch), versions of lock 0 with lines, and an arrival at barrier 0 that ends an
/// epoch, with a line.
#[derive(Clone, Copy)]
struct Short {
    grant: Option<(u32, u16, u32)>,
    record: Option<(u32, u16, u32)>,
    opening: Option<(u32, u8, u32)>,
    versions: &'static [(u32, &'static [(u32, i64)])],
    arrival: Option<(u32, (u32, i64))>,
}

const NOTHING: Short = Short {
    grant: None,
    record: None,
    opening: None,
    versions: &[],
    arrival: None,
};

fn report(alloc: Global, short: &Short) -> Result<Report, MemFault> {
    let mut report = Report {
        grants: Items::new(alloc),
        openings: Items::new(alloc),
        records: Items::new(alloc),
        versions: Items::new(alloc),
        arrivals: Items::new(alloc),
        locks: Items::new(alloc),
        bars: Items::new(alloc),
    };
    if let Some((turn, lock, version)) = short.grant {
        report.grants.push(LoggedGrant {
            turn,
            lock: Lock(lock),
            mode: Mode::Excl,
            version,
        })?;
    }
    if let Some((turn, lock, version)) = short.record {
        report.records.push(Record {
            turn,
            lock: Lock(lock),
            version,
        })?;
    }
    if let Some((turn, bar, epoch)) = short.opening {
        report.openings.push(LoggedOpening {
            turn,
            bar: Bar(bar),
            epoch,
        })?;
    }
    for (version, of) in short.versions {
        report.versions.push(Version {
            lock: Lock(0),
            version: *version,
            lines: lines(alloc, of)?,
        })?;
    }
    if let Some((epoch, line)) = short.arrival {
        report.arrivals.push(Arrival {
            bar: Bar(0),
            epoch,
            lines: lines(alloc, &[line])?,
        })?;
    }
    Ok(report)
}

/// The replay of processor 0 of three, from an image of turn 2, by the reports of the other two,
/// which have seen turns 6 and 4.
fn replay(alloc: Global, first: &Short, second: &Short, printed: u32) -> Result<Replay, MemFault> {
    let mut gather = Gather::new(alloc, Proc(0), 3);
    let _ = gather.report(Proc(1), 6, report(alloc, first)?)?;
    let all = gather.report(Proc(2), 4, report(alloc, second)?)?;
    if !all {
        return Err(MemFault);
    }
    Replay::new(gather, 2, printed)
}

/// From whom a report comes, how many turns its sender has seen, and whether all are in then.
#[derive(Clone, Copy)]
struct Coming {
    from: u8,
    seen: u32,
    all: bool,
}

#[test]
fn reports_of_all_others_are_waited_for(rt: HostRuntime) -> Result<(), Fail> {
    const COMINGS: &[Coming] = &[
        Coming {
            from: 2,
            seen: 4,
            all: false,
        },
        Coming {
            from: 0,
            seen: 9,
            all: false,
        },
        Coming {
            from: 2,
            seen: 8,
            all: false,
        },
        Coming {
            from: 1,
            seen: 1,
            all: true,
        },
    ];
    let mut gather = Gather::new(rt.alloc(), Proc(0), 3);
    for coming in COMINGS {
        let told = report(rt.alloc(), &NOTHING)?;
        let all = gather.report(Proc(coming.from), coming.seen, told)?;
        assert_eq!(rt; all, coming.all);
    }
    let all = gather.report(Proc(1), 7, report(rt.alloc(), &NOTHING)?)?;
    assert!(rt; all);
    if all {
        assert_eq!(rt; Replay::new(gather, 2, 3)?.bound(), 4);
    }
    Ok(())
}

#[test]
fn the_bound_is_the_greatest_turn(rt: HostRuntime) -> Result<(), Fail> {
    assert_eq!(rt; replay(rt.alloc(), &NOTHING, &NOTHING, 0)?.bound(), 6);
    assert_eq!(rt; replay(rt.alloc(), &NOTHING, &NOTHING, 7)?.bound(), 7);
    Ok(())
}

/// A turn, what is waited for in it, and what is answered.
#[derive(Clone, Copy)]
struct Answer {
    turn: u32,
    what: Waited,
    input: Option<Input>,
}

#[test]
fn a_turn_gets_what_was_reported_of_it(rt: HostRuntime) -> Result<(), Fail> {
    const ANSWERS: &[Answer] = &[
        Answer {
            turn: 5,
            what: Waited::Take(Lock(1), Mode::Excl),
            input: Some(Input::Take(Lock(1), 2)),
        },
        Answer {
            turn: 3,
            what: Waited::Take(Lock(0), Mode::Shared),
            input: Some(Input::Take(Lock(0), 0)),
        },
        Answer {
            turn: 5,
            what: Waited::Take(Lock(0), Mode::Excl),
            input: None,
        },
        Answer {
            turn: 4,
            what: Waited::Take(Lock(1), Mode::Excl),
            input: None,
        },
        Answer {
            turn: 9,
            what: Waited::Cross(Bar(1), 3),
            input: Some(Input::Cross(Bar(1), 3)),
        },
        Answer {
            turn: 8,
            what: Waited::Cross(Bar(1), 3),
            input: None,
        },
        Answer {
            turn: 7,
            what: Waited::Cross(Bar(0), 1),
            input: Some(Input::Cross(Bar(0), 1)),
        },
        Answer {
            turn: 7,
            what: Waited::Cross(Bar(0), 2),
            input: None,
        },
        Answer {
            turn: 7,
            what: Waited::Cross(Bar(0), 0),
            input: None,
        },
    ];
    let first = Short {
        grant: Some((5, 1, 2)),
        record: None,
        opening: Some((9, 1, 3)),
        versions: &[],
        arrival: Some((0, (1, 2))),
    };
    let second = Short {
        grant: None,
        record: Some((3, 0, 0)),
        opening: None,
        versions: &[],
        arrival: Some((0, (2, 3))),
    };
    let replay = replay(rt.alloc(), &first, &second, 0)?;
    for answer in ANSWERS {
        assert_eq!(rt; replay.input(answer.turn, answer.what), answer.input);
    }
    Ok(())
}

/// It has made versions 1 and 3.
const ONE_AND_THREE: Short = Short {
    versions: &[(1, &[(0, 1), (1, 2)]), (3, &[(0, 31)])],
    grant: None,
    record: None,
    opening: None,
    arrival: None,
};

/// It has made version 2.
const TWO: Short = Short {
    versions: &[(2, &[(0, 21), (4, 24)])],
    grant: None,
    record: None,
    opening: None,
    arrival: None,
};

/// The version that a take gets, the one that the copy has, and the lines that it brings.
#[derive(Clone, Copy)]
struct Brought {
    version: u32,
    have: u32,
    lines: &'static [(u32, i64)],
}

/// Lines as numbers with their first values.
fn shown(alloc: Global, lines: &LineList) -> Result<Vec<(u32, i64)>, MemFault> {
    let mut shown = Vec::new(alloc);
    for line in lines.as_slice() {
        for value in line.values.as_slice() {
            shown.push((line.number, *value))?;
        }
    }
    Ok(shown)
}

#[test]
fn a_take_brings_the_newest_of_each_line(rt: HostRuntime) -> Result<(), Fail> {
    const BROUGHT: &[Brought] = &[
        Brought {
            version: 3,
            have: 0,
            lines: &[(0, 31), (1, 2), (4, 24)],
        },
        Brought {
            version: 2,
            have: 0,
            lines: &[(0, 21), (1, 2), (4, 24)],
        },
        Brought {
            version: 2,
            have: 1,
            lines: &[(0, 21), (4, 24)],
        },
        Brought {
            version: 2,
            have: 2,
            lines: &[],
        },
    ];
    let replay = replay(rt.alloc(), &ONE_AND_THREE, &TWO, 0)?;
    for row in BROUGHT {
        let input = Input::Take(Lock(0), row.version);
        let lines = shown(rt.alloc(), &replay.lines(input, row.have)?)?;
        assert_eq!(rt; lines.as_slice(), row.lines);
    }
    Ok(())
}

#[test]
fn a_crossing_brings_the_lines_of_the_others(rt: HostRuntime) -> Result<(), Fail> {
    let first = Short {
        arrival: Some((0, (2, 3))),
        grant: None,
        record: None,
        opening: None,
        versions: &[],
    };
    let second = Short {
        arrival: Some((0, (1, 2))),
        grant: None,
        record: None,
        opening: None,
        versions: &[],
    };
    let replay = replay(rt.alloc(), &first, &second, 0)?;
    let lines = shown(rt.alloc(), &replay.lines(Input::Cross(Bar(0), 1), 0)?)?;
    assert_eq!(rt; lines.as_slice(), [(1, 2), (2, 3)].as_slice());
    assert!(rt; replay.lines(Input::Cross(Bar(0), 2), 0)?.is_empty());
    assert!(rt; replay.report(Proc(1)).is_some());
    assert!(rt; replay.report(Proc(0)).is_none());
    Ok(())
}
