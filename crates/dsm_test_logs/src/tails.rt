//! Last turns.

use dsm_acqlog::Tail;
use dsm_base::{Lock, MemFault, Pending, Records, Text};
use std::alloc::Global;
use std::test::Fail;

/// Takes and lines, what is known as held, and what follows: the lines out, the records and the lines
/// that are carried. Each by turn.
struct Row {
    takes: &'static [u32],
    lines: &'static [u32],
    known: u32,
    outs: &'static [u32],
    records: &'static [u32],
    carried: &'static [u32],
}

const TAILS: &[Row] = &[
    Row {
        takes: &[2],
        lines: &[6],
        known: 0,
        outs: &[],
        records: &[2],
        carried: &[6],
    },
    Row {
        takes: &[2],
        lines: &[6],
        known: 2,
        outs: &[6],
        records: &[],
        carried: &[],
    },
    Row {
        takes: &[3],
        lines: &[1, 3, 6],
        known: 2,
        outs: &[1, 3],
        records: &[3],
        carried: &[6],
    },
    Row {
        takes: &[2, 8],
        lines: &[6, 10],
        known: 7,
        outs: &[6],
        records: &[8],
        carried: &[10],
    },
    Row {
        takes: &[],
        lines: &[1, 4],
        known: 0,
        outs: &[1, 4],
        records: &[],
        carried: &[],
    },
];

fn turns_of_records(alloc: Global, records: &Records) -> Result<Vec<u32>, MemFault> {
    let mut turns = Vec::new(alloc);
    for taken in records.as_slice() {
        turns.push(taken.turn)?;
    }
    Ok(turns)
}

fn turns_of_lines(alloc: Global, lines: &Pending) -> Result<Vec<u32>, MemFault> {
    let mut turns = Vec::new(alloc);
    for line in lines.as_slice() {
        turns.push(line.turn)?;
    }
    Ok(turns)
}

/// A tail with these takes of lock 0 and these lines.
fn noted(alloc: Global, takes: &[u32], lines: &[u32]) -> Result<Tail, MemFault> {
    let mut tail = Tail::new(alloc);
    for turn in takes {
        tail.note_take(*turn, Lock(0), 0)?;
    }
    for turn in lines {
        tail.note_line(*turn, Text::from_slice(alloc, b"x=1")?)?;
    }
    Ok(tail)
}

#[test]
fn a_line_waits_for_each_record_below_it(rt: HostRuntime) -> Result<(), Fail> {
    for row in TAILS {
        let mut tail = noted(rt.alloc(), row.takes, row.lines)?;
        let outs = turns_of_lines(rt.alloc(), &tail.learn(row.known)?)?;
        assert_eq!(rt; outs.as_slice(), row.outs);
        let (records, lines) = tail.carried()?;
        assert_eq!(rt;
            turns_of_records(rt.alloc(), &records)?.as_slice(),
            row.records
        );
        assert_eq!(rt; turns_of_lines(rt.alloc(), &lines)?.as_slice(), row.carried);
        assert_eq!(rt; tail.all_held(), row.records.is_empty());
        assert_eq!(rt; tail.held(), row.known);
        assert_eq!(rt; tail.learn(0)?.len(), 0);
    }
    Ok(())
}

#[test]
fn a_take_that_is_known_as_held_is_not_carried(rt: HostRuntime) -> Result<(), Fail> {
    let mut tail = Tail::new(rt.alloc());
    assert_eq!(rt; tail.learn(7)?.len(), 0);
    tail.note_take(7, Lock(0), 1)?;
    assert_eq!(rt; tail.all_held(), true);
    assert_eq!(rt; tail.learn(2)?.len(), 0);
    assert_eq!(rt; tail.held(), 7);
    tail.note_take(8, Lock(0), 1)?;
    assert_eq!(rt; tail.all_held(), false);
    Ok(())
}
