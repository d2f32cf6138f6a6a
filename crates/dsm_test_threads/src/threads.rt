//! Runs of threads, each alone with shared cells of its own.

use dsm_base::{Fault, MemFault, Mode, Proc, Task, TaskMaker, Text, Want};
use dsm_code::{
    Array, Bound, Code, Function, Instr, Parts, Print, PrintPart, Row, SlotNames, Target, Use,
};
use dsm_syntax::BinaryOp;
use dsm_thread::CodeMaker;
use sqlite_items::Items;
use std::alloc::Global;
use std::test::Fail;

/// Whether the step of an instruction has a label.
fn is_labelled(instr: Instr) -> bool {
    matches!(
        instr,
        Instr::Load(_, _, _)
            | Instr::Store(_, _, _)
            | Instr::GoBack(_)
            | Instr::Enter(_, _)
            | Instr::Leave
            | Instr::Ask(_, _, _)
            | Instr::Take(_, _, _)
            | Instr::Give(_, _)
            | Instr::Print(_)
    )
}

/// A function whose instructions stand beside their numbers of operands; no names are known.
fn function(
    alloc: Global,
    params: u8,
    slots: u8,
    table: &[(Instr, u32)],
) -> Result<Function, MemFault> {
    let mut rows = Vec::new(alloc);
    let mut names = Vec::new(alloc);
    for (instr, depth) in table {
        rows.push(Row {
            instr: *instr,
            depth: *depth,
        })?;
        names.push(if is_labelled(*instr) {
            Some(SlotNames::new(alloc))
        } else {
            None
        })?;
    }
    Ok(Function {
        params,
        slots,
        rows,
        names,
    })
}

/// A program of at most two functions, of which the first is main; it has 4 shared cells, 2 private cells,
/// 2 locks, and a print of `x=` and a value.
pub fn parts(
    alloc: Global,
    main: &[(Instr, u32)],
    other: &[(Instr, u32)],
) -> Result<Parts, MemFault> {
    let mut functions = Vec::new(alloc);
    functions.push(function(alloc, 2, 3, main)?)?;
    functions.push(function(alloc, 1, 1, other)?)?;
    let mut print = Vec::new(alloc);
    print.push(PrintPart::Text(Text::from_slice(alloc, b"x=")?))?;
    print.push(PrintPart::Value)?;
    let mut prints: Vec<Print> = Vec::new(alloc);
    prints.push(Items::from_vec(print))?;
    Ok(Parts {
        functions,
        prints,
        main: 0,
        private_cells: 2,
        cells: 4,
        locks: 2,
        bars: 0,
        deepest: 4,
        widest: 3,
    })
}

/// What a thread came to: its last line, how many steps it made, and why it stopped, if it did.
#[derive(Drop)]
struct Ran {
    line: Vec<u8>,
    steps: u32,
    stopped: Option<(Fault, u32)>,
}

/// Runs the thread of processor 1 of 2, with this value in every shared cell.
fn run(alloc: Global, parts: Parts, cell: i64) -> Result<Option<Ran>, MemFault> {
    let Some(code) = Code::new(parts) else {
        return Ok(None);
    };
    let maker = CodeMaker::new(alloc, code)?;
    let mut thread = maker.start(alloc, Proc(1), 2)?;
    let mut ran = Ran {
        line: Vec::new(alloc),
        steps: 0,
        stopped: None,
    };
    for step in 0..1000u32 {
        ran.steps = step;
        let want = thread.want();
        match want {
            Want::Over => return Ok(Some(ran)),
            Want::Stop(fault, line) => {
                ran.stopped = Some((fault, line));
                thread.stop(fault);
            }
            Want::Load(_, _) => thread.done(cell),
            Want::Line => {
                ran.line.clear();
                ran.line.extend_from_slice(thread.text())?;
                thread.done(0);
            }
            _ => thread.done(0),
        }
    }
    Ok(None)
}

/// `int f(int k) { return f(k + 1); }` on line 1.
pub const ENDLESS: &[(Instr, u32)] = &[
    (Instr::LoadSlot(0, Use::Value), 0),
    (Instr::Push(1), 1),
    (Instr::Binary(BinaryOp::Plus, 1), 2),
    (Instr::Enter(1, 1), 1),
    (Instr::Leave, 1),
];

/// `int main(int me, int n) { return f(0); }` on line 2.
pub const CALLER: &[(Instr, u32)] = &[
    (Instr::Push(0), 0),
    (Instr::Enter(1, 2), 1),
    (Instr::Leave, 1),
];

#[test]
fn calls_are_limited_to_a_depth(rt: HostRuntime) -> Result<(), Fail> {
    let alloc = rt.alloc();
    let ran = run(alloc, parts(alloc, CALLER, ENDLESS)?, 0)?.ok_or("no run")?;
    assert_eq!(rt; ran.stopped, Some((Fault::Depth, 1)));
    assert_eq!(rt; ran.steps, 256);
    Ok(())
}

/// `acquire(L[me]); x[me] = x[me] * 2 + 5; print("x=", x[me]); release(L[me]);` in main.
pub const LOCKED: &[(Instr, u32)] = &[
    (Instr::LoadSlot(0, Use::Value), 0),
    (Instr::Ask(LOCKS, Mode::Excl, 3), 1),
    (Instr::Take(LOCKS, Mode::Excl, 3), 1),
    (Instr::LoadSlot(0, Use::Value), 0),
    (Instr::TestIndex(ALL, 4), 1),
    (Instr::LoadSlot(0, Use::Value), 1),
    (Instr::Load(CELLS, Use::Value, 4), 2),
    (Instr::Push(2), 2),
    (Instr::Binary(BinaryOp::Times, 4), 3),
    (Instr::Push(5), 2),
    (Instr::Binary(BinaryOp::Plus, 4), 3),
    (Instr::Store(CELLS, Bound::ToLock, 4), 2),
    (Instr::Discard, 1),
    (Instr::LoadSlot(0, Use::Value), 0),
    (Instr::Load(CELLS, Use::Value, 5), 1),
    (Instr::Print(0), 1),
    (Instr::LoadSlot(0, Use::Value), 0),
    (Instr::Give(LOCKS, 6), 1),
    (Instr::Push(0), 0),
    (Instr::Leave, 1),
];

const ALL: Array = Array { first: 0, size: 4 };

const CELLS: Target = Target::Member(ALL);

const LOCKS: Target = Target::Member(Array { first: 0, size: 2 });

#[test]
fn a_lock_is_taken_and_given_back(rt: HostRuntime) -> Result<(), Fail> {
    let alloc = rt.alloc();
    let ran = run(alloc, parts(alloc, LOCKED, ENDLESS)?, -7)?.ok_or("no run")?;
    assert_eq!(rt; ran.stopped, None);
    assert_eq!(rt; ran.line.as_slice(), b"x=-7".as_slice());
    assert_eq!(rt; ran.steps, 8);
    Ok(())
}

#[test]
fn a_product_overflows_at_its_operator(rt: HostRuntime) -> Result<(), Fail> {
    let alloc = rt.alloc();
    let ran = run(alloc, parts(alloc, LOCKED, ENDLESS)?, i64::MAX)?.ok_or("no run")?;
    assert_eq!(rt; ran.stopped, Some((Fault::Overflow, 4)));
    Ok(())
}

/// A take without an ask before it.
const TAKES_AT_ONCE: &[(Instr, u32)] = &[
    (Instr::Take(Target::One(0), Mode::Excl, 1), 0),
    (Instr::Push(0), 0),
    (Instr::Leave, 1),
];

/// A sum of one operand.
const SUM_OF_ONE: &[(Instr, u32)] = &[
    (Instr::Push(0), 0),
    (Instr::Binary(BinaryOp::Plus, 1), 1),
    (Instr::Leave, 1),
];

/// A jump past the end.
const JUMPS_PAST_THE_END: &[(Instr, u32)] = &[
    (Instr::Push(0), 0),
    (Instr::GoOn(1), 1),
    (Instr::Leave, 1),
];

#[test]
fn parts_that_are_no_code_are_refused(rt: HostRuntime) -> Result<(), Fail> {
    let alloc = rt.alloc();
    assert!(rt; Code::new(parts(alloc, CALLER, TAKES_AT_ONCE)?).is_none());
    assert!(rt; Code::new(parts(alloc, CALLER, SUM_OF_ONE)?).is_none());
    assert!(rt; Code::new(parts(alloc, CALLER, JUMPS_PAST_THE_END)?).is_none());
    assert!(rt; Code::new(parts(alloc, CALLER, ENDLESS)?).is_some());
    Ok(())
}
