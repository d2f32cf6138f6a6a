//! Three processors at one barrier, whose manager is processor 0.

ghost use Rattle.std.specs.Prelude.{◌≡◌, ◌<◌, ◌≤◌, true, IfOk};
ghost use Rattle.dsm_lines.specs.LineLists.{are_lines};
ghost use Rattle.dsm_test_parts.specs.Three.{IsOfThree};

use dsm_barrier::Manager;
use dsm_base::{Bar, MemFault, Proc, Setup};
use dsm_lines::{Line, LineList, LineValues, Opening, Openings};
use sqlite_items::Items;
use std::alloc::Global;
use std::test::Fail;

/// The manager of one barrier of three processors.
fn manager_of_three(alloc: Global) -> Result<Manager, MemFault>
    ensures { IfOk result IsOfThree }
{
    let setup = Setup {
        procs: 3,
        locks: 0,
        bars: 1,
        cells: 0,
        bindings: Items::new(alloc),
    };
    Manager::new(alloc, Proc(0), &setup)
}

/// One line with one cell.
#[tactic(auto, using(crate::proofs::OneLine::is_one_line))]
fn one_line(alloc: Global, number: u32, value: i64) -> Result<LineList, MemFault>
    ensures { IfOk result (λ lines. are_lines lines ≡ true) }
{
    let mut lines = LineList::new(alloc);
    lines.push(Line {
        number,
        values: LineValues::from_slice(&[value]),
    })?;
    Ok(lines)
}

/// A processor comes with one line.
fn comes(
    manager: &mut Manager,
    alloc: Global,
    from: u8,
    turn: u32,
    epoch: u32,
    line: (u32, i64),
) -> Result<Openings, MemFault>
    requires three { IsOfThree manager.old }
    requires processor { from < 3 }
    requires turn { turn ≤ 100 }
    requires epoch { epoch ≤ 100 }
    ensures { IsOfThree manager.new }
{
    let lines = one_line(alloc, line.0, line.1)?;
    manager.arrive(Proc(from), turn, Bar(0), epoch, &lines)
}

fn push_line(numbers: &mut Vec<i64>, line: &Line) -> Result<(), MemFault> {
    numbers.push(i64::from(line.number))?;
    for value in line.values.as_slice() {
        numbers.push(*value)?;
    }
    Ok(())
}

fn push_opening(numbers: &mut Vec<i64>, opening: &Opening) -> Result<(), MemFault> {
    numbers.push(i64::from(opening.to.0))?;
    numbers.push(i64::from(opening.turn))?;
    numbers.push(i64::from(opening.epoch))?;
    for line in opening.lines.as_slice() {
        push_line(numbers, line)?;
    }
    Ok(())
}

/// Of each opening whom it tells, the turn of the crossing, the epoch, and each line with its
/// values.
fn numbers_of(alloc: Global, openings: &Openings) -> Result<Vec<i64>, MemFault> {
    let mut numbers = Vec::new(alloc);
    for opening in openings.as_slice() {
        push_opening(&mut numbers, opening)?;
    }
    Ok(numbers)
}

/// Each of three stores its number to a line of its own and comes: 1 to line 0, 2 to line 2, 3 to
/// line 4.
#[test]
fn each_gets_the_lines_of_the_others(rt: HostRuntime) -> Result<(), Fail> {
    let alloc = rt.alloc();
    let mut manager = manager_of_three(alloc)?;
    let none = comes(&mut manager, alloc, 1, 2, 0, (2, 2))?;
    assert_eq!(rt; none.len(), 0);
    let none = comes(&mut manager, alloc, 2, 2, 0, (4, 3))?;
    assert_eq!(rt; none.len(), 0);
    let openings = comes(&mut manager, alloc, 0, 2, 0, (0, 1))?;
    let numbers = numbers_of(alloc, &openings)?;
    let expected = [
        0, 3, 1, 2, 2, 4, 3, 1, 3, 1, 0, 1, 4, 3, 2, 3, 1, 0, 1, 2, 2,
    ];
    assert_eq!(rt; numbers.as_slice(), expected.as_slice());
    Ok(())
}

#[test]
fn repeats_and_other_epochs_are_left_alone(rt: HostRuntime) -> Result<(), Fail> {
    let alloc = rt.alloc();
    let mut manager = manager_of_three(alloc)?;
    let none = comes(&mut manager, alloc, 1, 5, 0, (2, 2))?;
    assert_eq!(rt; none.len(), 0);
    let repeat = comes(&mut manager, alloc, 1, 5, 1, (2, 9))?;
    assert_eq!(rt; repeat.len(), 0);
    let other = comes(&mut manager, alloc, 0, 4, 1, (0, 9))?;
    assert_eq!(rt; other.len(), 0);
    let none = comes(&mut manager, alloc, 0, 4, 0, (0, 1))?;
    assert_eq!(rt; none.len(), 0);
    let openings = comes(&mut manager, alloc, 2, 9, 0, (4, 3))?;
    let numbers = numbers_of(alloc, &openings)?;
    let expected = [
        0, 5, 1, 2, 2, 4, 3, 1, 6, 1, 0, 1, 4, 3, 2, 10, 1, 0, 1, 2, 2,
    ];
    assert_eq!(rt; numbers.as_slice(), expected.as_slice());
    Ok(())
}

/// One processor comes twice before the others; each epoch has its own lines.
#[test]
fn a_second_arrival_waits_for_its_epoch(rt: HostRuntime) -> Result<(), Fail> {
    let alloc = rt.alloc();
    let mut manager = manager_of_three(alloc)?;
    comes(&mut manager, alloc, 1, 2, 0, (2, 2))?;
    comes(&mut manager, alloc, 1, 4, 1, (3, 20))?;
    comes(&mut manager, alloc, 2, 2, 0, (4, 3))?;
    let first = comes(&mut manager, alloc, 0, 2, 0, (0, 1))?;
    let numbers = numbers_of(alloc, &first)?;
    let expected = [
        0, 3, 1, 2, 2, 4, 3, 1, 3, 1, 0, 1, 4, 3, 2, 3, 1, 0, 1, 2, 2,
    ];
    assert_eq!(rt; numbers.as_slice(), expected.as_slice());
    comes(&mut manager, alloc, 0, 4, 1, (0, 10))?;
    let second = comes(&mut manager, alloc, 2, 4, 1, (1, 30))?;
    let numbers = numbers_of(alloc, &second)?;
    let expected = [
        0, 5, 2, 1, 30, 3, 20, 1, 5, 2, 0, 10, 1, 30, 2, 5, 2, 0, 10, 3, 20,
    ];
    assert_eq!(rt; numbers.as_slice(), expected.as_slice());
    Ok(())
}
