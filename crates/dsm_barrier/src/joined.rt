//! Lines of several processors joined into one list.

ghost use Rattle.std.specs.Prelude.{◌≡◌, ◌==◌, ◌++◌, true, ◌≤◌, nat_le, length, OnOk, IfOk, [], List, position};
ghost use Rattle.std.specs.List.{position_or_len, All};
ghost use Rattle.dsm_base.specs.Family.{family_of};
ghost use Rattle.dsm_lines.specs.LineLists.{are_lines};
ghost use Rattle.dsm_barrier.specs.Joined.{with_lines, begins_with};
ghost use Rattle.dsm_barrier.specs.BarrierStates.{oldest, lines_of_others};
ghost use Rattle.dsm_barrier.specs.Barriers.{HasLines, brought_by};

use crate::arrived::Waiting;
use dsm_base::MemFault;
use dsm_lines::{Line, LineList, LineValues};
use std::alloc::Global;

/// The first line with this number or a greater one.
fn first_from(lines: &[Line], number: u32) -> Option<usize>
    ensures { result ≡ position (λ line. nat_le number line.number) lines.now }
{
    lines.iter().position(|line| line.number >= number)
}

/// How many lines stand before the first with this number or a greater one.
#[tactic(auto, using(crate::proofs::Joining::position_or_all))]
fn count_below(lines: &[Line], number: u32) -> usize
    ensures place { result ≡ position_or_len (λ line. nat_le number line.number) lines.now }
    ensures within { result ≤ length lines.now }
{
    first_from(lines, number).unwrap_or(lines.len())
}

/// Whether the first line has this number.
fn begins_with(lines: &[Line], number: u32) -> bool
    ensures { result ≡ begins_with lines.now number }
{
    match lines {
        [first, ..] => first.number == number,
        [] => false,
    }
}

/// Another line with the same values.
fn copy_of(line: &Line) -> Line
    ensures { result ≡ line.now }
{
    Line {
        number: line.number,
        values: LineValues::from_slice(line.values.as_slice()),
    }
}

/// Adds these lines at the end.
fn push_all(joined: &mut LineList, lines: &[Line]) -> Result<(), MemFault>
    ensures { OnOk result (joined.new ≡ joined.old ++ lines.now) }
{
    for line in lines {
        joined.push(copy_of(line))?;
    }
    Ok(())
}

/// These lines with more lines, each in its place. It takes the time of both lists together.
fn join(alloc: Global, kept: &[Line], more: &[Line]) -> Result<LineList, MemFault>
    requires { are_lines more.now ≡ true }
    ensures { IfOk result (λ lines. lines ≡ with_lines kept.now more.now) }
{
    let mut joined = LineList::new(alloc);
    let mut rest = kept;
    for line in more {
        let before = count_below(rest, line.number);
        let (below, others) = rest.split_at(before);
        push_all(&mut joined, below)?;
        if !begins_with(others, line.number) {
            joined.push(copy_of(line))?;
        }
        rest = others;
    }
    push_all(&mut joined, rest)?;
    Ok(joined)
}

/// The lines of a processor's oldest arrival.
fn oldest_lines(waiting: &Waiting) -> &[Line]
    ensures { result.now ≡ (oldest waiting.now).lines }
{
    match waiting.as_slice() {
        [first, ..] => first.lines.as_slice(),
        [] => &[],
    }
}

/// The lines that the processors but this one brought with their oldest arrivals.
pub fn lines_of_others(
    alloc: Global,
    waiting: &[Waiting],
    proc: usize,
) -> Result<LineList, MemFault>
    requires { All (All HasLines) waiting.now }
    ensures { IfOk result (λ lines. lines ≡
        lines_of_others (brought_by waiting.now) (length waiting.now) proc) }
{
    let mut lines = LineList::new(alloc);
    for (other, arrivals) in waiting.iter().enumerate() {
        if other != proc {
            lines = join(alloc, lines.as_slice(), oldest_lines(arrivals))?;
        }
    }
    Ok(lines)
}
