//! Machines that stand right before a labelled step, with the text of the line that they want.

ghost use Rattle.std.specs.Prelude.{◌≡◌};
ghost use Rattle.dsm_code.specs.Machine as m;
ghost use Rattle.dsm_machine.specs.States.{state_in, Becomes, IsFit};
ghost use Rattle.dsm_machine.specs.Standing.{IsStanding};

use crate::machine::{Life, Machine};
use crate::print::Line;
use dsm_code::{Instr, Row, values_in};

/// Writes the text of the line that an instruction wants, where it wants one.
fn write_row(machine: &Machine, row: Option<Row>, line: &mut Line)
    ensures { line.new ≡ m.text_at (state_in machine.now) row }
{
    let Some(row) = row else {
        line.clear();
        return;
    };
    match row.instr {
        Instr::Print(number) => {
            let parts = machine.print_parts(number);
            line.set(parts, machine.frame.operands.topmost(values_in(parts)));
        }
        _ => line.clear(),
    }
}

/// Writes the text of the line that a machine wants, where it wants one.
pub fn write_line(machine: &Machine, line: &mut Line)
    ensures { line.new ≡ m.text (state_in machine.now) }
{
    match machine.life {
        Life::Going => write_row(machine, machine.row_here(), line),
        Life::Ended => line.clear(),
        Life::Stopped(_, _) => line.clear(),
    }
}

/// Goes on to the next labelled step.
pub fn stand(machine: &mut Machine, line: &mut Line)
    requires { IsFit machine.old }
    ensures state { Becomes machine.old machine.new m.ready }
    ensures stands { IsStanding machine.new line.new }
{
    machine.settle();
    write_line(machine, line);
}
