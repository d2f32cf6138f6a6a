//! The texts of locks.

ghost use Rattle.std.specs.Prelude.{◌≡◌, ◌++◌, ◌<◌, Some, IfOk, OnOk, string_bytes};
ghost use Rattle.dsm_net.specs.Messages.{home_of};
ghost use Rattle.dsm_net.specs.Processor.{live};
ghost use Rattle.dsm_processor.specs.Node.{processor_of, setup_of, IsShaped};
ghost use Rattle.dsm_state.specs.States.{is_of_lock, cell_text, cells_of, cells_text, lock_text};

use dsm_base::{Cell, Lock, MemFault, Object, Proc, Setup, Task};
use dsm_lines::BindTable;
use dsm_processor::Node;
use std::alloc::Global;

/// The home of a lock.
pub fn home_of(setup: &Setup, lock: Lock) -> Proc
    ensures home { result.0 ≡ home_of setup.now lock.0 }
    ensures processor { result.0 < setup.now.procs }
{
    Proc((lock.0 % u16::from(setup.procs)) as u8)
}

/// Whether a cell is bound to a lock.
fn is_of_lock(table: &BindTable, lock: Lock, cell: Cell) -> bool
    ensures { result ≡ is_of_lock table.now lock.0 cell.0 }
{
    match table.object_of(cell) {
        Some(Object::Lock(other)) => other.0 == lock.0,
        _ => false,
    }
}

/// A cell with the value that its home has.
fn cell_text<T: Task>(alloc: Global, node: &Node<T>, cell: Cell) -> Result<String, MemFault>
    requires { IsShaped node.now }
    ensures { IfOk result (λ text. string_bytes text ≡
        cell_text (processor_of T.kind node.now).lines.values cell.0) }
{
    let (number, value) = (cell.0, node.home_value(cell));
    Ok(format!(in alloc; " {number}={value}")?)
}

/// The cells of a lock with the values that its home has.
fn cells_text<T: Task>(
    alloc: Global,
    table: &BindTable,
    cells: u32,
    node: &Node<T>,
    lock: Lock,
) -> Result<String, MemFault>
    requires { IsShaped node.now }
    ensures { IfOk result (λ text. string_bytes text ≡
        cells_text (processor_of T.kind node.now).lines.values (cells_of table.now cells lock.0)) }
{
    let mut text = String::from_str(alloc, "cells")?;
    for cell in 0..cells {
        if is_of_lock(table, lock, Cell(cell)) {
            let one = cell_text(alloc, node, Cell(cell))?;
            text.push_str(&one)?;
        }
    }
    Ok(text)
}

/// A lock as its home tells it, which lives.
pub fn lock_text<T: Task>(
    alloc: Global,
    setup: &Setup,
    table: &BindTable,
    node: &Node<T>,
    lock: Lock,
) -> Result<String, MemFault>
    requires shape { IsShaped node.now }
    requires same { setup_of node.now ≡ setup.now }
    requires table { table.now ≡ setup.now.bindings }
    requires lock { lock.0 < setup.now.locks }
    ensures { IfOk result (λ text. string_bytes text ≡
        lock_text setup.now lock.0 (Some (processor_of T.kind node.now))) }
{
    let cells = cells_text(alloc, table, setup.cells, node, lock)?;
    let (number, version) = (lock.0, node.lock_version(lock));
    Ok(format!(in alloc; "lock {number} version {version} {cells}")?)
}
