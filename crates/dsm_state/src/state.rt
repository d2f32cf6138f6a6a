//! The text of the state.

ghost use Rattle.std.specs.Prelude.{◌≡◌, ◌++◌, ◌<◌, OnOk, reverse};
ghost use Rattle.std.specs.List.{range_with_len};
ghost use Rattle.dsm_network.specs.World.{setup_of, net_of, groups_of, IsWhole};
ghost use Rattle.dsm_records.specs.Texts.{as_line};
ghost use Rattle.dsm_state.specs.States.{processor_line, processors_text, lock_line, locks_text, state_text};

use crate::locks::{home_of, lock_text};
use crate::processors::processor_text;
use dsm_base::{Lock, MemFault, Proc, TaskMaker};
use dsm_lines::BindTable;
use dsm_network::World;
use std::alloc::Global;

/// Appends a text as a line.
fn put_line(out: &mut Vec<u8>, text: &[u8]) -> Result<(), MemFault>
    ensures { OnOk result (out.new.items ≡ out.old.items ++ as_line text.now) }
{
    out.extend_from_slice(text)?;
    out.push(b'\n')?;
    Ok(())
}

/// Appends the line of a processor.
fn put_processor<M: TaskMaker>(
    alloc: Global,
    world: &World<M>,
    proc: Proc,
    out: &mut Vec<u8>,
) -> Result<(), MemFault>
    requires whole { IsWhole M.Made.kind M.first world.now }
    requires proc { proc.0 < (setup_of world.now).procs }
    ensures { OnOk result (out.new.items ≡ out.old.items ++
        processor_line (net_of M.Made.kind M.first world.now) (reverse (groups_of world.now)) proc.0) }
{
    let text = processor_text(alloc, proc, world.node(proc), world.trace().groups())?;
    put_line(out, text.as_bytes())
}

/// Appends a line for each processor.
fn put_processors<M: TaskMaker>(
    alloc: Global,
    world: &World<M>,
    out: &mut Vec<u8>,
) -> Result<(), MemFault>
    requires { IsWhole M.Made.kind M.first world.now }
    ensures { OnOk result (out.new.items ≡ out.old.items ++ processors_text
        (net_of M.Made.kind M.first world.now) (reverse (groups_of world.now))
        (range_with_len 0 (setup_of world.now).procs)) }
{
    for proc in 0..world.setup().procs {
        put_processor(alloc, world, Proc(proc), out)?;
    }
    Ok(())
}

/// Appends the line of a lock.
fn put_lock<M: TaskMaker>(
    alloc: Global,
    world: &World<M>,
    table: &BindTable,
    lock: Lock,
    out: &mut Vec<u8>,
) -> Result<(), MemFault>
    requires whole { IsWhole M.Made.kind M.first world.now }
    requires table { table.now ≡ (setup_of world.now).bindings }
    requires lock { lock.0 < (setup_of world.now).locks }
    ensures { OnOk result (out.new.items ≡ out.old.items ++ lock_line
        (setup_of world.now) (net_of M.Made.kind M.first world.now) lock.0) }
{
    let setup = world.setup();
    let home = world.node(home_of(setup, lock));
    let text = lock_text(alloc, setup, table, home, lock)?;
    put_line(out, text.as_bytes())
}

/// Appends a line for each lock.
fn put_locks<M: TaskMaker>(
    alloc: Global,
    world: &World<M>,
    table: &BindTable,
    out: &mut Vec<u8>,
) -> Result<(), MemFault>
    requires whole { IsWhole M.Made.kind M.first world.now }
    requires table { table.now ≡ (setup_of world.now).bindings }
    ensures { OnOk result (out.new.items ≡ out.old.items ++ locks_text
        (setup_of world.now) (net_of M.Made.kind M.first world.now)
        (range_with_len 0 (setup_of world.now).locks)) }
{
    for lock in 0..world.setup().locks {
        put_lock(alloc, world, table, Lock(lock), out)?;
    }
    Ok(())
}

/// Appends the text of a world's state: a line for each processor, then one for each lock. `MemFault`
/// comes out of memory.
pub fn put_state<M: TaskMaker>(
    alloc: Global,
    world: &World<M>,
    out: &mut Vec<u8>,
) -> Result<(), MemFault>
    requires { IsWhole M.Made.kind M.first world.now }
    ensures { OnOk result (out.new.items ≡ out.old.items ++ state_text (setup_of world.now)
        (net_of M.Made.kind M.first world.now) (reverse (groups_of world.now))) }
{
    let table = BindTable::new(alloc, world.setup())?;
    put_processors(alloc, world, out)?;
    put_locks(alloc, world, &table, out)
}
