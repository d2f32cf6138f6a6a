//! Worlds of such threads, and their units.

ghost use Rattle.std.specs.Prelude.{◌≡◌, ◌<◌, IfOk, OnOk, true};
ghost use Rattle.dsm_base.specs.declared.setup.Setup.{Setup};
ghost use Rattle.dsm_net.specs.Fits.{IsWithin};
ghost use Rattle.dsm_network.specs.World.{setup_of, IsWhole};
ghost use Rattle.dsm_test_network.specs.Thread.{thread_kind, first_in};
ghost use Rattle.dsm_test_network.specs.Laws.{IsRoleIn};

use crate::thread::Threads;
use dsm_base::{Act, Cell, Lock, MemFault, Object, Piece, PrintedLines, Setup, TaskMaker};
use dsm_network::World;
use sqlite_items::Items;
use std::alloc::Global;
use std::rc::Rc;

/// Two processors, and 24 cells under one lock.
pub fn setup_of_two(alloc: Global) -> Result<Setup, MemFault>
    ensures procs { IfOk result (λ setup. setup.procs ≡ 2) }
    ensures locks { IfOk result (λ setup. setup.locks ≡ 1) }
    ensures cells { IfOk result (λ setup. setup.cells ≡ 24) }
{
    let piece = Piece {
        object: Object::Lock(Lock(0)),
        first: Cell(0),
        count: 24,
        owner: 0,
        phase: 0,
        period: 0,
    };
    Ok(Setup {
        procs: 2,
        locks: 1,
        bars: 0,
        cells: 24,
        bindings: Items::from_slice(alloc, &[piece])?,
    })
}

/// Four processors, and one cell under one lock.
pub fn setup_of_four(alloc: Global) -> Result<Setup, MemFault>
    ensures procs { IfOk result (λ setup. setup.procs ≡ 4) }
    ensures locks { IfOk result (λ setup. setup.locks ≡ 1) }
    ensures cells { IfOk result (λ setup. setup.cells ≡ 1) }
{
    let piece = Piece {
        object: Object::Lock(Lock(0)),
        first: Cell(0),
        count: 1,
        owner: 0,
        phase: 0,
        period: 0,
    };
    Ok(Setup {
        procs: 4,
        locks: 1,
        bars: 0,
        cells: 1,
        bindings: Items::from_slice(alloc, &[piece])?,
    })
}

/// The world of such threads.
pub fn world(alloc: Global, setup: Setup, maker: Threads) -> Result<World<Threads>, MemFault>
    requires locks { 0 < setup.locks }
    requires one { IsRoleIn setup.cells maker.role }
    requires others { IsRoleIn setup.cells maker.others }
    ensures whole { IfOk result (IsWhole thread_kind first_in) }
    ensures procs { IfOk result (λ world. (setup_of world).procs ≡ setup.procs) }
{
    let setup = Rc::new(alloc, setup)?;
    World::new(alloc, setup, maker)
}

/// Whether a unit is one of so many processors.
fn is_within(act: Act, procs: u8) -> bool
    ensures { result ≡ true → (setup : Setup) → setup.procs ≡ procs → IsWithin setup act }
{
    match act {
        Act::Step(proc) => proc.0 < procs,
        Act::Deliver(from, to) => from.0 < procs && to.0 < procs && from.0 != to.0,
        Act::Ckpt(proc)
        | Act::Block(proc)
        | Act::Crash(proc)
        | Act::Torn(proc, _)
        | Act::Restart(proc) => proc.0 < procs,
    }
}

/// Appends lines to a text.
fn append(text: &mut Vec<u8>, lines: &PrintedLines) -> Result<(), MemFault> {
    for line in lines.as_slice() {
        text.extend_from_slice(line.as_slice())?;
    }
    Ok(())
}

/// The lines of units that are applied one after another.
pub fn lines_of<M: TaskMaker>(
    alloc: Global,
    world: &mut World<M>,
    procs: u8,
    acts: &[Act],
) -> Result<Vec<u8>, MemFault>
    requires whole { IsWhole M.Made.kind M.first world.old }
    requires procs { (setup_of world.old).procs ≡ procs }
    ensures whole { OnOk result (IsWhole M.Made.kind M.first world.new) }
    ensures procs { OnOk result ((setup_of world.new).procs ≡ procs) }
{
    let mut text = Vec::new(alloc);
    for act in acts {
        if is_within(*act, procs) {
            append(&mut text, &world.apply(*act)?)?;
        }
    }
    Ok(text)
}
