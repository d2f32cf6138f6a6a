//! Worlds of threads that cross a barrier, and their rounds.

ghost use Rattle.std.specs.Prelude.{◌≡◌, ◌<◌, IfOk, OnOk};
ghost use Rattle.dsm_base.specs.declared.setup.Object.{Object};
ghost use Rattle.dsm_network.specs.World.{setup_of, IsWhole};
ghost use Rattle.dsm_test_network.specs.Crossing.{crosser_kind, first_crosser};
ghost use Rattle.dsm_test_network.specs.CrossingLaws.{IsCourseIn};

use crate::crossing::Crossers;
use crate::run::lines_of;
use dsm_base::{Act, Bar, Cell, MemFault, Object, Piece, Setup};
use dsm_network::World;
use sqlite_items::Items;
use std::alloc::Global;
use std::rc::Rc;

/// A cell of the barrier, which its owner alone uses in every second epoch.
fn owned(cell: u32, owner: u32, phase: u32) -> Piece
    ensures { result ≡ record {
      object = Object.Bar record { 0 = 0 };
      first = record { 0 = cell };
      count = 1;
      owner = owner;
      phase = phase;
      period = 2;
    } }
{
    Piece {
        object: Object::Bar(Bar(0)),
        first: Cell(cell),
        count: 1,
        owner,
        phase,
        period: 2,
    }
}

/// Three processors with two cells each: one is its owner's in the even epochs, one in the odd.
pub fn setup_of_three(alloc: Global) -> Result<Setup, MemFault>
    ensures procs { IfOk result (λ setup. setup.procs ≡ 3) }
    ensures bars { IfOk result (λ setup. setup.bars ≡ 1) }
    ensures cells { IfOk result (λ setup. setup.cells ≡ 6) }
{
    let pieces = [
        owned(0, 0, 0),
        owned(3, 0, 1),
        owned(1, 1, 0),
        owned(4, 1, 1),
        owned(2, 2, 0),
        owned(5, 2, 1),
    ];
    Ok(Setup {
        procs: 3,
        locks: 0,
        bars: 1,
        cells: 6,
        bindings: Items::from_slice(alloc, &pieces)?,
    })
}

/// Two processors and one cell, which is the first one's in the even epochs.
pub fn setup_of_one_cell(alloc: Global) -> Result<Setup, MemFault>
    ensures procs { IfOk result (λ setup. setup.procs ≡ 2) }
    ensures bars { IfOk result (λ setup. setup.bars ≡ 1) }
    ensures cells { IfOk result (λ setup. setup.cells ≡ 1) }
{
    Ok(Setup {
        procs: 2,
        locks: 0,
        bars: 1,
        cells: 1,
        bindings: Items::from_slice(alloc, &[owned(0, 0, 0)])?,
    })
}

/// The world of such threads.
pub fn crossing_world(
    alloc: Global,
    setup: Setup,
    maker: Crossers,
) -> Result<World<Crossers>, MemFault>
    requires bars { 0 < setup.bars }
    requires course { IsCourseIn setup.cells setup.procs maker.course }
    ensures whole { IfOk result (IsWhole crosser_kind first_crosser) }
    ensures procs { IfOk result (λ world. (setup_of world).procs ≡ setup.procs) }
{
    let setup = Rc::new(alloc, setup)?;
    World::new(alloc, setup, maker)
}

/// The lines of so many rounds of the same units.
pub fn rounds_of(
    alloc: Global,
    world: &mut World<Crossers>,
    procs: u8,
    round: &[Act],
    count: u32,
) -> Result<Vec<u8>, MemFault>
    requires whole { IsWhole crosser_kind first_crosser world.old }
    requires procs { (setup_of world.old).procs ≡ procs }
    ensures whole { OnOk result (IsWhole crosser_kind first_crosser world.new) }
{
    let mut text = Vec::new(alloc);
    for _ in 0..count {
        let mut lines = lines_of(alloc, world, procs, round)?;
        text.append(&mut lines)?;
    }
    Ok(text)
}
