//! The processor.

ghost use Rattle.std.specs.Prelude.{◌≡◌, ◌<◌, None, IfOk};

mod arrivals;
mod bodies;
mod turn;

use crate::mailbox::Mailbox;
use crate::peers::Peers;
use crate::versions::zero_versions;
use dsm_barrier::Manager;
use dsm_base::{Cell, Ending, Label, Lock, MemFault, Numbers, Pending, Proc, Rights, Setup, Task};
use dsm_home::Home;
use dsm_lines::{BindTable, LineList, OwnCopy};
use dsm_msg::{Msg, Sends};
use std::alloc::Global;
use std::rc::Rc;

/// What a processor does in a unit, in this order: the lines that a message brought along go out; it sends
/// messages; its replay ends, and it sends what it rebuilt; own lines go out; and a `Note` that it owes.
#[derive(Debug, Drop)]
pub struct Effects {
    pub carried: Pending,
    pub sends: Sends,
    pub replayed: bool,
    pub rebuilt: Sends,
    pub outs: Pending,
    pub note: Option<Msg>,
}

/// A turn that was made: its number and label, the lines that it brought, and what the processor does.
#[derive(Debug, Drop)]
pub struct Stepped {
    pub turn: u32,
    pub label: Label,
    pub lines: LineList,
    pub effects: Effects,
}

/// A processor.
#[derive(Drop)]
pub struct Node<T: Task> {
    alloc: Global,
    setup: Rc<Setup>,
    table: Rc<BindTable>,
    me: Proc,
    task: T,
    turns: u32,
    copy: OwnCopy,
    rights: Rights,
    versions: Numbers,
    ending: Option<Ending>,
    mail: Mailbox,
    home: Home,
    manager: Manager,
    peers: Peers,
    known: u32,
}

impl<T: Task> Node<T> {
    ghost use Rattle.dsm_base.specs.Threads.{StaysWithin};
    ghost use Rattle.dsm_net.specs.Processor.{start_processor};
    ghost use Rattle.dsm_processor.specs.Node.{processor_of, setup_of, me_of, IsShaped, IsWhole};

    /// A processor before its first turn. `MemFault` comes out of memory.
    pub fn start(
        alloc: Global,
        setup: Rc<Setup>,
        table: Rc<BindTable>,
        me: Proc,
        task: T,
    ) -> Result<Node<T>, MemFault>
        requires me { me.0 < setup.value.procs }
        requires table { table.value ≡ setup.value.bindings }
        requires stays { StaysWithin setup.value T.kind.semantics (T.kind.state task) }
        ensures processor { IfOk result (λ node. processor_of T.kind node ≡
            start_processor (T.kind.state task)) }
        ensures whole { IfOk result (IsWhole T.kind) }
        ensures setup { IfOk result (λ node. setup_of node ≡ setup.value) }
        ensures me { IfOk result (λ node. me_of node ≡ me.0) }
    {
        let home = Home::new(alloc, table.clone()?, setup.locks)?;
        let rights = Rights::new(alloc, setup.locks, setup.bars)?;
        let versions = zero_versions(alloc, usize::from(setup.locks))?;
        let peers = Peers::new(alloc, setup.procs)?;
        let copy = OwnCopy::new(alloc, table.clone()?)?;
        let mail = Mailbox::new(alloc);
        let manager = Manager::new(alloc, me, &setup)?;
        Ok(Node {
            alloc,
            setup,
            table,
            me,
            task,
            turns: 0,
            copy,
            rights,
            versions,
            ending: None,
            mail,
            home,
            manager,
            peers,
            known: 0,
        })
    }

    /// How many turns it has made.
    pub fn turn(&self) -> u32
        ensures { result ≡ (processor_of T.kind self.now).own.turns }
    {
        self.turns
    }

    /// How its thread came to be over.
    pub fn ending(&self) -> Option<Ending>
        ensures { result ≡ (processor_of T.kind self.now).own.ending }
    {
        self.ending
    }
    /// The version that a lock has at its desk here.
    pub fn lock_version(&self, lock: Lock) -> u32
        requires shape { IsShaped self.now }
        requires lock { lock.0 < (setup_of self.now).locks }
        ensures { result ≡ ((processor_of T.kind self.now).locks lock.0).version }
    {
        self.home.version(lock)
    }

    /// The value of a cell in the lines of the locks that it is home of; 0 where the cell is in no piece.
    pub fn home_value(&self, cell: Cell) -> i64
        requires { IsShaped self.now }
        ensures { result ≡ (processor_of T.kind self.now).lines.values cell.0 }
    {
        match self.table.place_of(cell) {
            Some(place) => self.home.values(place.line)[usize::from(place.at)],
            None => 0,
        }
    }
}
