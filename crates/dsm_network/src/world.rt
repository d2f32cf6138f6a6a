//! The world.

ghost use Rattle.std.specs.Prelude.{◌≡◌, ◌+◌, ◌<◌, ◌∷◌, ℕ, List, [], Some, IfOk, OnOk, OnErr, reverse};
ghost use Rattle.dsm_base.specs.Endings.{finished_by};
ghost use Rattle.dsm_base.specs.Threads.{StaysWithin};
ghost use Rattle.dsm_net.specs.Fits.{with_unit};

mod unit;

use crate::nodes::{all_ended, all_over, start_nodes};
use dsm_base::{
    Act, Finished, MemFault, Numbers, PrintedLines, Proc, Setup, TaskMaker, finished_where,
};
use dsm_channels::Channels;
use dsm_lines::BindTable;
use dsm_net::{Group, Records};
use dsm_processor::Node;
use dsm_records::{Trace, lines_of};
use sqlite_items::Items;
use std::alloc::Global;
use std::rc::Rc;

/// All processors, the messages under way between them, the turn of the last line that each has put out,
/// and the trace of what happened.
#[derive(Drop)]
pub struct World<M: TaskMaker> {
    alloc: Global,
    setup: Rc<Setup>,
    maker: M,
    nodes: Vec<Node<M::Made>>,
    channels: Channels,
    out: Numbers,
    sent: u32,
    units: u32,
    trace: Trace,
}

/// Adds the records of a unit to the trace, where there are any.
fn add_group(trace: &mut Trace, unit: u32, records: Records) -> Result<(), MemFault>
    ensures ok { OnOk result (reverse trace.new ≡ with_unit unit records (reverse trace.old)) }
    ensures err { OnErr result (trace.new ≡ trace.old) }
{
    if records.is_empty() {
        return Ok(());
    }
    trace.push(Group { unit, records })
}

impl<M: TaskMaker> World<M> {
    ghost use Rattle.dsm_net.specs.Fits.{Done, IsWithin};
    ghost use Rattle.dsm_net.specs.Units.{unit_of, went};
    ghost use Rattle.dsm_records.specs.Outputs.{lines_of};
    ghost use Rattle.dsm_processor.specs.Node.{processor_of};
    ghost use Rattle.dsm_network.specs.Nodes.{IsNodeOf};
    ghost use Rattle.dsm_network.specs.World.{setup_of, first_of, groups_of, units_of, net_of, records_of, ending_at, IsRunOf, IsWhole};

    /// All processors before their first turns. `MemFault` comes out of memory.
    pub fn new(alloc: Global, setup: Rc<Setup>, maker: M) -> Result<World<M>, MemFault>
        requires { (p : ℕ) → p < setup.value.procs →
            StaysWithin setup.value M.Made.kind.semantics (M.first maker setup.value.procs p) }
        ensures whole { IfOk result (IsWhole M.Made.kind M.first) }
        ensures none { IfOk result (IsRunOf M.Made.kind M.first []) }
        ensures trace { IfOk result (λ world. groups_of world ≡ []) }
        ensures units { IfOk result (λ world. units_of world ≡ 0) }
        ensures setup { IfOk result (λ world. setup_of world ≡ setup.value) }
        ensures first { IfOk result (λ world. first_of M.first world ≡ M.first maker setup.value.procs) }
    {
        let table = Rc::new(alloc, BindTable::new(alloc, &setup)?)?;
        let nodes = start_nodes(alloc, &setup, &table, &maker)?;
        let channels = Channels::new(alloc, setup.procs)?;
        let out = Items::from_vec(vec![in alloc; 0; usize::from(setup.procs)]?);
        Ok(World {
            alloc,
            setup,
            maker,
            nodes,
            channels,
            out,
            sent: 0,
            units: 0,
            trace: Trace::new(alloc),
        })
    }

    /// One more unit. Answers the lines that go out in it. `MemFault` comes out of memory, or where a
    /// number of a turn, a version, a message or a unit doesn't fit; the trace is then as before, and
    /// the world may only tell it, give it up or be dropped.
    pub fn apply(&mut self, act: Act) -> Result<PrintedLines, MemFault>
        requires whole { IsWhole M.Made.kind M.first self.old }
        requires act { IsWithin (setup_of self.old) act }
        ensures net { OnOk result (net_of M.Made.kind M.first self.new ≡
            (unit_of (setup_of self.old) M.Made.kind.semantics (net_of M.Made.kind M.first self.old) act went).net) }
        ensures trace { OnOk result (groups_of self.new ≡
            with_unit (units_of self.old + 1) (records_of M.Made.kind M.first self.old act) (groups_of self.old)) }
        ensures lines { IfOk result (λ lines. lines ≡ lines_of (records_of M.Made.kind M.first self.old act)) }
        ensures units { OnOk result (units_of self.new ≡ units_of self.old + 1) }
        ensures whole { OnOk result (IsWhole M.Made.kind M.first self.new) }
        ensures run { (done : List Done) → IsRunOf M.Made.kind M.first done self.old →
            OnOk result (IsRunOf M.Made.kind M.first (record { act = act; outcome = went } ∷ done) self.new) }
        ensures err { OnErr result (groups_of self.new ≡ groups_of self.old) }
        ensures err_units { OnErr result (units_of self.new ≡ units_of self.old) }
        ensures setup { setup_of self.new ≡ setup_of self.old }
        ensures first { first_of M.first self.new ≡ first_of M.first self.old }
    {
        let unit = self.units.checked_add(1).ok_or(MemFault)?;
        let records = self.unit(act)?;
        let lines = lines_of(self.alloc, &records)?;
        add_group(&mut self.trace, unit, records)?;
        self.units = unit;
        Ok(lines)
    }

    /// The trace of the units that were applied.
    pub fn trace(&self) -> &Trace
        ensures { reverse result.now ≡ groups_of self.now }
    {
        &self.trace
    }

    /// The same trace, in place of the world.
    pub fn into_trace(self) -> Trace
        ensures { reverse result ≡ groups_of self }
    {
        self.trace
    }

    /// How many units were applied.
    pub fn units(&self) -> u32
        ensures { result ≡ units_of self.now }
    {
        self.units
    }

    /// How far the threads have come. Takes no memory.
    pub fn finished(&self) -> Finished
        requires { IsWhole M.Made.kind M.first self.now }
        ensures { result ≡ finished_by (setup_of self.now).procs
            (λ p. ending_at ((net_of M.Made.kind M.first self.now).processors p)) }
    {
        finished_where(all_ended(&self.nodes), all_over(&self.nodes))
    }
    /// How the world is set up.
    pub fn setup(&self) -> &Setup
        ensures { result.now ≡ setup_of self.now }
    {
        &self.setup
    }

    /// A processor.
    pub fn node(&self, proc: Proc) -> &Node<M::Made>
        requires whole { IsWhole M.Made.kind M.first self.now }
        requires proc { proc.0 < (setup_of self.now).procs }
        ensures node { IsNodeOf M.Made.kind (setup_of self.now) proc.0 result.now }
        ensures processor { (net_of M.Made.kind M.first self.now).processors proc.0 ≡
            Some (processor_of M.Made.kind result.now) }
    {
        &self.nodes[usize::from(proc.0)]
    }
}
