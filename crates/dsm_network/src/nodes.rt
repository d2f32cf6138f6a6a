//! The processors of a world.

ghost use Rattle.std.specs.Prelude.{◌≡◌, ◌<◌, ℕ, IfOk, is_some};
ghost use Rattle.std.specs.List.{list_all};
ghost use Rattle.dsm_base.specs.Endings.{is_ended};
ghost use Rattle.dsm_base.specs.Threads.{StaysWithin};
ghost use Rattle.dsm_net.specs.Processor.{start_processor};
ghost use Rattle.dsm_processor.specs.Node.{processor_of};
ghost use Rattle.dsm_network.specs.Nodes.{IsNodeOf, AreStartNodes};

use dsm_base::{MemFault, Proc, Setup, Task, TaskMaker, is_ended};
use dsm_lines::BindTable;
use dsm_processor::Node;
use std::alloc::Global;
use std::rc::Rc;

/// A processor of the setup before its first turn.
fn start_node<M: TaskMaker>(
    alloc: Global,
    setup: &Rc<Setup>,
    table: &Rc<BindTable>,
    maker: &M,
    me: Proc,
) -> Result<Node<M::Made>, MemFault>
    requires me { me.0 < setup.now.value.procs }
    requires table { table.now.value ≡ setup.now.value.bindings }
    requires stays { StaysWithin setup.now.value M.Made.kind.semantics (M.first maker.now setup.now.value.procs me.0) }
    ensures node { IfOk result (IsNodeOf M.Made.kind setup.now.value me.0) }
    ensures processor { IfOk result (λ node. processor_of M.Made.kind node ≡
        start_processor (M.first maker.now setup.now.value.procs me.0)) }
{
    let task = maker.start(alloc, me, setup.procs)?;
    Node::start(alloc, setup.clone()?, table.clone()?, me, task)
}

/// The processors of the setup before their first turns. `MemFault` comes out of memory.
pub(crate) fn start_nodes<M: TaskMaker>(
    alloc: Global,
    setup: &Rc<Setup>,
    table: &Rc<BindTable>,
    maker: &M,
) -> Result<Vec<Node<M::Made>>, MemFault>
    requires table { table.now.value ≡ setup.now.value.bindings }
    requires stays { (p : ℕ) → p < setup.now.value.procs →
        StaysWithin setup.now.value M.Made.kind.semantics (M.first maker.now setup.now.value.procs p) }
    ensures { IfOk result (λ nodes. AreStartNodes M.Made.kind setup.now.value
        (M.first maker.now setup.now.value.procs) setup.now.value.procs nodes.items) }
{
    let mut nodes = Vec::new(alloc);
    for me in 0..setup.procs {
        nodes.push(start_node(alloc, setup, table, maker, Proc(me))?)?;
    }
    Ok(nodes)
}

/// Whether each thread has ended.
pub(crate) fn all_ended<T: Task>(nodes: &[Node<T>]) -> bool
    ensures { result ≡ list_all (λ node. is_ended (processor_of T.kind node).own.ending) nodes.now }
{
    nodes.iter().all(|node| is_ended(node.ending()))
}

/// Whether each thread has ended or stopped.
pub(crate) fn all_over<T: Task>(nodes: &[Node<T>]) -> bool
    ensures { result ≡ list_all (λ node. is_some (processor_of T.kind node).own.ending) nodes.now }
{
    nodes.iter().all(|node| node.ending().is_some())
}
