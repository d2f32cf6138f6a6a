//! What flags of `run` ask for goes out.

ghost use Rattle.std.specs.Prelude.{◌≡◌, IfOk, OnOk, OnErr, codes, reverse};
ghost use Rattle.dsm_base.specs.Causes.{HasCause};
ghost use Rattle.dsm_base.specs.Sink.{appended, TakesPart};
ghost use Rattle.dsm_network.specs.World.{setup_of, net_of, groups_of, IsWhole};
ghost use Rattle.dsm_records.specs.Texts.{as_line, trace_text};
ghost use Rattle.dsm_state.specs.States.{state_text};
ghost use Rattle.dsm_top.specs.Shown.{piece_if, shown_by};

use crate::output::put_all;
use dsm_base::{MemFault, ReadErr, Sink, TaskMaker};
use dsm_network::World;
use dsm_records::Trace;
use dsm_state::put_state;
use std::alloc::Global;

/// What `run` is asked for behind the lines.
#[derive(Clone, Copy, Debug, Drop)]
pub(crate) struct Asked {
    /// The text of the trace.
    pub trace: bool,
    /// The text of the state.
    pub state: bool,
}

/// A line `--`, behind which a text comes.
fn start_piece(alloc: Global) -> Result<Vec<u8>, MemFault>
    ensures { IfOk result (λ piece. piece.items ≡ as_line (codes "--")) }
{
    let mut piece = Vec::new(alloc);
    piece.extend_from_slice(b"--\n")?;
    Ok(piece)
}

/// Puts a line `--` and the trace's text as one piece, where that is asked for. After an error the
/// sink has taken a part of it.
fn put_trace<K: Sink>(alloc: Global, asked: bool, trace: &Trace, out: &mut K) -> Result<(), ReadErr>
    ensures whole { OnOk result (K.sink_holds out.new ≡
        appended (K.sink_holds out.old) (piece_if asked (trace_text trace.now))) }
    ensures part { OnErr result (TakesPart (K.sink_holds out.old) (K.sink_holds out.new)
        (piece_if asked (trace_text trace.now))) }
    ensures cause { HasCause (K.sink_faults out.old) (K.sink_faults out.new) result }
{
    if !asked {
        return Ok(());
    }
    let mut piece = start_piece(alloc)?;
    trace.text(alloc, &mut piece)?;
    put_all(out, piece.as_slice())
}

/// Puts a line `--` and the text of a world's state as one piece, where that is asked for. After an
/// error the sink has taken a part of it.
fn put_world<M: TaskMaker, K: Sink>(
    alloc: Global,
    asked: bool,
    world: &World<M>,
    out: &mut K,
) -> Result<(), ReadErr>
    requires { IsWhole M.Made.kind M.first world.now }
    ensures whole { OnOk result (K.sink_holds out.new ≡ appended (K.sink_holds out.old)
        (piece_if asked (state_text (setup_of world.now) (net_of M.Made.kind M.first world.now)
        (reverse (groups_of world.now))))) }
    ensures part { OnErr result (TakesPart (K.sink_holds out.old) (K.sink_holds out.new)
        (piece_if asked (state_text (setup_of world.now) (net_of M.Made.kind M.first world.now)
        (reverse (groups_of world.now))))) }
    ensures cause { HasCause (K.sink_faults out.old) (K.sink_faults out.new) result }
{
    if !asked {
        return Ok(());
    }
    let mut piece = start_piece(alloc)?;
    put_state(alloc, world, &mut piece)?;
    put_all(out, piece.as_slice())
}

/// Puts what is asked for: the trace's text, and behind it that of the state, each as one piece. After
/// an error the sink has taken a part of all that.
pub(crate) fn put_shown<M: TaskMaker, K: Sink>(
    alloc: Global,
    asked: Asked,
    world: &World<M>,
    out: &mut K,
) -> Result<(), ReadErr>
    requires { IsWhole M.Made.kind M.first world.now }
    ensures whole { OnOk result (K.sink_holds out.new ≡ appended (K.sink_holds out.old)
        (shown_by asked (setup_of world.now) (net_of M.Made.kind M.first world.now)
        (groups_of world.now))) }
    ensures part { OnErr result (TakesPart (K.sink_holds out.old) (K.sink_holds out.new)
        (shown_by asked (setup_of world.now) (net_of M.Made.kind M.first world.now)
        (groups_of world.now))) }
    ensures cause { HasCause (K.sink_faults out.old) (K.sink_faults out.new) result }
{
    put_trace(alloc, asked.trace, world.trace(), out)?;
    put_world(alloc, asked.state, world, out)
}
