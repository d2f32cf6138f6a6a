//! The lines of a unit go out.

ghost use Rattle.std.specs.Prelude.{◌≡◌, OnOk, OnErr};
ghost use Rattle.dsm_base.specs.Causes.{HasCause};
ghost use Rattle.dsm_base.specs.Sink.{appended, TakesPart};
ghost use Rattle.dsm_top.specs.Runs.{joined};

use crate::output::put_all;
use dsm_base::{PrintedLines, ReadErr, Sink};

/// Puts lines into the sink one by one, each until it is taken whole. After an error the sink has
/// taken a part of them.
pub(crate) fn put_lines<K: Sink>(out: &mut K, lines: &PrintedLines) -> Result<(), ReadErr>
    ensures whole { OnOk result
        (K.sink_holds out.new ≡ appended (K.sink_holds out.old) (joined lines.now)) }
    ensures part { OnErr result
        (TakesPart (K.sink_holds out.old) (K.sink_holds out.new) (joined lines.now)) }
    ensures cause { HasCause (K.sink_faults out.old) (K.sink_faults out.new) result }
{
    for line in lines.as_slice() {
        put_all(out, line.as_slice())?;
    }
    Ok(())
}
