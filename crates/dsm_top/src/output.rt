//! What is written to the sink.

ghost use Rattle.std.specs.Prelude.{◌≡◌, OnOk, OnErr};
ghost use Rattle.dsm_base.specs.Causes.{HasCause};
ghost use Rattle.dsm_base.specs.Sink.{appended, TakesPart};

use dsm_base::{ReadErr, Sink};

/// Puts a piece into the sink until it is taken whole. After an error the sink has taken a part of it.
pub(crate) fn put_all<K: Sink>(out: &mut K, bytes: &[u8]) -> Result<(), ReadErr>
    ensures whole { OnOk result (K.sink_holds out.new ≡ appended (K.sink_holds out.old) bytes.now) }
    ensures part { OnErr result
        (TakesPart (K.sink_holds out.old) (K.sink_holds out.new) bytes.now) }
    ensures cause { HasCause (K.sink_faults out.old) (K.sink_faults out.new) result }
{
    let mut done = 0;
    while done < bytes.len() {
        done += out.put(&bytes[done..])?;
    }
    Ok(())
}
