//! The standard output of the host.

ghost use Rattle.std.specs.Prelude.{◌≡◌};

use crate::count::{counted_or_memory, raise};
use dsm_base::{ReadErr, Sink};
use std::io::Write;

/// The standard output, or another writer of the host.
#[derive(Drop)]
pub struct StdSink<W: Write + Drop> {
    writer: W,
    faults: u64,
}

impl<W: Write + Drop> StdSink<W> {
    /// A sink that writes there; nothing is written yet.
    pub fn new(writer: W) -> StdSink<W>
        ensures { result.faults ≡ 0 }
    {
        StdSink { writer, faults: 0 }
    }
}

impl<W: Write + Drop> Sink for StdSink<W> {
    ghost use Rattle.std.specs.Prelude.{None};

    ghost sink_holds = { λ _. None };

    ghost sink_faults = { λ sink. sink.faults };

    /// A writer that takes nothing of some bytes has failed.
    fn put(&mut self, bytes: &[u8]) -> Result<usize, ReadErr> {
        let answer = self.writer.write(bytes);
        let taken = counted_or_memory(&mut self.faults, answer)?;
        if taken == 0 && !bytes.is_empty() {
            raise(&mut self.faults);
            return Err(ReadErr::Failed);
        }
        Ok(taken)
    }

    fn faults(&self) -> u64 {
        self.faults
    }
}
