//! Where crashes and restarts may stand.

ghost use Rattle.std.specs.Prelude.{◌≡◌};
ghost use Rattle.dsm_sched.specs.Crashes.{crash_behind, restart_behind, crashes_behind};

use crate::schedule::Entry;
use dsm_base::{Act, Proc, SchedErr};

/// How far crashes have come behind some entries.
#[derive(Clone, Copy, Debug, PartialEq, Eq)]
pub enum Crashes {
    /// No processor has crashed.
    Before,
    /// This one has, and is down.
    Down(Proc),
    /// One has, and was restarted.
    After,
}

impl Crashes {
    /// A crash of a processor: `SecondCrash` where it isn't the first.
    fn crash(self, line: u32, proc: Proc) -> Result<Crashes, SchedErr>
        ensures { result ≡ crash_behind self line proc }
    {
        match self {
            Crashes::Before => Ok(Crashes::Down(proc)),
            _ => Err(SchedErr::SecondCrash { line }),
        }
    }

    /// A restart of a processor: `NoCrash` where it isn't down.
    fn restart(self, line: u32, proc: Proc) -> Result<Crashes, SchedErr>
        ensures { result ≡ restart_behind self line proc }
    {
        match self {
            Crashes::Down(down) if down.0 == proc.0 => Ok(Crashes::After),
            _ => Err(SchedErr::NoCrash { line }),
        }
    }

    /// How far they have come behind one more entry, at this line. `SecondCrash` or `NoCrash` where it
    /// may not stand there.
    pub(crate) fn behind(self, line: u32, entry: Entry) -> Result<Crashes, SchedErr>
        ensures { result ≡ crashes_behind self line entry }
    {
        match entry {
            Entry::Unit(Act::Crash(proc), _) => self.crash(line, proc),
            Entry::Unit(Act::Torn(proc, _), _) => self.crash(line, proc),
            Entry::Unit(Act::Restart(proc), _) => self.restart(line, proc),
            _ => Ok(self),
        }
    }
}
