//! What answers turns that are made again.

ghost use Rattle.std.specs.Prelude.{◌≡◌, ◌<◌, ◌==◌, ◌||◌, true, is_some, IfOk};
ghost use Rattle.std.specs.Option.{option_copied, option_and_then};
ghost use Rattle.dsm_barrier.specs.BarrierStates.{lines_of_others};
ghost use Rattle.dsm_replay.specs.Reports.{version_granted, version_recorded, epoch_opened, lines_made, lines_arrived, first_told};
ghost use Rattle.dsm_replay.specs.Newest.{newest_lines};

use crate::gather::Gather;
use crate::indexed::Indexed;
use crate::merged::Merged;
use dsm_base::{Bar, Lock, MemFault, Mode, Proc};
use dsm_lines::{Line, LineList};
use dsm_msg::Report;
use std::alloc::Global;

/// What a thread waits for: to take a lock, or to cross a barrier into an epoch.
#[derive(Clone, Copy, Debug, PartialEq, Eq)]
pub enum Waited {
    Take(Lock, Mode),
    Cross(Bar, u32),
}

/// What it gets: the version of the lock, or the epoch that begins.
#[derive(Clone, Copy, Debug, PartialEq, Eq)]
pub enum Input {
    Take(Lock, u32),
    Cross(Bar, u32),
}

/// The reports of all others, and up to which turn this processor makes its turns again.
#[derive(Drop)]
pub struct Replay {
    pub(crate) alloc: Global,
    pub(crate) me: Proc,
    pub(crate) procs: u8,
    pub(crate) reports: Vec<Option<Indexed>>,
    pub(crate) bound: u32,
    ghost within: { me.0 < procs },
}

impl Replay {
    ghost use Rattle.dsm_replay.specs.Gathering.{gathered_by, have_all_told};
    ghost use Rattle.dsm_replay.specs.Inputs.{replay_bound, version_told, have_all_arrived, is_open, epoch_told, input_told, lines_of_version, lines_brought, lines_told};
    ghost use Rattle.dsm_replay.specs.Replays.{told_to};

    /// The replay by the reports that have come, from an image of this turn, where the last line
    /// that is out was printed in that turn.
    pub fn new(gather: Gather, image_turn: u32, printed: u32) -> Result<Replay, MemFault>
        requires { have_all_told gather.procs gather.me.0 (gathered_by gather) ≡ true }
        ensures bound { IfOk result (λ replay. replay.bound ≡
            replay_bound image_turn gather.seen printed) }
        ensures told { IfOk result (λ replay. told_to replay ≡ record {
          me = gather.me.0;
          procs = gather.procs;
          reports = (gathered_by gather).reports;
        }) }
    {
        let Gather {
            alloc,
            me,
            procs,
            reports,
            seen,
        } = gather;
        Ok(Replay {
            alloc,
            me,
            procs,
            reports,
            bound: image_turn.max(seen.max(printed)),
        })
    }

    /// The turn up to which turns are made again.
    pub fn bound(&self) -> u32
        ensures { result ≡ self.now.bound }
    {
        self.bound
    }

    fn told(&self, q: u8) -> Option<&Indexed>
        ensures { option_copied result ≡ (told_to self.now).reports q }
    {
        match self.reports.get(usize::from(q)) {
            Some(report) => report.as_ref(),
            None => None,
        }
    }

    /// The report of a processor.
    pub fn report(&self, q: Proc) -> Option<&Report>
        ensures { option_copied result ≡ (told_to self.now).reports q.0 }
    {
        let told = self.told(q.0)?;
        Some(told.report())
    }

    fn granted_by(&self, q: u8, turn: u32, lock: Lock) -> Option<u32>
        ensures { result ≡
            option_and_then (version_granted turn lock.0) ((told_to self.now).reports q) }
    {
        self.told(q)?.version_granted(turn, lock)
    }

    fn recorded_by(&self, q: u8, turn: u32, lock: Lock) -> Option<u32>
        ensures { result ≡
            option_and_then (version_recorded turn lock.0) ((told_to self.now).reports q) }
    {
        self.told(q)?.version_recorded(turn, lock)
    }

    fn opened_by(&self, q: u8, turn: u32, bar: Bar) -> Option<u32>
        ensures { result ≡
            option_and_then (epoch_opened turn bar.0) ((told_to self.now).reports q) }
    {
        self.told(q)?.epoch_opened(turn, bar)
    }

    fn made_by(&self, q: u8, lock: Lock, version: u32) -> Option<&LineList>
        ensures { option_copied result ≡
            option_and_then (lines_made lock.0 version) ((told_to self.now).reports q) }
    {
        self.told(q)?.lines_made(lock, version)
    }

    fn arrived_by(&self, q: u8, bar: Bar, ended: u32) -> Option<&LineList>
        ensures { option_copied result ≡
            option_and_then (lines_arrived bar.0 ended) ((told_to self.now).reports q) }
    {
        self.told(q)?.lines_arrived(bar, ended)
    }

    #[tactic(auto, using(crate::proofs::Telling::first_more))]
    fn version_granted(&self, turn: u32, lock: Lock) -> Option<u32>
        ensures { result ≡ first_told self.now.procs (told_to self.now).reports
            (version_granted turn lock.0) }
    {
        let mut version = None;
        for q in 0..self.procs {
            version = version.or(self.granted_by(q, turn, lock));
        }
        version
    }

    #[tactic(auto, using(crate::proofs::Telling::first_more))]
    fn version_recorded(&self, turn: u32, lock: Lock) -> Option<u32>
        ensures { result ≡ first_told self.now.procs (told_to self.now).reports
            (version_recorded turn lock.0) }
    {
        let mut version = None;
        for q in 0..self.procs {
            version = version.or(self.recorded_by(q, turn, lock));
        }
        version
    }

    #[tactic(auto, using(crate::proofs::Telling::first_more))]
    fn epoch_opened(&self, turn: u32, bar: Bar) -> Option<u32>
        ensures { result ≡ first_told self.now.procs (told_to self.now).reports
            (epoch_opened turn bar.0) }
    {
        let mut epoch = None;
        for q in 0..self.procs {
            epoch = epoch.or(self.opened_by(q, turn, bar));
        }
        epoch
    }

    /// Whether a processor is this one, or its report has the arrival that ends an epoch.
    fn has_arrived(&self, q: u8, bar: Bar, ended: u32) -> bool
        ensures { result ≡ ((q == self.now.me.0) ||
            is_some (option_and_then (lines_arrived bar.0 ended) ((told_to self.now).reports q))) }
    {
        q == self.me.0 || self.arrived_by(q, bar, ended).is_some()
    }

    /// Whether the reports of all others have the arrival that ends an epoch of a barrier.
    #[tactic(auto, using(crate::proofs::Telling::all_more))]
    fn have_all_arrived(&self, bar: Bar, ended: u32) -> bool
        ensures { result ≡ have_all_arrived (told_to self.now) bar.0 ended }
    {
        for q in 0..self.procs {
            if !self.has_arrived(q, bar, ended) {
                return false;
            }
        }
        true
    }

    /// Whether a barrier is managed here and all others have come to it in the epoch before.
    fn is_open(&self, bar: Bar, epoch: u32) -> bool
        ensures { result ≡ is_open (told_to self.now) bar.0 epoch }
    {
        if epoch == 0 {
            return false;
        }
        bar.0 % self.procs == self.me.0 && self.have_all_arrived(bar, epoch - 1)
    }

    fn epoch_for(&self, turn: u32, bar: Bar, epoch: u32) -> Option<u32>
        ensures { result ≡ epoch_told (told_to self.now) turn bar.0 epoch }
    {
        let own = if self.is_open(bar, epoch) {
            Some(epoch)
        } else {
            None
        };
        self.epoch_opened(turn, bar).or(own)
    }

    fn version_for(&self, turn: u32, lock: Lock) -> Option<u32>
        ensures { result ≡ version_told (told_to self.now) turn lock.0 }
    {
        self.version_granted(turn, lock)
            .or(self.version_recorded(turn, lock))
    }

    /// What the reports answer to a thread that waits in a turn: the version of the grant or of the
    /// record of that turn, or the epoch of its opening. At a barrier that is managed here it is
    /// the epoch that is waited for, where all others have arrived in the one before. None where
    /// the reports have nothing of it. It takes no memory.
    pub fn input(&self, turn: u32, what: Waited) -> Option<Input>
        ensures { result ≡ input_told (told_to self.now) turn what }
    {
        match what {
            Waited::Take(lock, _) => {
                let version = self.version_for(turn, lock)?;
                Some(Input::Take(lock, version))
            }
            Waited::Cross(bar, epoch) => {
                let new = self.epoch_for(turn, bar, epoch)?;
                Some(Input::Cross(bar, new))
            }
        }
    }

    /// The lines of the first report that has a version of a lock.
    #[tactic(auto, using(crate::proofs::Telling::first_more))]
    fn first_made(&self, lock: Lock, version: u32) -> Option<&LineList>
        ensures { option_copied result ≡ first_told self.now.procs (told_to self.now).reports
            (lines_made lock.0 version) }
    {
        let mut lines = None;
        for q in 0..self.procs {
            lines = lines.or(self.made_by(q, lock, version));
        }
        lines
    }

    fn lines_of_version(&self, lock: Lock, version: u32) -> &[Line]
        ensures { result.now ≡ lines_of_version (told_to self.now) lock.0 version }
    {
        match self.first_made(lock, version) {
            Some(lines) => lines.as_slice(),
            None => &[],
        }
    }

    /// The lines of the versions of a lock over one and up to another, of each number the newest.
    fn newest_lines(&self, lock: Lock, over: u32, upto: u32) -> Result<LineList, MemFault>
        ensures { IfOk result (λ lines. lines ≡
            newest_lines (lines_of_version (told_to self.now) lock.0) over upto) }
    {
        let mut merged = Merged::new(self.alloc);
        let mut version = upto;
        while version > over {
            merged.add(self.lines_of_version(lock, version))?;
            version -= 1;
        }
        merged.into_lines(self.alloc)
    }

    /// The lines that a processor brought to a barrier with its arrival before an epoch.
    fn lines_brought(&self, q: u8, bar: Bar, epoch: u32) -> &[Line]
        ensures { result.now ≡ lines_brought (told_to self.now) bar.0 epoch q }
    {
        if epoch == 0 {
            return &[];
        }
        match self.arrived_by(q, bar, epoch - 1) {
            Some(lines) => lines.as_slice(),
            None => &[],
        }
    }

    #[tactic(auto, using(dsm_barrier::proofs::Joining::others_joined, dsm_barrier::proofs::Joining::own_left_out))]
    fn lines_of_others(&self, bar: Bar, epoch: u32) -> Result<LineList, MemFault>
        ensures { IfOk result (λ lines. lines ≡ lines_of_others
            (lines_brought (told_to self.now) bar.0 epoch) self.now.procs self.now.me.0) }
    {
        let mut merged = Merged::new(self.alloc);
        for q in 0..self.procs {
            if q != self.me.0 {
                merged.add(self.lines_brought(q, bar, epoch))?;
            }
        }
        merged.into_lines(self.alloc)
    }

    /// The lines that an answer brings. To a take: those of the versions over the one that the own
    /// copy has, up to the one that it gets, of each line the newest. To a crossing, which doesn't
    /// use `have`: those that the others brought with their arrivals in the epoch before.
    /// `MemFault` comes out of memory.
    pub fn lines(&self, input: Input, have: u32) -> Result<LineList, MemFault>
        ensures { IfOk result (λ lines. lines ≡ lines_told (told_to self.now) input «have») }
    {
        match input {
            Input::Take(lock, version) => self.newest_lines(lock, have, version),
            Input::Cross(bar, epoch) => self.lines_of_others(bar, epoch),
        }
    }
}
