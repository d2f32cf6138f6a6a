//! The reports that come.

ghost use Rattle.std.specs.Prelude.{◌≡◌, ◌<◌, ℕ, Some, None, IfOk, OnOk, vec_len, is_some, max, ◌||◌, ◌==◌};
ghost use Rattle.dsm_base.specs.Family.{family_of, update};

use crate::indexed::Indexed;
use dsm_base::{MemFault, Proc};
use dsm_msg::Report;
use std::alloc::Global;

/// What has come to a processor that was restarted: the reports of others, by processor, and the
/// greatest number of its own turns that they tell to have been seen.
#[derive(Drop)]
pub struct Gather {
    pub(crate) alloc: Global,
    pub(crate) me: Proc,
    pub(crate) procs: u8,
    pub(crate) reports: Vec<Option<Indexed>>,
    pub(crate) seen: u32,
    ghost within: { me.0 < procs },
}

/// Makes a place for a processor's report where there is none yet.
fn reach(reports: &mut Vec<Option<Indexed>>, index: usize) -> Result<(), MemFault>
    ensures reached { OnOk result (index < vec_len reports.new) }
    ensures same { (q : ℕ) → family_of (λ p. None) reports.new.items q
        ≡ family_of (λ p. None) reports.old.items q }
{
    while reports.len() <= index {
        reports.push(None)?;
    }
    Ok(())
}

/// Whether a processor's report is among these.
fn has(reports: &[Option<Indexed>], index: usize) -> bool
    ensures { result ≡ is_some (family_of (λ p. None) reports.now index) }
{
    match reports.get(index) {
        Some(report) => report.is_some(),
        None => false,
    }
}

impl Gather {
    ghost use Rattle.dsm_replay.specs.Gathering.{gathered_by, gathered_with, have_all_told, none_gathered};

    /// No report has come to this processor, of so many. It takes no memory.
    pub fn new(alloc: Global, me: Proc, procs: u8) -> Gather
        requires { me.0 < procs }
        ensures gathered { gathered_by result ≡ none_gathered }
        ensures me { result.me ≡ me }
        ensures procs { result.procs ≡ procs }
    {
        Gather {
            alloc,
            me,
            procs,
            reports: Vec::new(alloc),
            seen: 0,
        }
    }

    /// Whether no report of a processor is wanted any more.
    fn is_told(&self, q: u8) -> bool
        ensures { result ≡ ((q == self.now.me.0) || is_some ((gathered_by self.now).reports q)) }
    {
        q == self.me.0 || has(self.reports.as_slice(), usize::from(q))
    }

    /// Whether the reports of all others have come.
    fn all_told(&self) -> bool
        ensures { result ≡ have_all_told self.now.procs self.now.me.0 (gathered_by self.now) }
    {
        for q in 0..self.procs {
            if !self.is_told(q) {
                return false;
            }
        }
        true
    }

    /// Keeps a report. `MemFault` comes out of memory.
    fn keep(&mut self, from: Proc, seen: u32, report: Report) -> Result<(), MemFault>
        ensures gathered { OnOk result (gathered_by self.new ≡ record {
          reports = update (gathered_by self.old).reports from.0 (Some report);
          seen = max (gathered_by self.old).seen seen;
        }) }
        ensures me { self.new.me ≡ self.old.me }
        ensures procs { self.new.procs ≡ self.old.procs }
    {
        let indexed = Indexed::new(self.alloc, report)?;
        reach(&mut self.reports, from.index())?;
        self.reports[from.index()] = Some(indexed);
        self.seen = self.seen.max(seen);
        Ok(())
    }

    /// A report has come in a message that tells how many turns of this processor its sender had
    /// seen. Answers whether the reports of all others are in. A report of this processor itself,
    /// or a second one of another, changes nothing. `MemFault` comes out of memory.
    pub fn report(&mut self, from: Proc, seen: u32, report: Report) -> Result<bool, MemFault>
        ensures all { IfOk result (λ all.
            all ≡ have_all_told self.new.procs self.new.me.0 (gathered_by self.new)) }
        ensures gathered { OnOk result (gathered_by self.new ≡
            gathered_with self.old.me.0 (gathered_by self.old) from.0 seen report) }
        ensures me { self.new.me ≡ self.old.me }
        ensures procs { self.new.procs ≡ self.old.procs }
    {
        if self.is_told(from.0) {
            return Ok(self.all_told());
        }
        self.keep(from, seen, report)?;
        Ok(self.all_told())
    }
}
