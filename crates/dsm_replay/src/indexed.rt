//! A report in which entries are found by their keys.

ghost use Rattle.std.specs.Prelude.{◌≡◌, IfOk};
ghost use Rattle.std.specs.Option.{option_copied};
ghost use Rattle.dsm_replay.specs.Reports.{version_granted, version_recorded, epoch_opened, lines_made, lines_arrived};

use crate::places::Places;
use dsm_base::{Bar, Lock, MemFault};
use dsm_lines::LineList;
use dsm_msg::Report;
use std::alloc::Global;
use std::marker::Model;

/// A report, with the places of its entries.
#[derive(Drop)]
pub(crate) struct Indexed {
    report: Report,
    grants: Places,
    openings: Places,
    records: Places,
    versions: Places,
    arrivals: Places,
}

impl Model for Indexed {
    ghost use Rattle.dsm_msg.specs.declared.message.Report.{Report};
    ghost use Rattle.dsm_replay.specs.Kept.{ArePlaces};

    ghost Value = { Report };

    ghost view = { λ it. it.report };

    ghost invariant = { λ it.
        ArePlaces it.report it.grants it.openings it.records it.versions it.arrivals };
}

impl Indexed {
    /// The report with its places. `MemFault` comes out of memory.
    pub(crate) fn new(alloc: Global, report: Report) -> Result<Indexed, MemFault>
        ensures { IfOk result (λ it. it ≡ report) }
    {
        let grants = Places::of(alloc, report.grants.as_slice())?;
        let openings = Places::of(alloc, report.openings.as_slice())?;
        let records = Places::of(alloc, report.records.as_slice())?;
        let versions = Places::of(alloc, report.versions.as_slice())?;
        let arrivals = Places::of(alloc, report.arrivals.as_slice())?;
        Ok(Indexed {
            report,
            grants,
            openings,
            records,
            versions,
            arrivals,
        })
    }

    pub(crate) fn report(&self) -> &Report
        ensures { result.now ≡ self.now }
    {
        &self.report
    }

    /// The version of the first grant of a lock for a turn.
    pub(crate) fn version_granted(&self, turn: u32, lock: Lock) -> Option<u32>
        ensures { result ≡ version_granted turn lock.0 self.now }
    {
        let grants = self.report.grants.as_slice();
        let grant = self.grants.find(grants, turn, lock.0)?;
        Some(grant.version)
    }

    /// The version of the first record of a lock of a turn.
    pub(crate) fn version_recorded(&self, turn: u32, lock: Lock) -> Option<u32>
        ensures { result ≡ version_recorded turn lock.0 self.now }
    {
        let records = self.report.records.as_slice();
        let taken = self.records.find(records, turn, lock.0)?;
        Some(taken.version)
    }

    /// The epoch of the first opening of a barrier for a turn.
    pub(crate) fn epoch_opened(&self, turn: u32, bar: Bar) -> Option<u32>
        ensures { result ≡ epoch_opened turn bar.0 self.now }
    {
        let openings = self.report.openings.as_slice();
        let opening = self.openings.find(openings, turn, u16::from(bar.0))?;
        Some(opening.epoch)
    }

    /// The lines with which the sender made a version of a lock.
    pub(crate) fn lines_made(&self, lock: Lock, version: u32) -> Option<&LineList>
        ensures { option_copied result ≡ lines_made lock.0 version self.now }
    {
        let versions = self.report.versions.as_slice();
        let made = self.versions.find(versions, version, lock.0)?;
        Some(&made.lines)
    }

    /// The lines that the sender's arrival brought, which ended this epoch of a barrier.
    pub(crate) fn lines_arrived(&self, bar: Bar, ended: u32) -> Option<&LineList>
        ensures { option_copied result ≡ lines_arrived bar.0 ended self.now }
    {
        let arrivals = self.report.arrivals.as_slice();
        let arrival = self.arrivals.find(arrivals, ended, u16::from(bar.0))?;
        Some(&arrival.lines)
    }
}
