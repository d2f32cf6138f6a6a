//! The log of grants, openings and records.

ghost use Rattle.std.specs.Prelude.{◌≡◌, [], ◌∷◌, OnOk, IfOk};
ghost use Rattle.std.specs.Option.{option_copied, option_map};
ghost use Rattle.dsm_base.specs.Family.{update};
ghost use Rattle.dsm_segments.specs.Entries.{IsRising, entries};
ghost use Rattle.dsm_acqlog.specs.Logs.{is_later, grants_of, openings_of, records_of, with_grant, with_opening, with_records, grants_behind, openings_behind, records_behind, grants_over, openings_over, records_over};

use dsm_base::{Bar, Lock, LoggedGrant, LoggedOpening, MemFault, Mode, Proc, Record, Records};
use dsm_msg::Logged;
use dsm_segments::Segments;
use std::alloc::Global;

/// The grants and openings that a processor has sent, and the records of others that it keeps, by
/// processor.
#[derive(Drop)]
pub struct AcquireLog {
    grants: Segments<LoggedGrant>,
    openings: Segments<LoggedOpening>,
    records: Segments<Record>,
}

impl AcquireLog {
    /// An empty log. It takes memory only when something is logged.
    pub fn new(alloc: Global) -> AcquireLog
        ensures grants { result.grants ≡ [] }
        ensures openings { result.openings ≡ [] }
        ensures records { result.records ≡ [] }
    {
        AcquireLog {
            grants: Segments::new(alloc),
            openings: Segments::new(alloc),
            records: Segments::new(alloc),
        }
    }

    /// Logs a grant that is sent: the turn in which the lock may be taken, how, and at which version.
    /// It costs the same whatever the log holds. `MemFault` is out of memory.
    pub fn grant(
        &mut self,
        to: Proc,
        turn: u32,
        lock: Lock,
        mode: Mode,
        version: u32,
    ) -> Result<(), MemFault>
        ensures logged { OnOk result
            (grants_of self.new ≡ with_grant (grants_of self.old) to turn lock mode version) }
        ensures openings { self.new.openings ≡ self.old.openings }
        ensures records { self.new.records ≡ self.old.records }
    {
        let sent = LoggedGrant {
            turn,
            lock,
            mode,
            version,
        };
        self.grants.push(to.index(), sent)
    }

    /// Logs an opening that is sent: the turn in which the barrier may be crossed, and the new epoch.
    /// It costs the same whatever the log holds. `MemFault` is out of memory.
    pub fn opening(&mut self, to: Proc, turn: u32, bar: Bar, epoch: u32) -> Result<(), MemFault>
        ensures logged { OnOk result
            (openings_of self.new ≡ with_opening (openings_of self.old) to turn bar epoch) }
        ensures grants { self.new.grants ≡ self.old.grants }
        ensures records { self.new.records ≡ self.old.records }
    {
        let sent = LoggedOpening { turn, bar, epoch };
        self.openings.push(to.index(), sent)
    }

    /// Keeps the records that a processor's message brought, but for each whose turn isn't over that of
    /// the last record of it that the log then has. `MemFault` is out of memory.
    pub fn keep(&mut self, from: Proc, records: &Records) -> Result<(), MemFault>
        ensures kept { OnOk result (records_of self.new ≡ update (records_of self.old) from.0
            (with_records (records_of self.old from.0) records.now)) }
        ensures grants { self.new.grants ≡ self.old.grants }
        ensures openings { self.new.openings ≡ self.old.openings }
    {
        for taken in records.as_slice() {
            keep_later(&mut self.records, from.index(), *taken)?;
        }
        Ok(())
    }

    /// What was logged and kept of a processor, each list in the order of logging. `MemFault` is out of
    /// memory.
    pub fn of(&self, p: Proc) -> Result<Logged, MemFault>
        ensures grants { IfOk result (λ logged. logged.grants ≡ grants_of self.now p.0) }
        ensures openings { IfOk result (λ logged. logged.openings ≡ openings_of self.now p.0) }
        ensures records { IfOk result (λ logged. logged.records ≡ records_of self.now p.0) }
    {
        Ok(Logged {
            grants: self.grants.all(p.index())?,
            openings: self.openings.all(p.index())?,
            records: self.records.all(p.index())?,
        })
    }

    /// Lets the grants and openings to a processor, and the records of it, go up to a turn, from the
    /// front. It takes no memory. Where the turns rise, these are all that are not over it.
    pub fn prune(&mut self, p: Proc, upto: u32)
        ensures grants { grants_of self.new
            ≡ update (grants_of self.old) p.0 (grants_behind upto (grants_of self.old p.0)) }
        ensures openings { openings_of self.new
            ≡ update (openings_of self.old) p.0 (openings_behind upto (openings_of self.old p.0)) }
        ensures records { records_of self.new
            ≡ update (records_of self.old) p.0 (records_behind upto (records_of self.old p.0)) }
        ensures pruned_grants { IsRising (λ grant. grant.turn) (grants_of self.old p.0)
            → grants_of self.new p.0 ≡ grants_over upto (grants_of self.old p.0) }
        ensures pruned_openings { IsRising (λ opening. opening.turn) (openings_of self.old p.0)
            → openings_of self.new p.0 ≡ openings_over upto (openings_of self.old p.0) }
        ensures pruned_records { IsRising (λ taken. taken.turn) (records_of self.old p.0)
            → records_of self.new p.0 ≡ records_over upto (records_of self.old p.0) }
    {
        self.grants.prune(p.index(), upto);
        self.openings.prune(p.index(), upto);
        self.records.prune(p.index(), upto);
    }

    /// Lets all grants and openings go that were logged as sent. It takes no memory.
    pub fn forget_sent(&mut self)
        ensures grants { self.new.grants ≡ [] }
        ensures openings { self.new.openings ≡ [] }
        ensures records { self.new.records ≡ self.old.records }
    {
        self.grants.clear();
        self.openings.clear();
    }
}

/// Whether a turn is over that of the last record, if there is one.
fn is_later(last: Option<&Record>, turn: u32) -> bool
    ensures { result ≡ is_later (option_map (λ taken. taken.turn) (option_copied last.entry)) turn }
{
    match last {
        Some(last) => last.turn < turn,
        None => true,
    }
}

/// Keeps a record where its turn is over that of the last one of that processor.
fn keep_later(records: &mut Segments<Record>, from: usize, taken: Record) -> Result<(), MemFault>
    ensures { OnOk result (entries records.new ≡ update (entries records.old) from
        (with_records (entries records.old from) (taken ∷ []))) }
{
    if !is_later(records.last(from), taken.turn) {
        return Ok(());
    }
    records.push(from, taken)
}
