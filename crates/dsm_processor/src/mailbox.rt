//! The mailbox.

ghost use Rattle.std.specs.Prelude.{◌≡◌, ◌++◌, ◌∷◌, [], find, position, OnOk};
ghost use Rattle.std.specs.Option.{option_copied};
ghost use Rattle.dsm_net.specs.Inputs.{is_grant_for, is_opening_of};
ghost use Rattle.dsm_net.specs.Turns.{mail_after};
ghost use Rattle.dsm_processor.specs.Mailbox.{no_mail, later_grants, later_openings, lines_in};

use dsm_base::{Bar, Lock, MemFault};
use dsm_lines::{LineList, MailGrant, MailOpening};
use std::alloc::Global;
use std::marker::Model;

/// The grants and openings for the coming turns of a processor, each in the order in which they came.
#[derive(Debug, Drop)]
pub struct Mailbox {
    grants: Vec<MailGrant>,
    openings: Vec<MailOpening>,
}

impl Model for Mailbox {
    ghost use Rattle.dsm_net.specs.Processor.{Mail};

    ghost Value = { Mail };

    ghost view = { λ mailbox. record { grants = mailbox.grants.items; openings = mailbox.openings.items } };
}

/// Whether a grant is of this lock and for this turn.
fn is_grant_for(grant: &MailGrant, turn: u32, lock: Lock) -> bool
    ensures { result ≡ is_grant_for turn lock.0 grant.now }
{
    grant.turn == turn && grant.lock.0 == lock.0
}

/// Where the grant of a lock for a turn is.
fn place_of(grants: &[MailGrant], turn: u32, lock: Lock) -> Option<usize>
    ensures { result ≡ position (is_grant_for turn lock.0) grants.now }
{
    grants
        .iter()
        .position(|grant| is_grant_for(grant, turn, lock))
}

/// Takes out the grant of a lock for a turn.
fn take_grant(grants: &mut Vec<MailGrant>, turn: u32, lock: Lock) -> Option<MailGrant>
    ensures grant { result ≡ find (is_grant_for turn lock.0) grants.old.items }
    ensures later { later_grants turn grants.new.items ≡ later_grants turn grants.old.items }
{
    let place = place_of(grants.as_slice(), turn, lock)?;
    Some(grants.remove(place))
}

/// Keeps the grants for turns after this one.
fn keep_later(grants: &mut Vec<MailGrant>, turn: u32)
    ensures { grants.new.items ≡ later_grants turn grants.old.items }
{
    grants.retain(|grant| turn < grant.turn);
}

/// Whether an opening is of this barrier and into this epoch.
fn is_opening_of(opening: &MailOpening, bar: Bar, epoch: u32) -> bool
    ensures { result ≡ is_opening_of bar.0 epoch opening.now }
{
    opening.bar.0 == bar.0 && opening.epoch == epoch
}

/// Keeps the openings for turns after this one.
fn keep_openings(openings: &mut Vec<MailOpening>, turn: u32)
    ensures { openings.new.items ≡ later_openings turn openings.old.items }
{
    openings.retain(|opening| turn < opening.turn);
}

impl Mailbox {
    /// A mailbox to which nothing has come.
    pub fn new(alloc: Global) -> Mailbox
        ensures { result ≡ no_mail }
    {
        Mailbox {
            grants: Vec::new(alloc),
            openings: Vec::new(alloc),
        }
    }

    /// Puts a grant into it. `MemFault` comes out of memory.
    pub fn put(&mut self, grant: MailGrant) -> Result<(), MemFault>
        ensures { OnOk result (self.new ≡
            record self.old { grants = self.old.grants ++ grant ∷ [] }) }
    {
        self.grants.push(grant)?;
        Ok(())
    }

    /// Puts these grants into it, in their order. `MemFault` comes out of memory.
    pub fn put_all(&mut self, grants: Vec<MailGrant>) -> Result<(), MemFault>
        ensures { OnOk result (self.new ≡
            record self.old { grants = self.old.grants ++ grants.items }) }
    {
        let mut grants = grants;
        self.grants.append(&mut grants)?;
        Ok(())
    }

    /// Puts an opening into it. `MemFault` comes out of memory.
    pub fn put_opening(&mut self, opening: MailOpening) -> Result<(), MemFault>
        ensures { OnOk result (self.new ≡
            record self.old { openings = self.old.openings ++ opening ∷ [] }) }
    {
        self.openings.push(opening)?;
        Ok(())
    }

    /// Puts these openings into it, in their order. `MemFault` comes out of memory.
    pub fn put_openings(&mut self, openings: Vec<MailOpening>) -> Result<(), MemFault>
        ensures { OnOk result (self.new ≡
            record self.old { openings = self.old.openings ++ openings.items }) }
    {
        let mut openings = openings;
        self.openings.append(&mut openings)?;
        Ok(())
    }

    /// The grant of a lock for a turn.
    pub fn grant_for(&self, turn: u32, lock: Lock) -> Option<&MailGrant>
        ensures { option_copied result ≡ find (is_grant_for turn lock.0) self.now.grants }
    {
        self.grants
            .iter()
            .find(|grant| is_grant_for(grant, turn, lock))
    }

    /// The opening of a barrier into an epoch.
    pub fn opening_of(&self, bar: Bar, epoch: u32) -> Option<&MailOpening>
        ensures { option_copied result ≡ find (is_opening_of bar.0 epoch) self.now.openings }
    {
        self.openings
            .iter()
            .find(|opening| is_opening_of(opening, bar, epoch))
    }

    /// Takes the lines of the grant of a lock for a turn out of it, none where there is no such grant; what
    /// has come for later turns is kept.
    pub fn collect(&mut self, alloc: Global, turn: u32, lock: Lock) -> LineList
        ensures lines { result ≡ lines_in (find (is_grant_for turn lock.0) self.old.grants) }
        ensures kept { self.new ≡ mail_after self.old turn }
    {
        let lines = match take_grant(&mut self.grants, turn, lock) {
            None => LineList::new(alloc),
            Some(MailGrant { lines, .. }) => lines,
        };
        self.keep_later(turn);
        lines
    }

    /// Keeps what has come for turns after this one.
    pub fn keep_later(&mut self, turn: u32)
        ensures { self.new ≡ mail_after self.old turn }
    {
        keep_later(&mut self.grants, turn);
        keep_openings(&mut self.openings, turn);
    }
}
