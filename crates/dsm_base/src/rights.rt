//! What a processor may do, by the locks that it holds and the barriers that it has crossed.

ghost use Rattle.std.specs.Prelude.{◌≡◌, ℕ, length, IfOk, OnOk, None};
ghost use Rattle.dsm_base.specs.Family.{family_of};
ghost use Rattle.dsm_base.specs.Access.{is_phase, may_load_piece, may_store_piece};
ghost use Rattle.dsm_base.specs.Plain.{load_label, store_label, ask_label, give_label, held_after, arrived_after, crossed_after};
ghost use Rattle.dsm_base.specs.Labels.{TakesLocks, PassesBarriers};
ghost use Rattle.dsm_base.specs.Rights.{held_of, arrived_of, crossed_of, rights_of, HasSizes};

use crate::errors::MemFault;
use crate::label::Label;
use crate::names::{Bar, Cell, Fault, Lock, Mode, Proc};
use crate::setup::{Object, Piece};
use sqlite_items::Items;
use std::alloc::Global;

/// The mode in which each lock is held.
pub type Modes = Items<Option<Mode>>;

/// A number for each lock or barrier.
pub type Numbers = Items<u32>;

/// The locks that a processor holds, and how often it has come to each barrier and crossed it.
#[derive(Debug, Drop)]
pub struct Rights {
    pub(crate) held: Modes,
    pub(crate) arrived: Numbers,
    pub(crate) crossed: Numbers,
}

/// A zero for each lock or barrier.
#[tactic(auto, using(crate::proofs::Families::family_of_replicate))]
fn zeros(alloc: Global, count: usize) -> Result<Numbers, MemFault>
    ensures zeros { IfOk result (λ numbers. family_of (λ i. 0) numbers ≡ (λ i. 0)) }
    ensures length { IfOk result (λ numbers. length numbers ≡ count) }
{
    Ok(Items::from_vec(vec![in alloc; 0; count]?))
}

/// Whether the epoch of a barrier is one in which the piece's owner alone may use it.
fn is_phase(piece: &Piece, epoch: u32) -> bool
    ensures { result ≡ is_phase piece.now epoch }
{
    epoch.checked_rem(piece.period).unwrap_or(epoch) == piece.phase
}

impl Rights {
    /// Of so many locks and barriers: none is held, and none was come to. `MemFault` comes out of
    /// memory.
    #[tactic(auto, using(crate::proofs::Families::family_of_replicate))]
    pub fn new(alloc: Global, locks: u16, bars: u8) -> Result<Rights, MemFault>
        ensures sizes { IfOk result (HasSizes locks bars) }
        ensures held { IfOk result (λ rights. held_of rights ≡ (λ lock. None)) }
        ensures arrived { IfOk result (λ rights. arrived_of rights ≡ (λ bar. 0)) }
        ensures crossed { IfOk result (λ rights. crossed_of rights ≡ (λ bar. 0)) }
    {
        Ok(Rights {
            held: Items::from_vec(vec![in alloc; None; usize::from(locks)]?),
            arrived: zeros(alloc, usize::from(bars))?,
            crossed: zeros(alloc, usize::from(bars))?,
        })
    }

    /// The mode in which a lock is held.
    #[tactic(auto, using(crate::proofs::Families::flatten_item))]
    pub fn mode_at(&self, lock: Lock) -> Option<Mode>
        ensures { result ≡ held_of self.now lock.0 }
    {
        self.held.get(lock.index()).copied().flatten()
    }

    /// How often a barrier was come to.
    #[tactic(auto, using(crate::proofs::Families::items_or_default))]
    pub fn arrivals_at(&self, bar: Bar) -> u32
        ensures { result ≡ arrived_of self.now bar.0 }
    {
        self.arrived.get(bar.index()).copied().unwrap_or(0)
    }

    /// How often a barrier was crossed.
    #[tactic(auto, using(crate::proofs::Families::items_or_default))]
    pub fn crossings_at(&self, bar: Bar) -> u32
        ensures { result ≡ crossed_of self.now bar.0 }
    {
        self.crossed.get(bar.index()).copied().unwrap_or(0)
    }

    /// Whether the processor may load the cells of a piece; a cell of none may be used by nobody.
    pub fn may_load(&self, me: Proc, piece: Option<Piece>) -> bool
        ensures { result ≡ may_load_piece me.0 (rights_of self.now) piece }
    {
        let Some(piece) = piece else {
            return false;
        };
        match piece.object {
            Object::Lock(lock) => self.mode_at(lock).is_some(),
            Object::Bar(bar) => {
                !is_phase(&piece, self.crossings_at(bar)) || piece.owner == u32::from(me.0)
            }
        }
    }

    /// Whether the processor may store to the cells of a piece.
    pub fn may_store(&self, me: Proc, piece: Option<Piece>) -> bool
        ensures { result ≡ may_store_piece me.0 (rights_of self.now) piece }
    {
        let Some(piece) = piece else {
            return false;
        };
        match piece.object {
            Object::Lock(lock) => self.mode_at(lock) == Some(Mode::Excl),
            Object::Bar(bar) => {
                is_phase(&piece, self.crossings_at(bar)) && piece.owner == u32::from(me.0)
            }
        }
    }

    /// A load of a cell of this piece with this value, or a fault where it isn't allowed.
    pub fn load_label(
        &self,
        me: Proc,
        piece: Option<Piece>,
        cell: Cell,
        value: i64,
        line: u32,
    ) -> Label
        ensures { result ≡ load_label me.0 (rights_of self.now) piece cell value line }
    {
        if self.may_load(me, piece) {
            Label::Load(cell, value)
        } else {
            Label::Stop(Fault::Unbound, line)
        }
    }

    /// A store to a cell of this piece, or a fault where it isn't allowed.
    pub fn store_label(
        &self,
        me: Proc,
        piece: Option<Piece>,
        cell: Cell,
        value: i64,
        line: u32,
    ) -> Label
        ensures { result ≡ store_label me.0 (rights_of self.now) piece cell value line }
    {
        if self.may_store(me, piece) {
            Label::Store(cell, value)
        } else {
            Label::Stop(Fault::Unbound, line)
        }
    }

    /// An ask for a lock, or a fault where it is held.
    pub fn ask_label(&self, lock: Lock, mode: Mode, line: u32) -> Label
        ensures { result ≡ ask_label (rights_of self.now) lock mode line }
    {
        if self.mode_at(lock).is_some() {
            Label::Stop(Fault::Held, line)
        } else {
            Label::Ask(lock, mode)
        }
    }

    /// A lock is given back, or a fault where it isn't held.
    pub fn give_label(&self, lock: Lock, line: u32) -> Label
        ensures { result ≡ give_label (rights_of self.now) lock line }
    {
        if self.mode_at(lock).is_some() {
            Label::Give(lock)
        } else {
            Label::Stop(Fault::NotHeld, line)
        }
    }

    /// What a turn of the processor leaves. `MemFault` comes where a count doesn't fit its number; the
    /// rights are then of no more use.
    #[tactic(auto, using(crate::proofs::Families::family_of_set))]
    pub fn change(&mut self, label: &Label) -> Result<(), MemFault>
        requires locks { TakesLocks (length self.old.held) label.now }
        requires arrived { PassesBarriers (length self.old.arrived) label.now }
        requires crossed { PassesBarriers (length self.old.crossed) label.now }
        ensures held { OnOk result (held_of self.new ≡ held_after (held_of self.old) label.now) }
        ensures arrived { OnOk result (arrived_of self.new ≡
            arrived_after (arrived_of self.old) label.now) }
        ensures crossed { OnOk result (crossed_of self.new ≡
            crossed_after (crossed_of self.old) label.now) }
        ensures sizes { (locks bars : ℕ) → HasSizes locks bars self.old →
            HasSizes locks bars self.new }
    {
        match label {
            Label::Take(lock, mode, _) => self.held.set(lock.index(), Some(*mode)),
            Label::Give(lock) => self.held.set(lock.index(), None),
            Label::Arrive(bar) => {
                let count = self.arrivals_at(*bar).checked_add(1).ok_or(MemFault)?;
                self.arrived.set(bar.index(), count);
            }
            Label::Cross(bar, epoch) => self.crossed.set(bar.index(), *epoch),
            _ => {}
        }
        Ok(())
    }
}
