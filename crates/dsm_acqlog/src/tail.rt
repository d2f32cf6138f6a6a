//! The last turns of a processor.

ghost use Rattle.std.specs.Prelude.{◌≡◌, ◌↔◌, [], IsTrue, nat_le, OnOk, IfOk};
ghost use Rattle.std.specs.List.{list_all};
ghost use Rattle.dsm_acqlog.specs.Tails.{TailState, beyond, learned, safe_lines, unsafe_lines, with_line, with_take};

use dsm_base::{Lock, MemFault, Pending, PendingLine, Record, Records, Text};
use sqlite_items::Items;
use std::alloc::Global;
use std::marker::Model;

/// The last turns of a processor, as far as others may not know of them: up to which turn its records
/// are known to be held elsewhere, the records beyond, and the printed lines that aren't out.
#[derive(Drop)]
pub struct Tail {
    alloc: Global,
    known: u32,
    records: Records,
    lines: Pending,
}

impl Model for Tail {
    ghost use Rattle.dsm_acqlog.specs.Tails.{TailState};

    ghost Value = { TailState };

    ghost view = { λ tail. record { known = tail.known; records = tail.records; lines = tail.lines } };
}

impl Tail {
    /// No turns yet. It takes memory only when one is noted.
    pub fn new(alloc: Global) -> Tail
        ensures known { result.known ≡ 0 }
        ensures records { result.records ≡ [] }
        ensures lines { result.lines ≡ [] }
    {
        Tail {
            alloc,
            known: 0,
            records: Items::new(alloc),
            lines: Items::new(alloc),
        }
    }

    /// Notes that a lock of the processor's own home was taken in this turn, at this version. `MemFault`
    /// is out of memory.
    pub fn note_take(&mut self, turn: u32, lock: Lock, version: u32) -> Result<(), MemFault>
        ensures { OnOk result (self.new ≡ with_take self.old turn lock version) }
    {
        if turn > self.known {
            self.records.push(Record {
                turn,
                lock,
                version,
            })?;
        }
        Ok(())
    }

    /// Notes a line that was printed in this turn. `MemFault` is out of memory.
    pub fn note_line(&mut self, turn: u32, text: Text) -> Result<(), MemFault>
        ensures { OnOk result (self.new ≡ with_line self.old turn text) }
    {
        self.lines.push(PendingLine { turn, text })?;
        Ok(())
    }

    /// The records up to this turn are held elsewhere. Answers the lines that now go out. `MemFault` is
    /// out of memory.
    pub fn learn(&mut self, turn: u32) -> Result<Pending, MemFault>
        ensures tail { OnOk result (self.new ≡ learned self.old turn) }
        ensures outs { IfOk result
            (λ outs. outs ≡ safe_lines (learned self.old turn).records self.old.lines) }
    {
        self.known = self.known.max(turn);
        self.records = records_beyond(self.alloc, self.known, self.records.as_slice())?;
        take_safe(self.alloc, self.records.as_slice(), &mut self.lines)
    }

    /// The records that aren't known to be held and the lines that aren't safe, as each message carries
    /// them. `MemFault` is out of memory.
    pub fn carried(&self) -> Result<(Records, Pending), MemFault>
        ensures records { IfOk result (λ carried. carried.0 ≡ self.now.records) }
        ensures lines { IfOk result
            (λ carried. carried.1 ≡ unsafe_lines self.now.records self.now.lines) }
    {
        let records = Items::from_slice(self.alloc, self.records.as_slice())?;
        let lines = copy_unsafe(self.alloc, self.records.as_slice(), self.lines.as_slice())?;
        Ok((records, lines))
    }

    /// Whether all records are known to be held.
    pub fn all_held(&self) -> bool
        ensures { IsTrue result ↔ (self.now.records ≡ []) }
    {
        self.records.is_empty()
    }

    /// The turn up to which records are known to be held.
    pub fn held(&self) -> u32
        ensures { result ≡ self.now.known }
    {
        self.known
    }
}

/// The records beyond what is known to be held.
fn records_beyond(alloc: Global, known: u32, records: &[Record]) -> Result<Records, MemFault>
    ensures { IfOk result (λ left. left ≡ beyond known records.now) }
{
    let mut left = Items::new(alloc);
    for taken in records {
        if taken.turn > known {
            left.push(*taken)?;
        }
    }
    Ok(left)
}

/// Whether a line of this turn is safe, these records being all that aren't known to be held.
fn is_safe_turn(records: &[Record], turn: u32) -> bool
    ensures { result ≡ list_all (λ taken. nat_le turn taken.turn) records.now }
{
    records.iter().all(|taken| turn <= taken.turn)
}

/// Takes the safe lines out of these.
fn take_safe(alloc: Global, records: &[Record], lines: &mut Pending) -> Result<Pending, MemFault>
    ensures outs { IfOk result (λ outs. outs ≡ safe_lines records.now lines.old) }
    ensures left { OnOk result (lines.new ≡ unsafe_lines records.now lines.old) }
{
    let mut outs = Items::new(alloc);
    let mut at = 0;
    while at < lines.len() {
        if is_safe_turn(records, lines.as_slice()[at].turn) {
            outs.push(lines.remove(at))?;
        } else {
            at += 1;
        }
    }
    Ok(outs)
}

/// Copies of the lines that aren't safe.
fn copy_unsafe(
    alloc: Global,
    records: &[Record],
    lines: &[PendingLine],
) -> Result<Pending, MemFault>
    ensures { IfOk result (λ left. left ≡ unsafe_lines records.now lines.now) }
{
    let mut left = Items::new(alloc);
    for line in lines {
        if !is_safe_turn(records, line.turn) {
            let text = Text::from_slice(alloc, line.text.as_slice())?;
            left.push(PendingLine {
                turn: line.turn,
                text,
            })?;
        }
    }
    Ok(left)
}
