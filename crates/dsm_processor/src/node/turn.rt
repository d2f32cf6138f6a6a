//! The turn of a processor.

ghost use Rattle.std.specs.Prelude.{◌≡◌, ◌+◌, ◌<◌, None, Some, IfOk, IfSome, IsSomeAnd, OnOk};
ghost use Rattle.std.specs.List.{All};
ghost use Rattle.dsm_base.specs.declared.label.Want.{Want};
ghost use Rattle.dsm_base.specs.Labels.{PrintsLine};
ghost use Rattle.dsm_base.specs.Output.{line_text};
ghost use Rattle.dsm_base.specs.Threads.{AnswersTo};
ghost use Rattle.dsm_net.specs.Effects.{printed_by};

use super::{Node, Stepped};
use crate::copy::change_copy;
use crate::versions::change_versions;
use dsm_base::{
    Bar, Cell, Label, Lock, MemFault, Mode, Pending, PendingLine, Task, Text, Want, ending_after,
    line_text,
};
use dsm_lines::LineList;
use dsm_msg::Body;
use sqlite_items::Items;
use std::alloc::Global;

/// The thread goes on by a label that answers what it told.
fn finish<T: Task>(task: &mut T, label: &Label)
    requires { IsSomeAnd (T.told task.old) (λ want. AnswersTo want label.now) }
    ensures { T.kind.state task.new ≡ T.kind.semantics.after (T.kind.state task.old) label.now }
{
    match label {
        Label::Stop(fault, _) => task.stop(*fault),
        Label::Load(_, value) => task.done(*value),
        _ => task.done(0),
    }
}

/// The line that a label prints, with the number of its turn.
fn printed_by(alloc: Global, turn: u32, label: &Label) -> Result<Pending, MemFault>
    ensures { IfOk result (λ lines. lines ≡ printed_by turn (line_text label.now)) }
{
    match line_text(alloc, label)? {
        None => Ok(Items::new(alloc)),
        Some(text) => {
            let mut lines = Items::new(alloc);
            lines.push(PendingLine { turn, text })?;
            Ok(lines)
        }
    }
}

impl<T: Task> Node<T> {
    ghost use Rattle.dsm_base.specs.Rights.{held_of, crossed_of};
    ghost use Rattle.dsm_base.specs.Threads.{Names};
    ghost use Rattle.dsm_lines.specs.OwnCopies.{copy_marks, copy_memory};
    ghost use Rattle.dsm_net.specs.Inputs.{input_for};
    ghost use Rattle.dsm_net.specs.Turns.{mail_after, own_turn, own_after};
    ghost use Rattle.dsm_net.specs.Effects.{body_of, processor_after};
    ghost use Rattle.dsm_processor.specs.Copy.{given_lines};
    ghost use Rattle.dsm_processor.specs.Versions.{versions_of};
    ghost use Rattle.dsm_processor.specs.Names.{LabelNames, IsSendOf};
    ghost use Rattle.dsm_processor.specs.Node.{processor_of, setup_of, me_of, own_of, IsShaped, IsWhole, IsSameNode, number_for, input_lines, label_with, label_for, advanced, release_with, body_with, stepped_by, processor_stepped};

    /// The epoch into which a processor crosses a barrier next.
    fn next_epoch(&self, bar: Bar) -> Result<u32, MemFault>
        ensures { IfOk result (λ epoch. epoch ≡ crossed_of self.now.rights bar.0 + 1) }
    {
        self.rights.crossings_at(bar).checked_add(1).ok_or(MemFault)
    }

    /// The epoch of the opening that has come for a crossing.
    fn epoch_for(&self, bar: Bar, epoch: u32) -> Option<u32>
        requires { epoch ≡ crossed_of self.now.rights bar.0 + 1 }
        ensures { result ≡ number_for (processor_of T.kind self.now) (Want.Cross bar) }
    {
        Some(self.mail.opening_of(bar, epoch)?.epoch)
    }

    /// The version of the lock that the thread wants to take, where its grant for this turn has come, or
    /// the epoch into which it wants to cross, where its opening has; 0 for what needs no number.
    fn number_for(&self, turn: u32, want: Want) -> Result<Option<u32>, MemFault>
        requires { turn ≡ self.now.turns + 1 }
        ensures { IfOk result (λ number. number ≡ number_for (processor_of T.kind self.now) want) }
    {
        match want {
            Want::Take(lock, _) => Ok(self.version_for(turn, lock)),
            Want::Cross(bar) => {
                let epoch = self.next_epoch(bar)?;
                Ok(self.epoch_for(bar, epoch))
            }
            _ => Ok(Some(0)),
        }
    }

    /// The version of the grant that has come for a take.
    fn version_for(&self, turn: u32, lock: Lock) -> Option<u32>
        requires { turn ≡ self.now.turns + 1 }
        ensures { (mode : Mode) → result ≡ number_for (processor_of T.kind self.now) (Want.Take lock mode) }
    {
        Some(self.mail.grant_for(turn, lock)?.version)
    }

    /// A load of a cell, or a fault where it isn't allowed.
    fn load_label(&self, number: u32, cell: Cell, line: u32) -> Label
        requires shape { IsShaped self.now }
        ensures { label_with (setup_of self.now) T.kind.semantics (me_of self.now)
            (own_of T.kind self.now) number (Want.Load cell line) ≡ Some result }
    {
        let piece = self.table.piece_of(cell);
        let value = self.copy.load(cell);
        self.rights.load_label(self.me, piece, cell, value, line)
    }

    /// A store to a cell, or a fault where it isn't allowed.
    fn store_label(&self, number: u32, cell: Cell, value: i64, line: u32) -> Label
        requires shape { IsShaped self.now }
        ensures { label_with (setup_of self.now) T.kind.semantics (me_of self.now)
            (own_of T.kind self.now) number (Want.Store cell value line) ≡ Some result }
    {
        let piece = self.table.piece_of(cell);
        self.rights.store_label(self.me, piece, cell, value, line)
    }

    /// The label of the next turn, where the number for it has come.
    fn own_label(&self, number: u32, want: Want) -> Result<Option<Label>, MemFault>
        requires shape { IsShaped self.now }
        requires told { T.told self.now.task ≡ Some want }
        ensures label { IfOk result (λ label. label ≡
            label_with (setup_of self.now) T.kind.semantics (me_of self.now)
            (own_of T.kind self.now) number want) }
        ensures line { IfOk result (λ label. IfSome label PrintsLine) }
    {
        Ok(Some(match want {
            Want::Quiet => Label::Quiet,
            Want::Load(cell, line) => self.load_label(number, cell, line),
            Want::Store(cell, value, line) => self.store_label(number, cell, value, line),
            Want::Ask(lock, mode, line) => self.rights.ask_label(lock, mode, line),
            Want::Take(lock, mode) => Label::Take(lock, mode, number),
            Want::Give(lock, line) => self.rights.give_label(lock, line),
            Want::Arrive(bar) => Label::Arrive(bar),
            Want::Cross(bar) => {
                let epoch = self.rights.crossings_at(bar).checked_add(1);
                Label::Cross(bar, epoch.ok_or(MemFault)?)
            }
            Want::Line => Label::Line(Text::from_slice(self.alloc, self.task.text())?),
            Want::End => Label::End,
            Want::Stop(fault, line) => Label::Stop(fault, line),
            Want::Over => return Ok(None),
        }))
    }

    /// The label of the next turn, where the thread can make one.
    fn next_label(&self, turn: u32, want: Want) -> Result<Option<Label>, MemFault>
        requires shape { IsShaped self.now }
        requires told { T.told self.now.task ≡ Some want }
        requires turn { turn ≡ self.now.turns + 1 }
        ensures label { IfOk result (λ label. label ≡
            label_for (setup_of self.now) T.kind.semantics (me_of self.now) (own_of T.kind self.now)
            (number_for (processor_of T.kind self.now) want) want) }
        ensures line { IfOk result (λ label. IfSome label PrintsLine) }
    {
        match self.number_for(turn, want)? {
            None => Ok(None),
            Some(number) => self.own_label(number, want),
        }
    }

    /// The lines of the opening that has come for a crossing.
    fn opening_lines(&self, bar: Bar) -> Result<LineList, MemFault>
        ensures { IfOk result (λ lines. lines ≡
            input_lines (input_for (processor_of T.kind self.now) (Want.Cross bar))) }
    {
        let epoch = self.next_epoch(bar)?;
        match self.mail.opening_of(bar, epoch) {
            None => Ok(LineList::new(self.alloc)),
            Some(opening) => opening.lines.copy(self.alloc),
        }
    }

    /// Takes the lines that have come for a turn out of the mailbox; what has come for later ones is kept.
    fn collect(&mut self, turn: u32, want: Want) -> Result<LineList, MemFault>
        requires shape { IsShaped self.old }
        requires turn { turn ≡ self.old.turns + 1 }
        ensures lines { IfOk result (λ lines. lines ≡
            input_lines (input_for (processor_of T.kind self.old) want)) }
        ensures processor { OnOk result (processor_of T.kind self.new ≡
            record (processor_of T.kind self.old)
            { mail = mail_after (processor_of T.kind self.old).mail turn }) }
        ensures shape { IsShaped self.new }
        ensures same { IsSameNode self.old self.new }
        ensures task { self.new.task ≡ self.old.task }
    {
        match want {
            Want::Take(lock, _) => Ok(self.mail.collect(self.alloc, turn, lock)),
            Want::Cross(bar) => {
                let lines = self.opening_lines(bar)?;
                self.mail.keep_later(turn);
                Ok(lines)
            }
            _ => {
                self.mail.keep_later(turn);
                Ok(LineList::new(self.alloc))
            }
        }
    }

    /// What the home of a lock is told when a hold in this mode ends, with the lines stored to in it.
    fn release(&self, lock: Lock, mode: Mode, given: LineList) -> Result<Body, MemFault>
        requires shape { IsShaped self.now }
        requires lock { lock.0 < (setup_of self.now).locks }
        ensures { IfOk result (λ body. release_with (versions_of self.now.versions) lock (Some mode)
            given ≡ Some body) }
    {
        let version = self.versions.as_slice()[lock.index()];
        let (version, lines) = match mode {
            Mode::Shared => (version, LineList::new(self.alloc)),
            Mode::Excl => (version.checked_add(1).ok_or(MemFault)?, given),
        };
        Ok(Body::Release {
            lock,
            mode,
            version,
            lines,
        })
    }

    /// What a label tells a home, with the lines that it gives to others.
    fn body(&self, label: &Label, given: LineList) -> Result<Option<Body>, MemFault>
        requires shape { IsShaped self.now }
        requires names { LabelNames (setup_of self.now) label.now }
        ensures { IfOk result (λ body. body ≡
            body_with (versions_of self.now.versions) (held_of self.now.rights)
            (crossed_of self.now.rights) label.now given) }
    {
        match label {
            Label::Ask(lock, mode) => Ok(Some(Body::Req {
                lock: *lock,
                mode: *mode,
                have: self.versions.as_slice()[lock.index()],
            })),
            Label::Give(lock) => match self.rights.mode_at(*lock) {
                None => Ok(None),
                Some(mode) => Ok(Some(self.release(*lock, mode, given)?)),
            },
            Label::Arrive(bar) => Ok(Some(Body::Arrive {
                bar: *bar,
                epoch: self.rights.crossings_at(*bar),
                lines: given,
            })),
            _ => Ok(None),
        }
    }

    /// Goes on by a label that answers what the thread told, but for its copy.
    fn advance(&mut self, turn: u32, label: &Label) -> Result<(), MemFault>
        requires shape { IsShaped self.old }
        requires turn { turn ≡ self.old.turns + 1 }
        requires names { LabelNames (setup_of self.old) label.now }
        requires answers { IsSomeAnd (T.told self.old.task) (λ want. AnswersTo want label.now) }
        ensures processor { OnOk result (processor_of T.kind self.new ≡
            advanced T.kind.semantics (processor_of T.kind self.old) label.now) }
        ensures shape { OnOk result (IsShaped self.new) }
        ensures same { IsSameNode self.old self.new }
    {
        change_versions(&mut self.versions, &self.rights, label)?;
        self.rights.change(label)?;
        self.ending = ending_after(self.ending, label);
        self.turns = turn;
        finish(&mut self.task, label);
        Ok(())
    }

    /// Makes the turn of this label, which brings these lines. Answers what it tells a home.
    fn make_turn(
        &mut self,
        turn: u32,
        label: &Label,
        lines: &LineList,
    ) -> Result<Option<Body>, MemFault>
        requires whole { IsWhole T.kind self.old }
        requires turn { turn ≡ self.old.turns + 1 }
        requires names { LabelNames (setup_of self.old) label.now }
        requires answers { IsSomeAnd (T.told self.old.task) (λ want. AnswersTo want label.now) }
        ensures body { IfOk result (λ body. body ≡
            body_of (setup_of self.old) (own_of T.kind self.old) label.now) }
        ensures processor { OnOk result (processor_of T.kind self.new ≡
            record (processor_of T.kind self.old) {
              own = own_after (setup_of self.old) T.kind.semantics (own_of T.kind self.old) record
                  { label = label.now; lines = lines.now };
            }) }
        ensures whole { OnOk result (IsWhole T.kind self.new) }
        ensures same { IsSameNode self.old self.new }
    {
        let given = change_copy(self.alloc, &mut self.copy, label, lines)?;
        let body = self.body(label, given)?;
        self.advance(turn, label)?;
        Ok(body)
    }

    /// One turn, where the thread can make one. `MemFault` for want of memory, or where a turn, a
    /// version or a count doesn't fit its number; the processor is then of no more use.
    pub fn step(&mut self) -> Result<Option<Stepped>, MemFault>
        requires { IsWhole T.kind self.old }
        ensures stepped { IfOk result (λ stepped. stepped ≡
            stepped_by (setup_of self.old) T.kind.semantics (me_of self.old)
            (processor_of T.kind self.old) (own_turn (setup_of self.old) T.kind.semantics
            (me_of self.old) (processor_of T.kind self.old))) }
        ensures processor { OnOk result (processor_of T.kind self.new ≡
            processor_stepped (setup_of self.old) T.kind.semantics (me_of self.old)
            (processor_of T.kind self.old) (own_turn (setup_of self.old) T.kind.semantics
            (me_of self.old) (processor_of T.kind self.old))) }
        ensures whole { OnOk result (IsWhole T.kind self.new) }
        ensures within { IfOk result (λ stepped. IfSome stepped (λ one.
            All (IsSendOf (setup_of self.old) (me_of self.old)) one.effects.sends)) }
        ensures line { IfOk result (λ stepped. IfSome stepped (λ one. PrintsLine one.label)) }
        ensures same { IsSameNode self.old self.new }
    {
        let want = self.task.want();
        let turn = self.turns.checked_add(1).ok_or(MemFault)?;
        let Some(label) = self.next_label(turn, want)? else {
            return Ok(None);
        };
        let lines = self.collect(turn, want)?;
        let body = self.make_turn(turn, &label, &lines)?;
        let sends = self.tell(body)?;
        let outs = printed_by(self.alloc, turn, &label)?;
        let effects = self.unit_effects(Items::new(self.alloc), sends, outs);
        Ok(Some(Stepped {
            turn,
            label,
            lines,
            effects,
        }))
    }
}
