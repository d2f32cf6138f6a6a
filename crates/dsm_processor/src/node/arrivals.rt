//! What a processor does with an arrival at a barrier that it manages, and with an opening.

ghost use Rattle.std.specs.Prelude.{◌≡◌, ◌++◌, ◌<◌, [], true, not, map, filter, IfOk, OnOk};

use super::Node;
use dsm_base::{Bar, MemFault, Proc, Task};
use dsm_lines::{LineList, MailOpening, Opening, Openings};
use dsm_msg::{Body, Msg, Sends};
use sqlite_items::Items;

/// The last turn and the last epoch in which a processor may come to a barrier.
const LAST: u32 = 4_000_000_000;

impl<T: Task> Node<T> {
    ghost use Rattle.dsm_msg.specs.declared.message.Body.{Body};
    ghost use Rattle.dsm_lines.specs.LineLists.{are_lines};
    ghost use Rattle.dsm_barrier.specs.BarrierStates.{counts as arrival_counts};
    ghost use Rattle.dsm_net.specs.Messages.{manager_of};
    ghost use Rattle.dsm_net.specs.Openings.{own_opening, opening_message, is_to};
    ghost use Rattle.dsm_net.specs.Effects.{effect_of, effect_of_body, with_opening};
    ghost use Rattle.dsm_processor.specs.Node.{processor_of, setup_of, me_of, IsShaped, IsSameNode};

    /// An opening for the own mailbox.
    fn own_opening(&self, one: &Opening) -> Result<MailOpening, MemFault>
        ensures { IfOk result (λ opening. opening ≡ own_opening one.now) }
    {
        Ok(MailOpening {
            turn: one.turn,
            bar: one.bar,
            epoch: one.epoch,
            lines: one.lines.copy(self.alloc)?,
        })
    }

    /// The message that opens a barrier for another processor.
    fn opening_message(&self, one: &Opening) -> Result<Msg, MemFault>
        ensures { IfOk result (λ msg. msg ≡
            opening_message (me_of self.now) (processor_of T.kind self.now) one.now) }
    {
        let body = Body::Opened {
            bar: one.bar,
            epoch: one.epoch,
            lines: one.lines.copy(self.alloc)?,
        };
        Ok(self.message(one.to, body))
    }

    /// The openings that come to the own mailbox.
    fn own_openings(&self, openings: &Openings) -> Result<Vec<MailOpening>, MemFault>
        ensures { IfOk result (λ own. own.items ≡
            map own_opening (filter (is_to (me_of self.now)) openings.now)) }
    {
        let mut own = Vec::new(self.alloc);
        for one in openings.as_slice() {
            if one.to.0 == self.me.0 {
                own.push(self.own_opening(one)?)?;
            }
        }
        Ok(own)
    }

    /// The openings that are sent to others.
    fn opening_messages(&self, openings: &Openings) -> Result<Sends, MemFault>
        ensures { IfOk result (λ sends. sends ≡
            map (opening_message (me_of self.now) (processor_of T.kind self.now))
            (filter (λ one. not (is_to (me_of self.now) one)) openings.now)) }
    {
        let mut sends = Items::new(self.alloc);
        for one in openings.as_slice() {
            if one.to.0 != self.me.0 {
                sends.push(self.opening_message(one)?)?;
            }
        }
        Ok(sends)
    }

    /// Sends openings; its own goes to the mailbox.
    fn send_openings(&mut self, openings: &Openings) -> Result<Sends, MemFault>
        requires shape { IsShaped self.old }
        ensures sends { IfOk result (λ sends. sends ≡
            map (opening_message (me_of self.old) (processor_of T.kind self.old))
            (filter (λ one. not (is_to (me_of self.old) one)) openings.now)) }
        ensures processor { OnOk result (processor_of T.kind self.new ≡
            record (processor_of T.kind self.old) {
              mail = record (processor_of T.kind self.old).mail {
                openings = (processor_of T.kind self.old).mail.openings ++
                    map own_opening (filter (is_to (me_of self.old)) openings.now);
              };
            }) }
        ensures shape { OnOk result (IsShaped self.new) }
        ensures same { IsSameNode self.old self.new }
    {
        let own = self.own_openings(openings)?;
        let sends = self.opening_messages(openings)?;
        self.mail.put_openings(own)?;
        Ok(sends)
    }

    /// Whether an arrival of a processor's turn counts.
    fn may_arrive(&self, from: Proc, turn: u32, bar: Bar, epoch: u32) -> bool
        requires shape { IsShaped self.now }
        requires from { from.0 < (setup_of self.now).procs }
        requires bar { bar.0 < (setup_of self.now).bars }
        ensures { result ≡ arrival_counts ((processor_of T.kind self.now).barriers bar.0)
            ((processor_of T.kind self.now).peers from.0).last from.0 turn epoch }
    {
        self.peers.last(from) < turn && self.manager.awaits(from, bar, epoch)
    }

    /// An arrival that counts. Answers the openings that are sent for it.
    fn take_arrival(
        &mut self,
        from: Proc,
        turn: u32,
        bar: Bar,
        epoch: u32,
        lines: &LineList,
    ) -> Result<Sends, MemFault>
        requires shape { IsShaped self.old }
        requires from { from.0 < (setup_of self.old).procs }
        requires bar { bar.0 < (setup_of self.old).bars }
        requires managed { manager_of (setup_of self.old) bar.0 ≡ me_of self.old }
        requires lines { are_lines lines.now ≡ true }
        requires counts { arrival_counts ((processor_of T.kind self.old).barriers bar.0)
            ((processor_of T.kind self.old).peers from.0).last from.0 turn epoch ≡ true }
        ensures sends { IfOk result (λ sends. sends ≡
            (effect_of (setup_of self.old) (me_of self.old) (processor_of T.kind self.old) from.0
            turn (Body.Arrive bar epoch lines.now)).sends) }
        ensures processor { OnOk result (processor_of T.kind self.new ≡
            (effect_of (setup_of self.old) (me_of self.old) (processor_of T.kind self.old) from.0
            turn (Body.Arrive bar epoch lines.now)).processor) }
        ensures shape { OnOk result (IsShaped self.new) }
        ensures same { IsSameNode self.old self.new }
    {
        if turn > LAST || epoch > LAST {
            return Err(MemFault);
        }
        self.peers.set_last(from, turn);
        let openings = self.manager.arrive(from, turn, bar, epoch, lines)?;
        self.send_openings(&openings)
    }

    /// An arrival comes, which counts or is left alone.
    pub(super) fn arrival_comes(
        &mut self,
        from: Proc,
        turn: u32,
        bar: Bar,
        epoch: u32,
        lines: &LineList,
    ) -> Result<Sends, MemFault>
        requires shape { IsShaped self.old }
        requires from { from.0 < (setup_of self.old).procs }
        requires bar { bar.0 < (setup_of self.old).bars }
        requires managed { manager_of (setup_of self.old) bar.0 ≡ me_of self.old }
        requires lines { are_lines lines.now ≡ true }
        ensures sends { IfOk result (λ sends. sends ≡
            (effect_of_body (setup_of self.old) (me_of self.old) (processor_of T.kind self.old)
            from.0 turn (Body.Arrive bar epoch lines.now)).sends) }
        ensures processor { OnOk result (processor_of T.kind self.new ≡
            (effect_of_body (setup_of self.old) (me_of self.old) (processor_of T.kind self.old)
            from.0 turn (Body.Arrive bar epoch lines.now)).processor) }
        ensures shape { OnOk result (IsShaped self.new) }
        ensures same { IsSameNode self.old self.new }
    {
        if self.may_arrive(from, turn, bar, epoch) {
            self.take_arrival(from, turn, bar, epoch, lines)
        } else {
            Ok(Items::new(self.alloc))
        }
    }

    /// An opening comes. `MemFault` comes where the next turn doesn't fit its number.
    pub(super) fn opening_comes(
        &mut self,
        bar: Bar,
        epoch: u32,
        lines: LineList,
    ) -> Result<Sends, MemFault>
        requires shape { IsShaped self.old }
        ensures sends { IfOk result (λ sends. sends ≡ []) }
        ensures processor { OnOk result (processor_of T.kind self.new ≡
            with_opening (processor_of T.kind self.old) bar epoch lines) }
        ensures shape { OnOk result (IsShaped self.new) }
        ensures same { IsSameNode self.old self.new }
    {
        let turn = self.turns.checked_add(1).ok_or(MemFault)?;
        self.mail.put_opening(MailOpening {
            turn,
            bar,
            epoch,
            lines,
        })?;
        Ok(Items::new(self.alloc))
    }
}
