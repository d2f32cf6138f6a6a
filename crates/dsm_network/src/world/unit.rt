//! What happens in one unit.

ghost use Rattle.std.specs.Prelude.{◌≡◌, ◌<◌, ◌∷◌, [], Some, IfOk, IfSome, MatchOption, OnOk, ⊤};
ghost use Rattle.std.specs.List.{All};
ghost use Rattle.dsm_net.specs.Units.{unit_of, went, with_message, with_messages, with_note, with_line_out, with_lines_out, step_of, delivery_of};

use super::World;
use dsm_base::{Act, MemFault, Pending, PendingLine, Proc, TaskMaker};
use dsm_msg::{Msg, Sends};
use dsm_net::{Letter, Rec, Records};
use dsm_processor::{Effects, Stepped};
use sqlite_items::Items;

impl<M: TaskMaker> World<M> {
    ghost use Rattle.dsm_net.specs.Fits.{IsWithin};
    ghost use Rattle.dsm_net.specs.Effects.{effect_of_message};
    ghost use Rattle.dsm_processor.specs.Node.{stepped_by, processor_stepped, effects_of};
    ghost use Rattle.dsm_network.specs.World.{setup_of, net_of, made_of, processor_at, turn_of, with_node, with_letters, IsSendable, IsReceivable, IsShaped, IsSameWorld, HasSameNodes};
    ghost use Rattle.dsm_network.specs.Effects.{AreSendable, with_ended_replay, with_effect_of};

    /// A message is sent, and the records tell it.
    fn send(&mut self, msg: Msg, records: &mut Records) -> Result<(), MemFault>
        requires shape { IsShaped M.Made.kind self.old }
        requires msg { IsSendable (setup_of self.old) msg }
        ensures made { OnOk result (made_of M.Made.kind M.first self.new records.new ≡
            with_message (made_of M.Made.kind M.first self.old records.old) msg) }
        ensures shape { OnOk result (IsShaped M.Made.kind self.new) }
        ensures same { HasSameNodes self.old self.new }
    {
        let number = self.sent.checked_add(1).ok_or(MemFault)?;
        self.channels.send(self.alloc, number, &msg)?;
        self.sent = number;
        records.push(Rec::Sent { number, msg })?;
        Ok(())
    }

    /// Messages are sent in their order.
    fn send_all(&mut self, mut sends: Sends, records: &mut Records) -> Result<(), MemFault>
        requires shape { IsShaped M.Made.kind self.old }
        requires sends { All (IsSendable (setup_of self.old)) sends }
        ensures made { OnOk result (made_of M.Made.kind M.first self.new records.new ≡
            with_messages (made_of M.Made.kind M.first self.old records.old) sends) }
        ensures shape { OnOk result (IsShaped M.Made.kind self.new) }
        ensures same { HasSameNodes self.old self.new }
    {
        while !sends.is_empty() {
            let msg = sends.remove(0);
            self.send(msg, records)?;
        }
        Ok(())
    }

    /// A note is sent, where one is owed.
    fn send_note(&mut self, note: Option<Msg>, records: &mut Records) -> Result<(), MemFault>
        requires shape { IsShaped M.Made.kind self.old }
        requires note { IfSome note (IsSendable (setup_of self.old)) }
        ensures made { OnOk result (made_of M.Made.kind M.first self.new records.new ≡
            with_note (made_of M.Made.kind M.first self.old records.old) note) }
        ensures shape { OnOk result (IsShaped M.Made.kind self.new) }
        ensures same { HasSameNodes self.old self.new }
    {
        match note {
            Some(note) => self.send(note, records),
            None => Ok(()),
        }
    }

    /// A line of a processor goes out, where it isn't out already, and the records tell it.
    fn put_line(
        &mut self,
        proc: Proc,
        line: PendingLine,
        records: &mut Records,
    ) -> Result<(), MemFault>
        requires shape { IsShaped M.Made.kind self.old }
        requires proc { proc.0 < (setup_of self.old).procs }
        ensures made { OnOk result (made_of M.Made.kind M.first self.new records.new ≡
            with_line_out (made_of M.Made.kind M.first self.old records.old) proc.0 line) }
        ensures shape { OnOk result (IsShaped M.Made.kind self.new) }
        ensures same { HasSameNodes self.old self.new }
    {
        let PendingLine { turn, text } = line;
        if self.out.as_slice()[proc.index()] < turn {
            self.out.set(proc.index(), turn);
            records.push(Rec::Out { proc, turn, text })?;
        }
        Ok(())
    }

    /// Lines of a processor go out in their order.
    fn put_lines(
        &mut self,
        proc: Proc,
        mut lines: Pending,
        records: &mut Records,
    ) -> Result<(), MemFault>
        requires shape { IsShaped M.Made.kind self.old }
        requires proc { proc.0 < (setup_of self.old).procs }
        ensures made { OnOk result (made_of M.Made.kind M.first self.new records.new ≡
            with_lines_out (made_of M.Made.kind M.first self.old records.old) proc.0 lines) }
        ensures shape { OnOk result (IsShaped M.Made.kind self.new) }
        ensures same { HasSameNodes self.old self.new }
    {
        while !lines.is_empty() {
            let line = lines.remove(0);
            self.put_line(proc, line, records)?;
        }
        Ok(())
    }

    /// The replay of a processor ends, if it does, and what it sends then is sent.
    fn end_replay(
        &mut self,
        proc: Proc,
        replayed: bool,
        rebuilt: Sends,
        records: &mut Records,
    ) -> Result<(), MemFault>
        requires shape { IsShaped M.Made.kind self.old }
        requires proc { proc.0 < (setup_of self.old).procs }
        requires rebuilt { All (IsSendable (setup_of self.old)) rebuilt }
        ensures made { OnOk result (made_of M.Made.kind M.first self.new records.new ≡
            with_ended_replay (made_of M.Made.kind M.first self.old records.old) proc.0
            (processor_at M.Made.kind M.first self.old proc.0).own.turns replayed rebuilt) }
        ensures shape { OnOk result (IsShaped M.Made.kind self.new) }
        ensures same { HasSameNodes self.old self.new }
    {
        if !replayed {
            return Ok(());
        }
        let turn = self.nodes[proc.0 as usize].turn();
        records.push(Rec::Replayed { proc, turn })?;
        self.send_all(rebuilt, records)
    }

    /// What a processor does in a unit is done, where what came to it came from here.
    fn carry_out(
        &mut self,
        from: Proc,
        proc: Proc,
        effects: Effects,
        records: &mut Records,
    ) -> Result<(), MemFault>
        requires shape { IsShaped M.Made.kind self.old }
        requires from { from.0 < (setup_of self.old).procs }
        requires proc { proc.0 < (setup_of self.old).procs }
        requires effects { AreSendable (setup_of self.old) effects }
        ensures made { OnOk result (made_of M.Made.kind M.first self.new records.new ≡
            with_effect_of (made_of M.Made.kind M.first self.old records.old) from.0 proc.0
            (processor_at M.Made.kind M.first self.old proc.0).own.turns effects) }
        ensures shape { OnOk result (IsShaped M.Made.kind self.new) }
        ensures same { HasSameNodes self.old self.new }
    {
        let Effects {
            carried,
            sends,
            replayed,
            rebuilt,
            outs,
            note,
        } = effects;
        self.put_lines(from, carried, records)?;
        self.send_all(sends, records)?;
        self.end_replay(proc, replayed, rebuilt, records)?;
        self.put_lines(proc, outs, records)?;
        self.send_note(note, records)
    }

    /// One turn of a processor, where its thread can make one.
    fn turn(&mut self, proc: Proc) -> Result<Option<Stepped>, MemFault>
        requires shape { IsShaped M.Made.kind self.old }
        requires proc { proc.0 < (setup_of self.old).procs }
        ensures stepped { IfOk result (λ stepped. stepped ≡
            stepped_by (setup_of self.old) M.Made.kind.semantics proc.0 (processor_at M.Made.kind M.first self.old proc.0)
            (turn_of M.Made.kind M.first self.old proc.0)) }
        ensures net { OnOk result (net_of M.Made.kind M.first self.new ≡
            with_node (net_of M.Made.kind M.first self.old) proc.0
            (processor_stepped (setup_of self.old) M.Made.kind.semantics proc.0
            (processor_at M.Made.kind M.first self.old proc.0) (turn_of M.Made.kind M.first self.old proc.0))) }
        ensures sends { IfOk result (λ stepped. IfSome stepped (λ one. AreSendable (setup_of self.old) one.effects)) }
        ensures shape { OnOk result (IsShaped M.Made.kind self.new) }
        ensures same { IsSameWorld self.old self.new }
    {
        self.nodes[proc.0 as usize].step()
    }

    /// A processor handles a message.
    fn receive(&mut self, proc: Proc, msg: Msg) -> Result<Effects, MemFault>
        requires shape { IsShaped M.Made.kind self.old }
        requires proc { proc.0 < (setup_of self.old).procs }
        requires msg { IsReceivable (setup_of self.old) proc.0 msg }
        ensures effects { IfOk result (λ effects. effects ≡
            effects_of (effect_of_message (setup_of self.old) proc.0 (processor_at M.Made.kind M.first self.old proc.0) msg)) }
        ensures net { OnOk result (net_of M.Made.kind M.first self.new ≡
            with_node (net_of M.Made.kind M.first self.old) proc.0
            (effect_of_message (setup_of self.old) proc.0 (processor_at M.Made.kind M.first self.old proc.0) msg).processor) }
        ensures sends { IfOk result (AreSendable (setup_of self.old)) }
        ensures shape { OnOk result (IsShaped M.Made.kind self.new) }
        ensures same { IsSameWorld self.old self.new }
    {
        self.nodes[proc.0 as usize].receive(msg)
    }

    /// The oldest message from one processor to another is taken out of what is under way.
    fn take_oldest(&mut self, from: Proc, to: Proc) -> Result<Option<Letter>, MemFault>
        requires shape { IsShaped M.Made.kind self.old }
        requires from { from.0 < (setup_of self.old).procs }
        requires to { to.0 < (setup_of self.old).procs }
        ensures letter { IfOk result (λ taken. MatchOption taken
            ((net_of M.Made.kind M.first self.old).channels from.0 to.0 ≡ [])
            (λ letter. (net_of M.Made.kind M.first self.old).channels from.0 to.0 ≡
            letter ∷ (net_of M.Made.kind M.first self.new).channels from.0 to.0)) }
        ensures named { IfOk result (λ taken. IfSome taken
            (λ letter. IsReceivable (setup_of self.old) to.0 letter.msg)) }
        ensures net { net_of M.Made.kind M.first self.new ≡
            with_letters (net_of M.Made.kind M.first self.old) from.0 to.0
            ((net_of M.Made.kind M.first self.new).channels from.0 to.0) }
        ensures none { IfOk result (λ taken. MatchOption taken
            (net_of M.Made.kind M.first self.new ≡ net_of M.Made.kind M.first self.old) (λ letter. ⊤)) }
        ensures shape { IsShaped M.Made.kind self.new }
        ensures same { HasSameNodes self.old self.new }
    {
        self.channels.deliver(self.alloc, from, to)
    }

    /// A step of a processor. Answers the records of its turn, where it makes one.
    fn step(&mut self, proc: Proc) -> Result<Records, MemFault>
        requires shape { IsShaped M.Made.kind self.old }
        requires proc { proc.0 < (setup_of self.old).procs }
        ensures made { IfOk result (λ records. made_of M.Made.kind M.first self.new records ≡
            step_of (setup_of self.old) M.Made.kind.semantics (net_of M.Made.kind M.first self.old) proc.0
            (Some (processor_at M.Made.kind M.first self.old proc.0))) }
        ensures shape { OnOk result (IsShaped M.Made.kind self.new) }
        ensures same { IsSameWorld self.old self.new }
    {
        let mut records = Items::new(self.alloc);
        let Some(
            Stepped {
                turn,
                label,
                lines,
                effects,
            },
        ) = self.turn(proc)?
        else {
            return Ok(records);
        };
        records.push(Rec::Turn {
            proc,
            turn,
            label,
            lines,
        })?;
        self.carry_out(proc, proc, effects, &mut records)?;
        Ok(records)
    }

    /// A delivery of the oldest message. Answers the records of it, where there is one.
    fn deliver(&mut self, from: Proc, to: Proc) -> Result<Records, MemFault>
        requires shape { IsShaped M.Made.kind self.old }
        requires from { from.0 < (setup_of self.old).procs }
        requires to { to.0 < (setup_of self.old).procs }
        ensures made { IfOk result (λ records. made_of M.Made.kind M.first self.new records ≡
            delivery_of (setup_of self.old) (net_of M.Made.kind M.first self.old) from.0 to.0
            ((net_of M.Made.kind M.first self.old).channels from.0 to.0)
            (Some (processor_at M.Made.kind M.first self.old to.0))) }
        ensures shape { OnOk result (IsShaped M.Made.kind self.new) }
        ensures same { IsSameWorld self.old self.new }
    {
        let mut records = Items::new(self.alloc);
        let Some(Letter { number, msg }) = self.take_oldest(from, to)? else {
            return Ok(records);
        };
        records.push(Rec::Delivered { number })?;
        let effects = self.receive(to, msg)?;
        self.carry_out(from, to, effects, &mut records)?;
        Ok(records)
    }

    /// What happens in one unit. Answers its records.
    pub(super) fn unit(&mut self, act: Act) -> Result<Records, MemFault>
        requires shape { IsShaped M.Made.kind self.old }
        requires act { IsWithin (setup_of self.old) act }
        ensures made { IfOk result (λ records. made_of M.Made.kind M.first self.new records ≡
            unit_of (setup_of self.old) M.Made.kind.semantics (net_of M.Made.kind M.first self.old) act went) }
        ensures shape { OnOk result (IsShaped M.Made.kind self.new) }
        ensures same { IsSameWorld self.old self.new }
    {
        match act {
            Act::Step(proc) => self.step(proc),
            Act::Deliver(from, to) => self.deliver(from, to),
            Act::Ckpt(_) | Act::Block(_) | Act::Crash(_) | Act::Torn(..) | Act::Restart(_) => {
                Ok(Items::new(self.alloc))
            }
        }
    }
}
