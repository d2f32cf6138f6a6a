//! What a processor does with a body that comes to it.

ghost use Rattle.std.specs.Prelude.{◌≡◌, ◌+◌, ◌++◌, ◌<◌, ◌&&◌, ◌==◌, ◌∷◌, [], true, false, None, not, nat_lt, map, filter, option_map, IfOk, IfSome, OnOk};
ghost use Rattle.std.specs.List.{All};
ghost use Rattle.dsm_net.specs.Messages.{home_of, keeper_of};
ghost use Rattle.dsm_home.specs.LockStates.{version_made};
ghost use Rattle.dsm_net.specs.Effects.{waiting_of, is_mode, may_bring};

use super::{Effects, Node};
use dsm_base::{Lock, MemFault, Mode, Pending, Proc, Setup, Task};
use dsm_home::{Queue, Waiting};
use dsm_lines::{LineList, MailGrant};
use dsm_msg::{Body, Carry, Msg, Sends};
use sqlite_items::Items;

/// Who asks in a turn would take the lock in the next.
fn waiting_of(proc: Proc, turn: u32, mode: Mode, have: u32) -> Result<Waiting, MemFault>
    ensures { IfOk result (λ waiting. waiting ≡ waiting_of proc.0 turn mode «have») }
{
    let turn = turn.checked_add(1).ok_or(MemFault)?;
    Ok(Waiting {
        proc,
        turn,
        mode,
        have,
    })
}

/// The processor that is a lock's home.
fn home_of(setup: &Setup, lock: Lock) -> Proc
    requires { 0 < setup.now.procs }
    ensures home { result.0 ≡ home_of setup.now lock.0 }
    ensures below { result.0 < setup.now.procs }
{
    Proc((lock.0 % u16::from(setup.procs)) as u8)
}

/// The home or manager that a body is for.
fn keeper_of(setup: &Setup, body: &Body) -> Option<Proc>
    requires { 0 < setup.now.procs }
    ensures keeper { option_map (λ p. p.0) result ≡ keeper_of setup.now body.now }
    ensures below { IfSome result (λ p. p.0 < setup.now.procs) }
{
    match body {
        Body::Req { lock, .. } | Body::Release { lock, .. } => Some(home_of(setup, *lock)),
        Body::Arrive { bar, .. } => Some(Proc(bar.0 % setup.procs)),
        _ => None,
    }
}

/// Whether a lock is held in this mode.
fn is_mode(mode: Mode, held: Option<Mode>) -> bool
    ensures { result ≡ is_mode mode held }
{
    match held {
        None => false,
        Some(held) => mode == held,
    }
}

/// Whether a hold at a version leaves this one.
fn makes_version(mode: Mode, before: u32, version: u32) -> bool
    ensures { result ≡ (version == version_made mode before) }
{
    match mode {
        Mode::Shared => version == before,
        Mode::Excl => u64::from(version) == u64::from(before) + 1,
    }
}

/// Whether a hold in this mode may bring these lines: a shared one has none.
fn may_bring(mode: Mode, lines: &LineList) -> bool
    ensures { result ≡ may_bring mode lines.now }
{
    match mode {
        Mode::Shared => lines.is_empty(),
        Mode::Excl => true,
    }
}

impl<T: Task> Node<T> {
    ghost use Rattle.dsm_msg.specs.declared.message.Body.{Body};
    ghost use Rattle.dsm_lines.specs.Copies.{AreNumbered, newer_lines};
    ghost use Rattle.dsm_net.specs.Messages.{message, with_carry};
    ghost use Rattle.dsm_net.specs.Grants.{own_grant, grant_message, is_of};
    ghost use Rattle.dsm_net.specs.Effects.{may_ask, may_give, with_last, effect_of, effect_of_body, effect_of_message, effect_of_telling};
    ghost use Rattle.dsm_processor.specs.Node.{processor_of, setup_of, me_of, effects_of, IsShaped, IsWhole, IsSameNode};
    ghost use Rattle.dsm_processor.specs.Names.{BodyNames, IsKeptBy, IsSendOf};

    /// A message to another processor.
    pub(super) fn message(&self, to: Proc, body: Body) -> Msg
        ensures { result ≡ message (me_of self.now) (processor_of T.kind self.now) to.0 body }
    {
        Msg {
            from: self.me,
            to,
            carry: Carry {
                turn: self.turns,
                seen: self.peers.seen(to),
                records: Items::new(self.alloc),
                lines: Items::new(self.alloc),
            },
            body,
        }
    }

    /// The lines of a lock that were stored to after a version.
    fn newer_lines(&self, lock: Lock, version: u32) -> Result<LineList, MemFault>
        requires { IsShaped self.now }
        ensures { IfOk result (λ lines. lines ≡
            newer_lines (setup_of self.now).bindings (processor_of T.kind self.now).lines.stamps
            (processor_of T.kind self.now).lines.values lock version) }
    {
        self.home.newer(lock, version)
    }

    /// The grant of a lock for the own mailbox.
    fn own_grant(&self, lock: Lock, one: Waiting) -> Result<MailGrant, MemFault>
        requires shape { IsShaped self.now }
        requires lock { lock.0 < (setup_of self.now).locks }
        ensures { IfOk result (λ grant. grant ≡
            own_grant (setup_of self.now) (processor_of T.kind self.now) lock one) }
    {
        Ok(MailGrant {
            turn: one.turn,
            lock,
            mode: one.mode,
            version: self.home.version(lock),
            lines: self.newer_lines(lock, one.have)?,
        })
    }

    /// The message that grants a lock to another processor.
    fn grant_message(&self, lock: Lock, one: Waiting) -> Result<Msg, MemFault>
        requires shape { IsShaped self.now }
        requires lock { lock.0 < (setup_of self.now).locks }
        ensures { IfOk result (λ msg. msg ≡
            grant_message (setup_of self.now) (me_of self.now) (processor_of T.kind self.now) lock
            one) }
    {
        let body = Body::Grant {
            lock,
            mode: one.mode,
            turn: one.turn,
            version: self.home.version(lock),
            lines: self.newer_lines(lock, one.have)?,
        };
        Ok(self.message(one.proc, body))
    }

    /// The grants of a lock that come to the own mailbox.
    fn own_grants(&self, lock: Lock, granted: &Queue) -> Result<Vec<MailGrant>, MemFault>
        requires shape { IsShaped self.now }
        requires lock { lock.0 < (setup_of self.now).locks }
        ensures { IfOk result (λ grants. grants.items ≡
            map (own_grant (setup_of self.now) (processor_of T.kind self.now) lock)
            (filter (is_of (me_of self.now)) granted.now)) }
    {
        let mut grants = Vec::new(self.alloc);
        for one in granted.as_slice() {
            if one.proc.0 == self.me.0 {
                grants.push(self.own_grant(lock, *one)?)?;
            }
        }
        Ok(grants)
    }

    /// The grants of a lock that are sent to others.
    fn grant_messages(&self, lock: Lock, granted: &Queue) -> Result<Sends, MemFault>
        requires shape { IsShaped self.now }
        requires lock { lock.0 < (setup_of self.now).locks }
        ensures { IfOk result (λ sends. sends ≡
            map (grant_message (setup_of self.now) (me_of self.now) (processor_of T.kind self.now)
            lock) (filter (λ one. not (is_of (me_of self.now) one)) granted.now)) }
    {
        let mut sends = Items::new(self.alloc);
        for one in granted.as_slice() {
            if one.proc.0 != self.me.0 {
                sends.push(self.grant_message(lock, *one)?)?;
            }
        }
        Ok(sends)
    }

    /// Sends the grants of a lock; its own goes to the mailbox.
    fn send_grants(&mut self, lock: Lock, granted: &Queue) -> Result<Sends, MemFault>
        requires shape { IsShaped self.old }
        requires lock { lock.0 < (setup_of self.old).locks }
        ensures sends { IfOk result (λ sends. sends ≡
            map (grant_message (setup_of self.old) (me_of self.old) (processor_of T.kind self.old)
            lock) (filter (λ one. not (is_of (me_of self.old) one)) granted.now)) }
        ensures processor { OnOk result (processor_of T.kind self.new ≡
            record (processor_of T.kind self.old) {
              mail = record (processor_of T.kind self.old).mail {
                grants = (processor_of T.kind self.old).mail.grants ++
                    map (own_grant (setup_of self.old) (processor_of T.kind self.old) lock)
                    (filter (is_of (me_of self.old)) granted.now);
              };
            }) }
        ensures shape { OnOk result (IsShaped self.new) }
        ensures same { IsSameNode self.old self.new }
    {
        let grants = self.own_grants(lock, granted)?;
        let sends = self.grant_messages(lock, granted)?;
        self.mail.put_all(grants)?;
        Ok(sends)
    }

    /// Whether a request of a processor's turn counts.
    fn may_ask(&self, from: Proc, turn: u32, lock: Lock) -> bool
        requires shape { IsShaped self.now }
        requires lock { lock.0 < (setup_of self.now).locks }
        ensures { result ≡ (nat_lt ((processor_of T.kind self.now).peers from.0).last turn &&
            may_ask ((processor_of T.kind self.now).locks lock.0) from.0) }
    {
        self.peers.last(from) < turn
            && !self.home.holds(lock, from).is_some()
            && !self.home.waits(lock, from)
    }

    /// Whether a release of a processor's turn counts.
    fn may_give(
        &self,
        from: Proc,
        turn: u32,
        lock: Lock,
        mode: Mode,
        version: u32,
        lines: &LineList,
    ) -> bool
        requires shape { IsShaped self.now }
        requires lock { lock.0 < (setup_of self.now).locks }
        ensures { result ≡ (nat_lt ((processor_of T.kind self.now).peers from.0).last turn &&
            may_give ((processor_of T.kind self.now).locks lock.0) from.0 mode version lines.now) }
    {
        self.peers.last(from) < turn
            && is_mode(mode, self.home.holds(lock, from))
            && makes_version(mode, self.home.version(lock), version)
            && may_bring(mode, lines)
    }

    /// A request that counts. Answers the grants that are sent for it.
    fn take_request(
        &mut self,
        from: Proc,
        turn: u32,
        lock: Lock,
        mode: Mode,
        have: u32,
    ) -> Result<Sends, MemFault>
        requires shape { IsShaped self.old }
        requires from { from.0 < (setup_of self.old).procs }
        requires newer { nat_lt ((processor_of T.kind self.old).peers from.0).last turn ≡ true }
        requires lock { lock.0 < (setup_of self.old).locks }
        ensures sends { IfOk result (λ sends. sends ≡
            (effect_of (setup_of self.old) (me_of self.old) (processor_of T.kind self.old) from.0
            turn (Body.Req lock mode «have»)).sends) }
        ensures processor { OnOk result (processor_of T.kind self.new ≡
            (effect_of (setup_of self.old) (me_of self.old) (processor_of T.kind self.old) from.0
            turn (Body.Req lock mode «have»)).processor) }
        ensures shape { OnOk result (IsShaped self.new) }
        ensures same { IsSameNode self.old self.new }
    {
        let request = waiting_of(from, turn, mode, have)?;
        self.peers.set_last(from, turn);
        let granted = self.home.ask(lock, request)?;
        self.send_grants(lock, &granted)
    }

    /// A release that counts. Answers the grants that are sent for it.
    fn take_release(
        &mut self,
        from: Proc,
        turn: u32,
        lock: Lock,
        mode: Mode,
        version: u32,
        lines: &LineList,
    ) -> Result<Sends, MemFault>
        requires shape { IsShaped self.old }
        requires from { from.0 < (setup_of self.old).procs }
        requires newer { nat_lt ((processor_of T.kind self.old).peers from.0).last turn ≡ true }
        requires lock { lock.0 < (setup_of self.old).locks }
        requires lines { AreNumbered (setup_of self.old).bindings lines.now }
        ensures sends { IfOk result (λ sends. sends ≡
            (effect_of (setup_of self.old) (me_of self.old) (processor_of T.kind self.old) from.0
            turn (Body.Release lock mode version lines.now)).sends) }
        ensures processor { OnOk result (processor_of T.kind self.new ≡
            (effect_of (setup_of self.old) (me_of self.old) (processor_of T.kind self.old) from.0
            turn (Body.Release lock mode version lines.now)).processor) }
        ensures shape { OnOk result (IsShaped self.new) }
        ensures same { IsSameNode self.old self.new }
    {
        self.peers.set_last(from, turn);
        let granted = self.home.give(lock, from, mode, version, lines)?;
        self.send_grants(lock, &granted)
    }

    /// A request comes, which counts or is left alone.
    fn request_comes(
        &mut self,
        from: Proc,
        turn: u32,
        lock: Lock,
        mode: Mode,
        have: u32,
    ) -> Result<Sends, MemFault>
        requires shape { IsShaped self.old }
        requires from { from.0 < (setup_of self.old).procs }
        requires lock { lock.0 < (setup_of self.old).locks }
        ensures sends { IfOk result (λ sends. sends ≡
            (effect_of_body (setup_of self.old) (me_of self.old) (processor_of T.kind self.old)
            from.0 turn (Body.Req lock mode «have»)).sends) }
        ensures processor { OnOk result (processor_of T.kind self.new ≡
            (effect_of_body (setup_of self.old) (me_of self.old) (processor_of T.kind self.old)
            from.0 turn (Body.Req lock mode «have»)).processor) }
        ensures shape { OnOk result (IsShaped self.new) }
        ensures same { IsSameNode self.old self.new }
    {
        if self.may_ask(from, turn, lock) {
            self.take_request(from, turn, lock, mode, have)
        } else {
            Ok(Items::new(self.alloc))
        }
    }

    /// A release comes, which counts or is left alone.
    fn release_comes(
        &mut self,
        from: Proc,
        turn: u32,
        lock: Lock,
        mode: Mode,
        version: u32,
        lines: &LineList,
    ) -> Result<Sends, MemFault>
        requires shape { IsShaped self.old }
        requires from { from.0 < (setup_of self.old).procs }
        requires lock { lock.0 < (setup_of self.old).locks }
        requires lines { AreNumbered (setup_of self.old).bindings lines.now }
        ensures sends { IfOk result (λ sends. sends ≡
            (effect_of_body (setup_of self.old) (me_of self.old) (processor_of T.kind self.old)
            from.0 turn (Body.Release lock mode version lines.now)).sends) }
        ensures processor { OnOk result (processor_of T.kind self.new ≡
            (effect_of_body (setup_of self.old) (me_of self.old) (processor_of T.kind self.old)
            from.0 turn (Body.Release lock mode version lines.now)).processor) }
        ensures shape { OnOk result (IsShaped self.new) }
        ensures same { IsSameNode self.old self.new }
    {
        if self.may_give(from, turn, lock, mode, version, lines) {
            self.take_release(from, turn, lock, mode, version, lines)
        } else {
            Ok(Items::new(self.alloc))
        }
    }

    /// A body comes that a processor tells in this turn. Answers what is sent for it.
    fn dispatch(&mut self, from: Proc, turn: u32, body: Body) -> Result<Sends, MemFault>
        requires shape { IsShaped self.old }
        requires from { from.0 < (setup_of self.old).procs }
        requires names { BodyNames (setup_of self.old) body }
        requires kept { IsKeptBy (setup_of self.old) (me_of self.old) body }
        ensures sends { IfOk result (λ sends. sends ≡
            (effect_of_body (setup_of self.old) (me_of self.old) (processor_of T.kind self.old)
            from.0 turn body).sends) }
        ensures processor { OnOk result (processor_of T.kind self.new ≡
            (effect_of_body (setup_of self.old) (me_of self.old) (processor_of T.kind self.old)
            from.0 turn body).processor) }
        ensures shape { OnOk result (IsShaped self.new) }
        ensures same { IsSameNode self.old self.new }
    {
        match body {
            Body::Req { lock, mode, have } => self.request_comes(from, turn, lock, mode, have),
            Body::Release {
                lock,
                mode,
                version,
                lines,
            } => self.release_comes(from, turn, lock, mode, version, &lines),
            Body::Grant {
                lock,
                mode,
                turn,
                version,
                lines,
            } => {
                self.mail.put(MailGrant {
                    turn,
                    lock,
                    mode,
                    version,
                    lines,
                })?;
                Ok(Items::new(self.alloc))
            }
            Body::Arrive { bar, epoch, lines } => {
                self.arrival_comes(from, turn, bar, epoch, &lines)
            }
            Body::Opened { bar, epoch, lines } => self.opening_comes(bar, epoch, lines),
            _ => Ok(Items::new(self.alloc)),
        }
    }

    /// The same, by the definitions over all that a processor keeps.
    fn handle(&mut self, from: Proc, turn: u32, body: Body) -> Result<Sends, MemFault>
        requires whole { IsWhole T.kind self.old }
        requires from { from.0 < (setup_of self.old).procs }
        requires names { BodyNames (setup_of self.old) body }
        requires kept { IsKeptBy (setup_of self.old) (me_of self.old) body }
        ensures sends { IfOk result (λ sends. sends ≡
            (effect_of_body (setup_of self.old) (me_of self.old) (processor_of T.kind self.old)
            from.0 turn body).sends) }
        ensures processor { OnOk result (processor_of T.kind self.new ≡
            (effect_of_body (setup_of self.old) (me_of self.old) (processor_of T.kind self.old)
            from.0 turn body).processor) }
        ensures whole { OnOk result (IsWhole T.kind self.new) }
        ensures within { IfOk result (All (IsSendOf (setup_of self.old) (me_of self.old))) }
        ensures same { IsSameNode self.old self.new }
    {
        self.dispatch(from, turn, body)
    }

    /// One message to another processor.
    fn send(&self, to: Proc, body: Body) -> Result<Sends, MemFault>
        requires to { to.0 < (setup_of self.now).procs }
        requires names { BodyNames (setup_of self.now) body }
        requires kept { IsKeptBy (setup_of self.now) to.0 body }
        ensures sends { IfOk result (λ sends. sends ≡
            message (me_of self.now) (processor_of T.kind self.now) to.0 body ∷ []) }
        ensures within { IfOk result (All (IsSendOf (setup_of self.now) (me_of self.now))) }
    {
        let mut sends = Items::new(self.alloc);
        sends.push(self.message(to, body))?;
        Ok(sends)
    }

    /// Tells a home what a turn has for it: it handles that at once where it is this processor, and else is
    /// sent it.
    pub(super) fn tell(&mut self, body: Option<Body>) -> Result<Sends, MemFault>
        requires whole { IsWhole T.kind self.old }
        requires names { IfSome body (BodyNames (setup_of self.old)) }
        ensures sends { IfOk result (λ sends. sends ≡
            (effect_of_telling (setup_of self.old) (me_of self.old) (processor_of T.kind self.old)
            body).sends) }
        ensures processor { OnOk result (processor_of T.kind self.new ≡
            (effect_of_telling (setup_of self.old) (me_of self.old) (processor_of T.kind self.old)
            body).processor) }
        ensures whole { OnOk result (IsWhole T.kind self.new) }
        ensures within { IfOk result (All (IsSendOf (setup_of self.old) (me_of self.old))) }
        ensures same { IsSameNode self.old self.new }
    {
        let Some(body) = body else {
            return Ok(Items::new(self.alloc));
        };
        let Some(keeper) = keeper_of(&self.setup, &body) else {
            return Ok(Items::new(self.alloc));
        };
        if keeper.0 == self.me.0 {
            self.handle(self.me, self.turns, body)
        } else {
            self.send(keeper, body)
        }
    }

    /// Takes in what a message brings along, but for its lines.
    fn take_in(&mut self, from: Proc, carry: &Carry)
        requires whole { IsWhole T.kind self.old }
        requires from { from.0 < (setup_of self.old).procs }
        ensures processor { processor_of T.kind self.new ≡
            with_carry (processor_of T.kind self.old) from.0 carry.now }
        ensures whole { IsWhole T.kind self.new }
        ensures same { IsSameNode self.old self.new }
    {
        self.peers.take_in(from, carry);
        self.known = self.known.max(carry.seen);
    }

    /// What the processor does, where its replay doesn't end and it owes no `Note`.
    pub(super) fn unit_effects(&self, carried: Pending, sends: Sends, outs: Pending) -> Effects
        ensures { result ≡ record {
          carried = carried;
          sends = sends;
          replayed = false;
          rebuilt = [];
          outs = outs;
          note = None;
        } }
    {
        Effects {
            carried,
            sends,
            replayed: false,
            rebuilt: Items::new(self.alloc),
            outs,
            note: None,
        }
    }

    /// A message comes, from another processor to this one. `MemFault` for want of memory, or where a turn
    /// or a version doesn't fit its number; the processor is then of no more use.
    pub fn receive(&mut self, msg: Msg) -> Result<Effects, MemFault>
        requires whole { IsWhole T.kind self.old }
        requires from { msg.from.0 < (setup_of self.old).procs }
        requires names { BodyNames (setup_of self.old) msg.body }
        requires kept { IsKeptBy (setup_of self.old) (me_of self.old) msg.body }
        ensures effects { IfOk result (λ effects. effects ≡
            effects_of (effect_of_message (setup_of self.old) (me_of self.old)
            (processor_of T.kind self.old) msg)) }
        ensures processor { OnOk result (processor_of T.kind self.new ≡
            (effect_of_message (setup_of self.old) (me_of self.old) (processor_of T.kind self.old)
            msg).processor) }
        ensures whole { OnOk result (IsWhole T.kind self.new) }
        ensures within { IfOk result (λ effects. All (IsSendOf (setup_of self.old) (me_of self.old))
            effects.sends) }
        ensures same { IsSameNode self.old self.new }
    {
        let Msg {
            from,
            carry,
            body,
            ..
        } = msg;
        self.take_in(from, &carry);
        let sends = self.handle(from, carry.turn, body)?;
        Ok(self.unit_effects(carry.lines, sends, Items::new(self.alloc)))
    }
}
