//! What other processors are still to be told, in bytes.

ghost use Rattle.std.specs.Prelude.{◌≡◌, ℕ, None, OnOk};
ghost use Rattle.dsm_base.specs.declared.setup.Object.{Object};
ghost use Rattle.dsm_fields.specs.Fields.{Appends};
ghost use Rattle.dsm_fields.specs.Reading.{Gives};
ghost use Rattle.dsm_image_parts.specs.declared.scope.Scope.{Scope};
ghost use Rattle.dsm_image_parts.specs.Spelling.{asking_fields};
ghost use Rattle.dsm_image_parts.specs.Reading.{listed_with_at, line_at, req_at, release_at, arrive_at, asking_at, outbox_at};
ghost use Rattle.dsm_image_parts.specs.Keys.{others, each_at};
ghost use Rattle.dsm_msg.specs.declared.message.Body.TheViews.{out-Body};
ghost use Rattle.dsm_msg.specs.Spelling.{kind_of, may_give};

use crate::entries::Outbox;
use crate::keys::{is_home, is_manager, others};
use crate::lines::line_list;
use crate::part::{Part, each, listed, parts, put_listed};
use crate::scope::Scope;
use dsm_base::{Bar, Lock, MemFault, Mode, Object, Proc};
use dsm_fields::{
    FieldErr, byte, is_over, keeps, mode, number, put_byte, put_mode, put_number, put_short,
    short_number,
};
use dsm_lines::{Line, LineList};
use dsm_msg::{Body, TurnBody};
use sqlite_items::Items;
use std::alloc::Global;

#[tactic(auto, unfolding(crate::specs::Reading::req_at))]
fn req<'a>(scope: &Scope, to: Proc, bytes: &'a [u8]) -> Result<(Body, &'a [u8]), FieldErr>
    ensures { Gives (λ x. (x.0, x.1.now)) result (req_at scope.now to.0 bytes.now) }
{
    let (lock, rest) = short_number(bytes)?;
    keeps(lock < scope.locks && is_home(scope, to, lock), bytes)?;
    let (mode, rest) = mode(rest)?;
    let (have, rest) = number(rest)?;
    let lock = Lock(lock);
    Ok((Body::Req { lock, mode, have }, rest))
}

/// The lines that a hold of a lock gives back; a shared one gives none.
#[tactic(auto, unfolding(crate::specs::Reading::listed_with_at))]
fn given<'a>(
    alloc: Global,
    scope: &Scope,
    lock: Lock,
    mode: Mode,
    bytes: &'a [u8],
) -> Result<(LineList, &'a [u8]), FieldErr>
    ensures { Gives (λ x. (x.0, x.1.now)) result
        (listed_with_at (may_give mode) (line_at scope.now (Object.Lock lock)) bytes.now) }
{
    let (count, rest) = number(bytes)?;
    keeps(mode == Mode::Excl || count == 0, bytes)?;
    let object = Object::Lock(lock);
    let (lines, rest) = parts::<Object, Line>(alloc, scope, object, count, rest)?;
    Ok((LineList::from_vec(lines), rest))
}

#[tactic(auto, unfolding(crate::specs::Reading::release_at))]
fn release<'a>(
    alloc: Global,
    scope: &Scope,
    to: Proc,
    bytes: &'a [u8],
) -> Result<(Body, &'a [u8]), FieldErr>
    ensures { Gives (λ x. (x.0, x.1.now)) result (release_at scope.now to.0 bytes.now) }
{
    let (lock, rest) = short_number(bytes)?;
    keeps(lock < scope.locks && is_home(scope, to, lock), bytes)?;
    let lock = Lock(lock);
    let (mode, rest) = mode(rest)?;
    let (version, rest) = number(rest)?;
    let (lines, rest) = given(alloc, scope, lock, mode, rest)?;
    let release = Body::Release {
        lock,
        mode,
        version,
        lines,
    };
    Ok((release, rest))
}

#[tactic(auto, unfolding(crate::specs::Reading::arrive_at))]
fn arrive<'a>(
    alloc: Global,
    scope: &Scope,
    to: Proc,
    bytes: &'a [u8],
) -> Result<(Body, &'a [u8]), FieldErr>
    ensures { Gives (λ x. (x.0, x.1.now)) result (arrive_at scope.now to.0 bytes.now) }
{
    let (bar, rest) = byte(bytes)?;
    keeps(bar < scope.bars && is_manager(scope, to, bar), bytes)?;
    let bar = Bar(bar);
    let (epoch, rest) = number(rest)?;
    let (lines, rest) = line_list(alloc, scope, Object::Bar(bar), rest)?;
    Ok((Body::Arrive { bar, epoch, lines }, rest))
}

/// A body of a kind that goes to a lock's home or a barrier's manager.
fn asking<'a>(
    alloc: Global,
    scope: &Scope,
    to: Proc,
    kind: u8,
    bytes: &'a [u8],
) -> Result<(Body, &'a [u8]), FieldErr>
    ensures { Gives (λ x. (x.0, x.1.now)) result (asking_at scope.now to.0 kind bytes.now) }
{
    match kind {
        1 => req(scope, to, bytes),
        3 => release(alloc, scope, to, bytes),
        _ => arrive(alloc, scope, to, bytes),
    }
}

/// The number of a body's kind.
fn kind_of(body: &Body) -> u8
    ensures { result ≡ kind_of body.now }
{
    match body {
        Body::Req { .. } => 1,
        Body::Grant { .. } => 2,
        Body::Release { .. } => 3,
        Body::Arrive { .. } => 4,
        Body::Opened { .. } => 5,
        Body::Note => 6,
        Body::Ack => 7,
        Body::Resync { .. } => 8,
        Body::Report(_) => 9,
        Body::Pruned { .. } => 10,
    }
}

/// Appends the fields of a body that goes to a home or manager, and nothing for another.
fn put_asking(out: &mut Vec<u8>, body: &Body) -> Result<(), MemFault>
    ensures { OnOk result ((scope : Scope) (to : ℕ) →
        Appends (asking_fields scope to (out-Body body.now)) out.old.items out.new.items) }
{
    match body {
        Body::Req { lock, mode, have } => {
            put_short(out, lock.0)?;
            put_mode(out, *mode)?;
            put_number(out, *have)
        }
        Body::Release {
            lock,
            mode,
            version,
            lines,
        } => {
            put_short(out, lock.0)?;
            put_mode(out, *mode)?;
            put_number(out, *version)?;
            put_listed::<Object, Line>(out, lines.as_slice())
        }
        Body::Arrive { bar, epoch, lines } => {
            put_byte(out, bar.0)?;
            put_number(out, *epoch)?;
            put_listed::<Object, Line>(out, lines.as_slice())
        }
        _ => Ok(()),
    }
}

/// A body for one processor.
impl Part<Proc> for TurnBody {
    ghost use Rattle.dsm_image_parts.specs.Spelling.{sent_fields};
    ghost use Rattle.dsm_image_parts.specs.Reading.{sent_at};

    ghost part_fields = { λ scope to. sent_fields scope to.0 };

    ghost part_at = { λ scope to. sent_at scope to.0 };

    #[tactic(auto, unfolding(crate::specs::Reading::sent_at))]
    fn read<'a>(
        alloc: Global,
        scope: &Scope,
        to: Proc,
        _number: u32,
        last: Option<&TurnBody>,
        bytes: &'a [u8],
    ) -> Result<(TurnBody, &'a [u8]), FieldErr> {
        let (turn, rest) = number(bytes)?;
        keeps(is_over(last.map(|last| last.turn), turn), bytes)?;
        let (kind, after) = byte(rest)?;
        keeps(kind == 1 || kind == 3 || kind == 4, rest)?;
        let (body, rest) = asking(alloc, scope, to, kind, after)?;
        Ok((TurnBody { turn, body }, rest))
    }

    fn write(&self, out: &mut Vec<u8>) -> Result<(), MemFault> {
        put_number(out, self.turn)?;
        put_byte(out, kind_of(&self.body))?;
        put_asking(out, &self.body)
    }
}

/// What one processor is still to be told.
impl Part<Proc> for Outbox {
    ghost use Rattle.dsm_image_parts.specs.Spelling.{outbox_fields};
    ghost use Rattle.dsm_image_parts.specs.Reading.{outbox_at};

    ghost part_fields = { λ scope to. outbox_fields scope };

    ghost part_at = { λ scope to at last. outbox_at scope to };

    #[tactic(auto, unfolding(crate::specs::Reading::outbox_at))]
    fn read<'a>(
        alloc: Global,
        scope: &Scope,
        to: Proc,
        _number: u32,
        _last: Option<&Outbox>,
        bytes: &'a [u8],
    ) -> Result<(Outbox, &'a [u8]), FieldErr> {
        let (bodies, rest) = listed::<Proc, TurnBody>(alloc, scope, to, bytes)?;
        let outbox = Outbox {
            proc: to,
            bodies: Items::from_vec(bodies),
        };
        Ok((outbox, rest))
    }

    fn write(&self, out: &mut Vec<u8>) -> Result<(), MemFault> {
        put_listed::<Proc, TurnBody>(out, self.bodies.as_slice())
    }
}

/// What each other processor is still to be told, and the bytes behind it.
pub fn outboxes<'a>(
    alloc: Global,
    scope: &Scope,
    me: Proc,
    bytes: &'a [u8],
) -> Result<(Vec<Outbox>, &'a [u8]), FieldErr>
    ensures { Gives (λ x. (x.0.items, x.1.now)) result
        (each_at (λ proc last. outbox_at scope.now proc) None (others scope.now me.0) bytes.now) }
{
    let procs = others(alloc, scope, me)?;
    each::<Proc, Outbox>(alloc, scope, procs.as_slice(), bytes)
}
