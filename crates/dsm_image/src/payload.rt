//! What stands between the length and the digest of an image.

ghost use Rattle.std.specs.Prelude.{◌≡◌, ◌++◌, OnOk};
ghost use Rattle.dsm_fields.specs.Fields.{Appends};
ghost use Rattle.dsm_fields.specs.Reading.{Gives};
ghost use Rattle.dsm_image_parts.specs.declared.scope.Scope.{Scope};
ghost use Rattle.dsm_image.specs.Spelling.{head_of, own_of, mail_of, tail_of, made_of, served_of, head_fields, own_fields, mail_fields, tail_fields, made_fields, served_fields, payload_fields};
ghost use Rattle.dsm_image.specs.Reading.{head_at, own_at, mail_at, tail_at, made_at, served_at, payload_at};

use crate::image::{Head, Image, Made, Mail, Own, Served, Tail};
use dsm_base::{Lock, MemFault, PendingLine, Proc, Record};
use dsm_fields::{FieldErr, byte, keeps, number, put_byte, put_count, put_number, text};
use dsm_image_parts::{
    Outbox, OwnBar, OwnLock, ProcLog, SavedLock, Scope, listed, listed_exactly, logs, outboxes,
    parts, put_listed, put_parts, saved_locks,
};
use dsm_lines::{Arrival, MailGrant, MailOpening, Version};
use sqlite_items::Items;
use std::alloc::Global;

#[tactic(auto, unfolding(crate::specs::Reading::head_at))]
fn head<'a>(alloc: Global, scope: &Scope, bytes: &'a [u8]) -> Result<(Head, &'a [u8]), FieldErr>
    ensures { Gives (λ x. (x.0, x.1.now)) result (head_at scope.now bytes.now) }
{
    let (me, after) = byte(bytes)?;
    keeps(me < scope.procs, bytes)?;
    let (procs, rest) = byte(after)?;
    keeps(procs == scope.procs, after)?;
    let (turn, rest) = number(rest)?;
    let (count, rest) = number(rest)?;
    let (thread, rest) = text(alloc, count as usize, rest)?;
    let head = Head {
        me: Proc(me),
        procs,
        turn,
        thread,
    };
    Ok((head, rest))
}

#[tactic(auto, unfolding(crate::specs::Reading::own_at))]
fn own<'a>(
    alloc: Global,
    scope: &Scope,
    me: Proc,
    bytes: &'a [u8],
) -> Result<(Own, &'a [u8]), FieldErr>
    ensures { Gives (λ x. (x.0, x.1.now)) result (own_at scope.now bytes.now) }
{
    let (copy, rest) = listed_exactly::<Proc, i64>(alloc, scope, me, scope.cells, bytes)?;
    let lines = scope.table.lines();
    let (marked, rest) = listed::<u32, u32>(alloc, scope, lines, rest)?;
    let locks = scope.locks as u32;
    let (locks, rest) = listed_exactly::<Proc, OwnLock>(alloc, scope, me, locks, rest)?;
    let bars = scope.bars as u32;
    let (bars, rest) = listed_exactly::<Proc, OwnBar>(alloc, scope, me, bars, rest)?;
    let own = Own {
        copy: Items::from_vec(copy),
        marked: Items::from_vec(marked),
        locks: Items::from_vec(locks),
        bars: Items::from_vec(bars),
    };
    Ok((own, rest))
}

#[tactic(auto, unfolding(crate::specs::Reading::mail_at))]
fn mail<'a>(
    alloc: Global,
    scope: &Scope,
    me: Proc,
    bytes: &'a [u8],
) -> Result<(Mail, &'a [u8]), FieldErr>
    ensures { Gives (λ x. (x.0, x.1.now)) result (mail_at scope.now me.0 bytes.now) }
{
    let (grants, rest) = listed::<Proc, MailGrant>(alloc, scope, me, bytes)?;
    let (openings, rest) = listed::<Proc, MailOpening>(alloc, scope, me, rest)?;
    let (seen, rest) = parts::<Proc, u32>(alloc, scope, me, scope.procs as u32, rest)?;
    let (outbox, rest) = outboxes(alloc, scope, me, rest)?;
    let mail = Mail {
        grants: Items::from_vec(grants),
        openings: Items::from_vec(openings),
        seen: Items::from_vec(seen),
        outbox: Items::from_vec(outbox),
    };
    Ok((mail, rest))
}

#[tactic(auto, unfolding(crate::specs::Reading::tail_at))]
fn tail<'a>(
    alloc: Global,
    scope: &Scope,
    me: Proc,
    bytes: &'a [u8],
) -> Result<(Tail, &'a [u8]), FieldErr>
    ensures { Gives (λ x. (x.0, x.1.now)) result (tail_at scope.now bytes.now) }
{
    let (held, rest) = number(bytes)?;
    let (records, rest) = listed::<Proc, Record>(alloc, scope, me, rest)?;
    let (lines, rest) = listed::<Proc, PendingLine>(alloc, scope, me, rest)?;
    let tail = Tail {
        held,
        records: Items::from_vec(records),
        lines: Items::from_vec(lines),
    };
    Ok((tail, rest))
}

#[tactic(auto, unfolding(crate::specs::Reading::made_at))]
fn made<'a>(
    alloc: Global,
    scope: &Scope,
    me: Proc,
    bytes: &'a [u8],
) -> Result<(Made, &'a [u8]), FieldErr>
    ensures { Gives (λ x. (x.0, x.1.now)) result (made_at scope.now bytes.now) }
{
    let (versions, rest) = listed::<Proc, Version>(alloc, scope, me, bytes)?;
    let (arrivals, rest) = listed::<Proc, Arrival>(alloc, scope, me, rest)?;
    let made = Made {
        versions: Items::from_vec(versions),
        arrivals: Items::from_vec(arrivals),
    };
    Ok((made, rest))
}

#[tactic(auto, unfolding(crate::specs::Reading::served_at))]
fn served<'a>(
    alloc: Global,
    scope: &Scope,
    me: Proc,
    bytes: &'a [u8],
) -> Result<(Served, &'a [u8]), FieldErr>
    ensures { Gives (λ x. (x.0, x.1.now)) result (served_at scope.now me.0 bytes.now) }
{
    let (homes, rest) = saved_locks(alloc, scope, me, bytes)?;
    let (logs, rest) = logs(alloc, scope, me, rest)?;
    let served = Served {
        homes: Items::from_vec(homes),
        logs: Items::from_vec(logs),
    };
    Ok((served, rest))
}

/// The image that the bytes between the length and the digest spell, and the bytes behind it.
#[tactic(auto, unfolding(crate::specs::Reading::payload_at))]
pub(crate) fn payload<'a>(
    alloc: Global,
    scope: &Scope,
    bytes: &'a [u8],
) -> Result<(Image, &'a [u8]), FieldErr>
    ensures { Gives (λ x. (x.0, x.1.now)) result (payload_at scope.now bytes.now) }
{
    let (head, rest) = head(alloc, scope, bytes)?;
    let me = head.me;
    let (own, rest) = own(alloc, scope, me, rest)?;
    let (mail, rest) = mail(alloc, scope, me, rest)?;
    let (tail, rest) = tail(alloc, scope, me, rest)?;
    let (made, rest) = made(alloc, scope, me, rest)?;
    let (served, rest) = served(alloc, scope, me, rest)?;
    let image = Image {
        me,
        procs: head.procs,
        turn: head.turn,
        thread: head.thread,
        copy: own.copy,
        marked: own.marked,
        locks: own.locks,
        bars: own.bars,
        grants: mail.grants,
        openings: mail.openings,
        seen: mail.seen,
        outbox: mail.outbox,
        held: tail.held,
        records: tail.records,
        lines: tail.lines,
        versions: made.versions,
        arrivals: made.arrivals,
        homes: served.homes,
        logs: served.logs,
    };
    Ok((image, rest))
}

fn put_head(out: &mut Vec<u8>, image: &Image) -> Result<(), MemFault>
    ensures { OnOk result ((scope : Scope) →
        Appends (head_fields scope (head_of image.now)) out.old.items out.new.items) }
{
    put_byte(out, image.me.0)?;
    put_byte(out, image.procs)?;
    put_number(out, image.turn)?;
    put_count(out, image.thread.len())?;
    out.extend_from_slice(image.thread.as_slice())?;
    Ok(())
}

fn put_own(out: &mut Vec<u8>, image: &Image) -> Result<(), MemFault>
    ensures { OnOk result ((scope : Scope) →
        Appends (own_fields scope (own_of image.now)) out.old.items out.new.items) }
{
    put_listed::<Proc, i64>(out, image.copy.as_slice())?;
    put_listed::<u32, u32>(out, image.marked.as_slice())?;
    put_listed::<Proc, OwnLock>(out, image.locks.as_slice())?;
    put_listed::<Proc, OwnBar>(out, image.bars.as_slice())
}

fn put_mail(out: &mut Vec<u8>, image: &Image) -> Result<(), MemFault>
    ensures { OnOk result ((scope : Scope) →
        Appends (mail_fields scope image.now.me.0 (mail_of image.now)) out.old.items out.new.items) }
{
    put_listed::<Proc, MailGrant>(out, image.grants.as_slice())?;
    put_listed::<Proc, MailOpening>(out, image.openings.as_slice())?;
    put_parts::<Proc, u32>(out, image.seen.as_slice())?;
    put_parts::<Proc, Outbox>(out, image.outbox.as_slice())
}

fn put_tail(out: &mut Vec<u8>, image: &Image) -> Result<(), MemFault>
    ensures { OnOk result ((scope : Scope) →
        Appends (tail_fields scope (tail_of image.now)) out.old.items out.new.items) }
{
    put_number(out, image.held)?;
    put_listed::<Proc, Record>(out, image.records.as_slice())?;
    put_listed::<Proc, PendingLine>(out, image.lines.as_slice())
}

fn put_made(out: &mut Vec<u8>, image: &Image) -> Result<(), MemFault>
    ensures { OnOk result ((scope : Scope) →
        Appends (made_fields scope (made_of image.now)) out.old.items out.new.items) }
{
    put_listed::<Proc, Version>(out, image.versions.as_slice())?;
    put_listed::<Proc, Arrival>(out, image.arrivals.as_slice())
}

fn put_served(out: &mut Vec<u8>, image: &Image) -> Result<(), MemFault>
    ensures { OnOk result ((scope : Scope) →
        Appends (served_fields scope (served_of image.now)) out.old.items out.new.items) }
{
    put_parts::<Lock, SavedLock>(out, image.homes.as_slice())?;
    put_parts::<Proc, ProcLog>(out, image.logs.as_slice())
}

/// Appends what stands between the length and the digest.
pub(crate) fn put_payload(out: &mut Vec<u8>, image: &Image) -> Result<(), MemFault>
    ensures { OnOk result ((scope : Scope) →
        Appends (payload_fields scope image.now) out.old.items out.new.items) }
{
    put_head(out, image)?;
    put_own(out, image)?;
    put_mail(out, image)?;
    put_tail(out, image)?;
    put_made(out, image)?;
    put_served(out, image)
}
