//! Bodies in bytes, each kind by itself.

ghost use Rattle.std.specs.Prelude.{◌≡◌, ◌++◌, OnOk};
ghost use Rattle.dsm_msg.specs.declared.message.Body.TheViews.{out-Body};
ghost use Rattle.dsm_fields.specs.Fields.{Appends};
ghost use Rattle.dsm_msg.specs.Spelling.{kind_of, asking_fields, body_fields, report_fields};
ghost use Rattle.dsm_fields.specs.Reading.{Gives};
ghost use Rattle.dsm_msg.specs.Reading.{req_at, grant_body_at, given_at, release_at, arrive_at, opened_at, asking_at, resync_at, report_at, report_body_at, pruned_at, body_at};

use crate::entry::{Entry, counted, entries, put_counted};
use crate::lines::line_list;
use crate::message::{Body, Report, TurnBody};
use dsm_base::{Bar, Lock, MemFault, Mode};
use dsm_fields::{
    FieldErr, byte, is_over, keeps, mode, number, put_byte, put_mode, put_number, put_short,
    short_number,
};
use dsm_lines::LineList;
use sqlite_items::Items;
use std::alloc::Global;

#[tactic(auto, unfolding(crate::specs::Reading::req_at))]
fn req(bytes: &[u8]) -> Result<(Body, &[u8]), FieldErr>
    ensures { Gives (λ x. (x.0, x.1.now)) result (req_at bytes.now) }
{
    let (lock, rest) = short_number(bytes)?;
    let (mode, rest) = mode(rest)?;
    let (have, rest) = number(rest)?;
    let lock = Lock(lock);
    Ok((Body::Req { lock, mode, have }, rest))
}

#[tactic(auto, unfolding(crate::specs::Reading::grant_body_at))]
fn grant(alloc: Global, bytes: &[u8]) -> Result<(Body, &[u8]), FieldErr>
    ensures { Gives (λ x. (x.0, x.1.now)) result (grant_body_at bytes.now) }
{
    let (lock, rest) = short_number(bytes)?;
    let (mode, rest) = mode(rest)?;
    let (turn, rest) = number(rest)?;
    let (version, rest) = number(rest)?;
    let (lines, rest) = line_list(alloc, rest)?;
    let grant = Body::Grant {
        lock: Lock(lock),
        mode,
        turn,
        version,
        lines,
    };
    Ok((grant, rest))
}

/// The lines that a hold gives back; a shared one gives none.
#[tactic(auto, unfolding(crate::specs::Reading::given_at))]
fn given(alloc: Global, mode: Mode, bytes: &[u8]) -> Result<(LineList, &[u8]), FieldErr>
    ensures { Gives (λ x. (x.0, x.1.now)) result (given_at mode bytes.now) }
{
    let (count, rest) = number(bytes)?;
    keeps(mode == Mode::Excl || count == 0, bytes)?;
    let (lines, rest) = entries(alloc, count, rest)?;
    Ok((LineList::from_vec(lines), rest))
}

#[tactic(auto, unfolding(crate::specs::Reading::release_at))]
fn release(alloc: Global, bytes: &[u8]) -> Result<(Body, &[u8]), FieldErr>
    ensures { Gives (λ x. (x.0, x.1.now)) result (release_at bytes.now) }
{
    let (lock, rest) = short_number(bytes)?;
    let (mode, rest) = mode(rest)?;
    let (version, rest) = number(rest)?;
    let (lines, rest) = given(alloc, mode, rest)?;
    let release = Body::Release {
        lock: Lock(lock),
        mode,
        version,
        lines,
    };
    Ok((release, rest))
}

#[tactic(auto, unfolding(crate::specs::Reading::arrive_at))]
fn arrive(alloc: Global, bytes: &[u8]) -> Result<(Body, &[u8]), FieldErr>
    ensures { Gives (λ x. (x.0, x.1.now)) result (arrive_at bytes.now) }
{
    let (bar, rest) = byte(bytes)?;
    let (epoch, rest) = number(rest)?;
    let (lines, rest) = line_list(alloc, rest)?;
    let bar = Bar(bar);
    Ok((Body::Arrive { bar, epoch, lines }, rest))
}

#[tactic(auto, unfolding(crate::specs::Reading::opened_at))]
fn opened(alloc: Global, bytes: &[u8]) -> Result<(Body, &[u8]), FieldErr>
    ensures { Gives (λ x. (x.0, x.1.now)) result (opened_at bytes.now) }
{
    let (bar, rest) = byte(bytes)?;
    let (epoch, rest) = number(rest)?;
    let (lines, rest) = line_list(alloc, rest)?;
    let bar = Bar(bar);
    Ok((Body::Opened { bar, epoch, lines }, rest))
}

/// A body of a kind that goes to a lock's home or a barrier's manager.
fn asking(alloc: Global, kind: u8, bytes: &[u8]) -> Result<(Body, &[u8]), FieldErr>
    ensures { Gives (λ x. (x.0, x.1.now)) result (asking_at kind bytes.now) }
{
    match kind {
        1 => req(bytes),
        3 => release(alloc, bytes),
        _ => arrive(alloc, bytes),
    }
}

impl Entry for TurnBody {
    ghost use Rattle.dsm_msg.specs.Spelling.{turn_body_fields};
    ghost use Rattle.dsm_msg.specs.Reading.{turn_body_at};

    ghost entry_fields = { turn_body_fields };

    ghost entry_at = { turn_body_at };

    #[tactic(auto, unfolding(crate::specs::Reading::turn_body_at))]
    fn read<'a>(
        alloc: Global,
        last: Option<&TurnBody>,
        bytes: &'a [u8],
    ) -> Result<(TurnBody, &'a [u8]), FieldErr> {
        let (turn, rest) = number(bytes)?;
        keeps(is_over(last.map(|last| last.turn), turn), bytes)?;
        let (kind, after) = byte(rest)?;
        keeps(kind == 1 || kind == 3 || kind == 4, rest)?;
        let (body, rest) = asking(alloc, kind, after)?;
        Ok((TurnBody { turn, body }, rest))
    }

    fn write(&self, out: &mut Vec<u8>) -> Result<(), MemFault> {
        put_number(out, self.turn)?;
        put_byte(out, kind_of(&self.body))?;
        put_asking(out, &self.body)
    }
}

#[tactic(auto, unfolding(crate::specs::Reading::resync_at))]
fn resync(alloc: Global, bytes: &[u8]) -> Result<(Body, &[u8]), FieldErr>
    ensures { Gives (λ x. (x.0, x.1.now)) result (resync_at bytes.now) }
{
    let (bodies, rest) = counted(alloc, bytes)?;
    let bodies = Items::from_vec(bodies);
    Ok((Body::Resync { bodies }, rest))
}

#[tactic(auto, unfolding(crate::specs::Reading::report_at))]
fn report(alloc: Global, bytes: &[u8]) -> Result<(Report, &[u8]), FieldErr>
    ensures { Gives (λ x. (x.0, x.1.now)) result (report_at bytes.now) }
{
    let (grants, rest) = counted(alloc, bytes)?;
    let (openings, rest) = counted(alloc, rest)?;
    let (records, rest) = counted(alloc, rest)?;
    let (versions, rest) = counted(alloc, rest)?;
    let (arrivals, rest) = counted(alloc, rest)?;
    let (locks, rest) = counted(alloc, rest)?;
    let (bars, rest) = counted(alloc, rest)?;
    let report = Report {
        grants: Items::from_vec(grants),
        openings: Items::from_vec(openings),
        records: Items::from_vec(records),
        versions: Items::from_vec(versions),
        arrivals: Items::from_vec(arrivals),
        locks: Items::from_vec(locks),
        bars: Items::from_vec(bars),
    };
    Ok((report, rest))
}

#[tactic(auto, unfolding(crate::specs::Reading::report_body_at))]
fn report_body(alloc: Global, bytes: &[u8]) -> Result<(Body, &[u8]), FieldErr>
    ensures { Gives (λ x. (x.0, x.1.now)) result (report_body_at bytes.now) }
{
    let (report, rest) = report(alloc, bytes)?;
    Ok((Body::Report(report), rest))
}

#[tactic(auto, unfolding(crate::specs::Reading::pruned_at))]
fn pruned(alloc: Global, bytes: &[u8]) -> Result<(Body, &[u8]), FieldErr>
    ensures { Gives (λ x. (x.0, x.1.now)) result (pruned_at bytes.now) }
{
    let (turn, rest) = number(bytes)?;
    let (versions, rest) = counted(alloc, rest)?;
    let (crossings, rest) = counted(alloc, rest)?;
    let pruned = Body::Pruned {
        turn,
        versions: Items::from_vec(versions),
        crossings: Items::from_vec(crossings),
    };
    Ok((pruned, rest))
}

/// The body of this kind, and the bytes behind it.
#[tactic(auto, unfolding(crate::specs::Reading::body_at))]
pub(crate) fn body(alloc: Global, kind: u8, bytes: &[u8]) -> Result<(Body, &[u8]), FieldErr>
    ensures { Gives (λ x. (x.0, x.1.now)) result (body_at kind bytes.now) }
{
    match kind {
        1 => req(bytes),
        2 => grant(alloc, bytes),
        3 => release(alloc, bytes),
        4 => arrive(alloc, bytes),
        5 => opened(alloc, bytes),
        6 => Ok((Body::Note, bytes)),
        7 => Ok((Body::Ack, bytes)),
        8 => resync(alloc, bytes),
        9 => report_body(alloc, bytes),
        10 => pruned(alloc, bytes),
        _ => Err(FieldErr::Broken { left: bytes.len() }),
    }
}

/// The number of a body's kind.
pub(crate) fn kind_of(body: &Body) -> u8
    ensures { result ≡ kind_of body.now }
{
    match body {
        Body::Req { .. } => 1,
        Body::Grant { .. } => 2,
        Body::Release { .. } => 3,
        Body::Arrive { .. } => 4,
        Body::Opened { .. } => 5,
        Body::Note => 6,
        Body::Ack => 7,
        Body::Resync { .. } => 8,
        Body::Report(_) => 9,
        Body::Pruned { .. } => 10,
    }
}

/// Appends the fields of a body that goes to a home or manager, and nothing for another.
fn put_asking(out: &mut Vec<u8>, body: &Body) -> Result<(), MemFault>
    ensures { OnOk result
        (Appends (asking_fields (out-Body body.now)) out.old.items out.new.items) }
{
    match body {
        Body::Req { lock, mode, have } => {
            put_short(out, lock.0)?;
            put_mode(out, *mode)?;
            put_number(out, *have)
        }
        Body::Release {
            lock,
            mode,
            version,
            lines,
        } => {
            put_short(out, lock.0)?;
            put_mode(out, *mode)?;
            put_number(out, *version)?;
            put_counted(out, lines.as_slice())
        }
        Body::Arrive { bar, epoch, lines } => {
            put_byte(out, bar.0)?;
            put_number(out, *epoch)?;
            put_counted(out, lines.as_slice())
        }
        _ => Ok(()),
    }
}

/// Appends the seven lists of a report.
fn put_report(out: &mut Vec<u8>, report: &Report) -> Result<(), MemFault>
    ensures { OnOk result (Appends (report_fields report.now) out.old.items out.new.items) }
{
    put_counted(out, report.grants.as_slice())?;
    put_counted(out, report.openings.as_slice())?;
    put_counted(out, report.records.as_slice())?;
    put_counted(out, report.versions.as_slice())?;
    put_counted(out, report.arrivals.as_slice())?;
    put_counted(out, report.locks.as_slice())?;
    put_counted(out, report.bars.as_slice())
}

/// Appends the fields of a body.
pub(crate) fn put_body(out: &mut Vec<u8>, body: &Body) -> Result<(), MemFault>
    ensures { OnOk result (Appends (body_fields body.now) out.old.items out.new.items) }
{
    match body {
        Body::Grant {
            lock,
            mode,
            turn,
            version,
            lines,
        } => {
            put_short(out, lock.0)?;
            put_mode(out, *mode)?;
            put_number(out, *turn)?;
            put_number(out, *version)?;
            put_counted(out, lines.as_slice())
        }
        Body::Opened { bar, epoch, lines } => {
            put_byte(out, bar.0)?;
            put_number(out, *epoch)?;
            put_counted(out, lines.as_slice())
        }
        Body::Resync { bodies } => put_counted(out, bodies.as_slice()),
        Body::Report(report) => put_report(out, report),
        Body::Pruned {
            turn,
            versions,
            crossings,
        } => {
            put_number(out, *turn)?;
            put_counted(out, versions.as_slice())?;
            put_counted(out, crossings.as_slice())
        }
        _ => put_asking(out, body),
    }
}
