//! The forms of the entries of a schedule, and the ranges of their numbers.

ghost use Rattle.std.specs.Prelude.{◌≡◌, ℕ, map, Some};
ghost use Rattle.dsm_sched.specs.declared.schedule.form.Form.{Form};
ghost use Rattle.dsm_sched.specs.Entries.{entry_at};
ghost use Rattle.dsm_sched.specs.ScheduleTexts.{crash_kind, image_kind, kind_of, form_by, form_of, proc_in, deliver_in, torn_in, counted, entry_in};

use crate::arguments::{counted_number, counted_numbers, is_count, one_number, two_numbers};
use crate::rows::Row;
use crate::schedule::Entry;
use dsm_base::{Act, Proc, SchedErr};

/// What an entry begins with.
#[derive(Clone, Copy, Debug, PartialEq, Eq)]
pub enum Kind {
    Step,
    Deliver,
    Finish,
    Ckpt,
    Block,
    Crash,
    Torn,
    Restart,
}

/// The numbers of an entry, in their ranges or not.
#[derive(Clone, Copy, Debug, PartialEq, Eq)]
pub enum Form {
    /// `step P [C]`.
    Step { proc: u32, count: u32 },
    /// `deliver P Q [C]`.
    Deliver { from: u32, to: u32, count: u32 },
    /// `finish K`.
    Finish { rounds: u32 },
    /// `ckpt P`.
    Ckpt { proc: u32 },
    /// `block P [C]`.
    Block { proc: u32, count: u32 },
    /// `crash P`.
    Crash { proc: u32 },
    /// `torn P K`.
    Torn { proc: u32, kept: u32 },
    /// `restart P`.
    Restart { proc: u32 },
}

fn crash_kind(name: &[u8]) -> Option<Kind>
    ensures { result ≡ crash_kind name.now }
{
    if name == b"crash".as_slice() {
        Some(Kind::Crash)
    } else if name == b"torn".as_slice() {
        Some(Kind::Torn)
    } else if name == b"restart".as_slice() {
        Some(Kind::Restart)
    } else {
        None
    }
}

fn image_kind(name: &[u8]) -> Option<Kind>
    ensures { result ≡ image_kind name.now }
{
    if name == b"ckpt".as_slice() {
        Some(Kind::Ckpt)
    } else if name == b"block".as_slice() {
        Some(Kind::Block)
    } else {
        crash_kind(name)
    }
}

fn read_kind(name: &[u8]) -> Option<Kind>
    ensures { result ≡ kind_of name.now }
{
    if name == b"step".as_slice() {
        Some(Kind::Step)
    } else if name == b"deliver".as_slice() {
        Some(Kind::Deliver)
    } else if name == b"finish".as_slice() {
        Some(Kind::Finish)
    } else {
        image_kind(name)
    }
}

/// The form of an entry of this kind, where there are the numbers that it has.
fn form_by(kind: Kind, arguments: &[&[u8]]) -> Option<Form>
    ensures { result ≡ form_by (map (λ word. word.now) arguments.now) kind }
{
    match kind {
        Kind::Step => {
            let (proc, count) = counted_number(arguments)?;
            Some(Form::Step { proc, count })
        }
        Kind::Deliver => {
            let (from, to, count) = counted_numbers(arguments)?;
            Some(Form::Deliver { from, to, count })
        }
        Kind::Finish => Some(Form::Finish {
            rounds: one_number(arguments)?,
        }),
        Kind::Ckpt => Some(Form::Ckpt {
            proc: one_number(arguments)?,
        }),
        Kind::Block => {
            let (proc, count) = counted_number(arguments)?;
            Some(Form::Block { proc, count })
        }
        Kind::Crash => Some(Form::Crash {
            proc: one_number(arguments)?,
        }),
        Kind::Torn => {
            let (proc, kept) = two_numbers(arguments)?;
            Some(Form::Torn { proc, kept })
        }
        Kind::Restart => Some(Form::Restart {
            proc: one_number(arguments)?,
        }),
    }
}

/// The form of an entry, where the words have one.
fn read_form(words: &[&[u8]]) -> Option<Form>
    ensures { result ≡ form_of (map (λ word. word.now) words.now) }
{
    let (name, arguments) = words.split_first()?;
    form_by(read_kind(name)?, arguments)
}

/// The processor of a number, where it is one.
fn proc_in(procs: u8, number: u32) -> Option<Proc>
    ensures { result ≡ proc_in procs number }
{
    if number < u32::from(procs) {
        Some(Proc(number as u8))
    } else {
        None
    }
}

/// A delivery between two processors that differ.
fn deliver_in(procs: u8, from: u32, to: u32) -> Option<Act>
    ensures { result ≡ deliver_in procs from to }
{
    let from = proc_in(procs, from)?;
    let to = proc_in(procs, to)?;
    if from.0 != to.0 {
        Some(Act::Deliver(from, to))
    } else {
        None
    }
}

/// A crash that leaves at most a whole block.
fn torn_in(procs: u8, proc: u32, kept: u32) -> Option<Act>
    ensures { result ≡ torn_in procs proc kept }
{
    let proc = proc_in(procs, proc)?;
    if kept <= 512 {
        Some(Act::Torn(proc, kept))
    } else {
        None
    }
}

/// So many units, where that is a number of units.
fn counted(act: Act, count: u32) -> Option<Entry>
    ensures { result ≡ counted (Some act) count }
{
    if is_count(count) {
        Some(Entry::Unit(act, count))
    } else {
        None
    }
}

fn finish_in(rounds: u32) -> Option<Entry>
    ensures { (procs : ℕ) → result ≡ entry_in procs (Form.Finish rounds) }
{
    if is_count(rounds) {
        Some(Entry::Finish(rounds))
    } else {
        None
    }
}

/// The entry of a form, where its numbers are in their ranges.
fn entry_in(procs: u8, form: Form) -> Option<Entry>
    ensures { result ≡ entry_in procs form }
{
    match form {
        Form::Step { proc, count } => counted(Act::Step(proc_in(procs, proc)?), count),
        Form::Deliver { from, to, count } => counted(deliver_in(procs, from, to)?, count),
        Form::Finish { rounds } => finish_in(rounds),
        Form::Ckpt { proc } => counted(Act::Ckpt(proc_in(procs, proc)?), 1),
        Form::Block { proc, count } => counted(Act::Block(proc_in(procs, proc)?), count),
        Form::Crash { proc } => counted(Act::Crash(proc_in(procs, proc)?), 1),
        Form::Torn { proc, kept } => counted(torn_in(procs, proc, kept)?, 1),
        Form::Restart { proc } => counted(Act::Restart(proc_in(procs, proc)?), 1),
    }
}

/// The entry that a row says, for so many processors, wherever it stands. `BadEntry` where it has no form
/// of one, `OutOfRange` where a number isn't in its range.
pub(crate) fn entry_at(procs: u8, row: &Row<'_>) -> Result<Entry, SchedErr>
    ensures { result ≡ entry_at row.now.line (form_of row.now.words) (entry_in procs) }
{
    let line = row.line();
    let form = read_form(row.words()).ok_or(SchedErr::BadEntry { line })?;
    entry_in(procs, form).ok_or(SchedErr::OutOfRange { line })
}
