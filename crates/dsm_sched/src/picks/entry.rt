//! The entries of a list of picks.

ghost use Rattle.std.specs.Prelude.{◌≡◌, map};
ghost use Rattle.dsm_sched.specs.PickTexts.{pick_form, all_form, form_of, entry_in, pick_at};

use crate::arguments::{counted_number, is_count, one_number};
use crate::picks::PickEntry;
use crate::rows::Row;
use dsm_base::{Proc, SchedErr};

/// The numbers of an entry, in their ranges or not.
#[derive(Clone, Copy, Debug, PartialEq, Eq)]
pub enum Form {
    /// `pick P [C]`.
    Pick { proc: u32, count: u32 },
    /// `all K`.
    All { rounds: u32 },
}

fn pick_form(arguments: &[&[u8]]) -> Option<Form>
    ensures { result ≡ pick_form (map (λ word. word.now) arguments.now) }
{
    let (proc, count) = counted_number(arguments)?;
    Some(Form::Pick { proc, count })
}

fn all_form(arguments: &[&[u8]]) -> Option<Form>
    ensures { result ≡ all_form (map (λ word. word.now) arguments.now) }
{
    let rounds = one_number(arguments)?;
    Some(Form::All { rounds })
}

/// The form of an entry, where the words have one.
fn read_form(words: &[&[u8]]) -> Option<Form>
    ensures { result ≡ form_of (map (λ word. word.now) words.now) }
{
    let (name, arguments) = words.split_first()?;
    if *name == b"pick".as_slice() {
        pick_form(arguments)
    } else if *name == b"all".as_slice() {
        all_form(arguments)
    } else {
        None
    }
}

/// The entry of a form, where its numbers are in their ranges.
fn entry_in(procs: u8, form: Form) -> Option<PickEntry>
    ensures { result ≡ entry_in procs form }
{
    match form {
        Form::Pick { proc, count } if proc < u32::from(procs) && is_count(count) => Some(
            PickEntry::Pick(Proc(proc as u8), count),
        ),
        Form::All { rounds } if is_count(rounds) => Some(PickEntry::All(rounds)),
        _ => None,
    }
}

/// The entry that a row says, for so many processors. `BadEntry` where it has no form of one,
/// `OutOfRange` where a number isn't in its range.
pub(crate) fn entry_at(procs: u8, row: &Row<'_>) -> Result<PickEntry, SchedErr>
    ensures { result ≡ pick_at procs row.now }
{
    let line = row.line();
    let form = read_form(row.words()).ok_or(SchedErr::BadEntry { line })?;
    entry_in(procs, form).ok_or(SchedErr::OutOfRange { line })
}
