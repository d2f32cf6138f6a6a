//! How threads come to be over, and how far all of them have come.

ghost use Rattle.std.specs.Prelude.{◌≡◌, length, None, is_some};
ghost use Rattle.std.specs.List.{list_all};
ghost use Rattle.dsm_base.specs.Family.{family_of};
ghost use Rattle.dsm_base.specs.Endings.{ending_after, is_ended, finished_where, finished_by};

use crate::label::{Ending, Label};

/// How far the threads have come.
#[derive(Clone, Copy, Debug, PartialEq, Eq)]
pub enum Finished {
    /// Each has ended.
    Done,
    /// Each has ended or stopped, and some have stopped.
    Stopped,
    /// Some have neither ended nor stopped.
    Unfinished,
}

/// How a thread came to be over, after one more label.
pub fn ending_after(ending: Option<Ending>, label: &Label) -> Option<Ending>
    ensures { result ≡ ending_after ending label.now }
{
    match label {
        Label::End => Some(Ending::Ended),
        Label::Stop(..) => Some(Ending::Stopped),
        _ => ending,
    }
}

/// Whether a thread has ended.
pub fn is_ended(ending: Option<Ending>) -> bool
    ensures { result ≡ is_ended ending }
{
    ending == Some(Ending::Ended)
}

/// By whether each thread has ended, and whether each has ended or stopped.
pub fn finished_where(all_ended: bool, all_over: bool) -> Finished
    ensures { result ≡ finished_where all_ended all_over }
{
    if all_ended {
        Finished::Done
    } else if all_over {
        Finished::Stopped
    } else {
        Finished::Unfinished
    }
}

/// Whether each thread has ended.
fn are_ended(endings: &[Option<Ending>]) -> bool
    ensures { result ≡ list_all is_ended endings.now }
{
    endings.iter().all(|ending| is_ended(*ending))
}

/// Whether each thread has ended or stopped.
fn are_over(endings: &[Option<Ending>]) -> bool
    ensures { result ≡ list_all is_some endings.now }
{
    endings.iter().all(|ending| ending.is_some())
}

/// By how the thread of each processor came to be over.
pub fn finished_by(endings: &[Option<Ending>]) -> Finished
    ensures { result ≡ finished_by (length endings.now) (family_of (λ p. None) endings.now) }
{
    finished_where(are_ended(endings), are_over(endings))
}
