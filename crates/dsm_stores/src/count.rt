//! Counting the failures of a store that another one stands behind.

ghost use Rattle.std.specs.Prelude.{◌≡◌, ◌≤◌, OnOk};
ghost use Rattle.dsm_base.specs.Causes.{HasCause, HasFailureCause, Rose};

use dsm_base::{Failed, ReadErr};

/// One failure more.
pub fn raise(faults: &mut u64)
    ensures later { faults.old ≤ faults.new }
    ensures rose { Rose faults.old faults.new }
{
    *faults = faults.saturating_add(1);
}

/// Hands an answer on, and counts a failure.
pub fn counted<T>(faults: &mut u64, answer: Result<T, Failed>) -> Result<T, Failed>
    ensures answer { result ≡ answer }
    ensures cause { HasFailureCause faults.old faults.new result }
    ensures fine { OnOk result (faults.new ≡ faults.old) }
{
    if answer.is_err() {
        raise(faults);
    }
    answer
}

/// The same of an answer that can be out of memory too, which is no failure.
pub fn counted_room(faults: &mut u64, answer: Result<(), ReadErr>) -> Result<(), ReadErr>
    ensures answer { result ≡ answer }
    ensures cause { HasCause faults.old faults.new result }
    ensures fine { OnOk result (faults.new ≡ faults.old) }
{
    if let Err(ReadErr::Failed) = answer {
        raise(faults);
    }
    answer
}
