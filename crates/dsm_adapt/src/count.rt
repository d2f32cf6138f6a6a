//! Counting the failures of the host.

ghost use Rattle.std.specs.Prelude.{◌≡◌, ◌≢◌, ◌≤◌, IfOk, IfErr, Ok, Err};
ghost use Rattle.std.specs.IoError.{error_kind};
ghost use Rattle.std.specs.declared.io.ErrorKind.TheVariants.{OutOfMemory};
ghost use Rattle.dsm_base.specs.declared.errors.ReadErr.{ReadErr};
ghost use Rattle.dsm_base.specs.Causes.{HasCause, HasFailureCause, Rose};

use dsm_base::{Failed, ReadErr};
use std::io::{self, ErrorKind};

/// One failure more.
pub fn raise(faults: &mut u64)
    ensures later { faults.old ≤ faults.new }
    ensures rose { Rose faults.old faults.new }
{
    *faults = faults.saturating_add(1);
}

/// Hands on what the host answered. Each of its errors is a failure, out of memory too.
pub fn counted<T: Drop>(faults: &mut u64, answer: io::Result<T>) -> Result<T, Failed>
    ensures answer { IfOk result (λ value. answer ≡ Ok value) }
    ensures value { IfOk answer (λ value. result ≡ Ok value) }
    ensures cause { HasFailureCause faults.old faults.new result }
{
    match answer {
        Ok(value) => Ok(value),
        Err(_) => {
            raise(faults);
            Err(Failed)
        }
    }
}

/// Hands on what the host answered. Each of its errors is a failure, but not out of memory.
pub fn counted_or_memory<T: Drop>(faults: &mut u64, answer: io::Result<T>) -> Result<T, ReadErr>
    ensures answer { IfOk result (λ value. answer ≡ Ok value) }
    ensures value { IfOk answer (λ value. result ≡ Ok value) }
    ensures memory { IfErr answer (λ error. error_kind error ≡ OutOfMemory →
        result ≡ Err ReadErr.Memory) }
    ensures failed { IfErr answer (λ error. error_kind error ≢ OutOfMemory →
        result ≡ Err ReadErr.Failed) }
    ensures cause { HasCause faults.old faults.new result }
{
    match answer {
        Ok(value) => Ok(value),
        Err(error) if error.kind() == ErrorKind::OutOfMemory => Err(ReadErr::Memory),
        Err(_) => {
            raise(faults);
            Err(ReadErr::Failed)
        }
    }
}
