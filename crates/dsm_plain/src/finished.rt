//! How far the threads have come.

ghost use Rattle.std.specs.Prelude.{◌≡◌, is_some};
ghost use Rattle.std.specs.List.{list_all};
ghost use Rattle.dsm_base.specs.Endings.{is_ended, finished_by};
ghost use Rattle.dsm_semantics.specs.States.{ending_of};
ghost use Rattle.dsm_interpreter.specs.Threads.{state_of};
ghost use Rattle.dsm_plain.specs.Machine.{endings_at, IsWhole};

use crate::machine::Plain;
use dsm_base::{Finished, finished_where, is_ended};
use dsm_interpreter::PlainThread;

/// Whether each thread has ended.
fn all_ended(threads: &[PlainThread<'_>]) -> bool
    ensures { result ≡ list_all (λ thread. is_ended (ending_of (state_of thread))) threads.now }
{
    threads.iter().all(|thread| is_ended(thread.ending()))
}

/// Whether each thread has ended or stopped.
fn all_over(threads: &[PlainThread<'_>]) -> bool
    ensures { result ≡ list_all (λ thread. is_some (ending_of (state_of thread))) threads.now }
{
    threads.iter().all(|thread| thread.ending().is_some())
}

impl Plain<'_> {
    /// How far the threads have come.
    pub fn finished(&self) -> Finished
        requires { IsWhole self.now }
        ensures { result ≡ finished_by self.now.setup.procs (endings_at self.now) }
    {
        let threads = self.threads.as_slice();
        finished_where(all_ended(threads), all_over(threads))
    }
}
