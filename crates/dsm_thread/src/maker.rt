//! Makes the threads of code.

ghost use Rattle.std.specs.Prelude.{◌≡◌, IsTrue, IfOk};
ghost use Rattle.dsm_code.specs.Valid.{is_valid};

use crate::thread::Thread;
use dsm_base::{MemFault, Proc, TaskMaker};
use dsm_code::Code;
use std::alloc::Global;
use std::rc::Rc;

/// Makes the threads of a program in code.
#[derive(Drop)]
pub struct CodeMaker {
    pub code: Rc<Code>,
    ghost valid: { IsTrue (is_valid code.value) },
}

impl CodeMaker {
    /// The maker of the threads of this code. `MemFault` comes out of memory.
    pub fn new(alloc: Global, code: Code) -> Result<CodeMaker, MemFault>
        ensures { IfOk result (λ maker. maker.code.value ≡ code) }
    {
        code.is_valid();
        Ok(CodeMaker {
            code: Rc::new(alloc, code)?,
        })
    }
}

impl TaskMaker for CodeMaker {
    type Made = Thread;

    ghost use Rattle.dsm_code.specs.Machine.{first_state};

    ghost first = { λ maker procs me. first_state maker.code.value procs me };

    fn start(&self, alloc: Global, me: Proc, procs: u8) -> Result<Thread, MemFault> {
        Thread::start(alloc, self.code.clone()?, me, procs)
    }

    ghost use Rattle.dsm_code.proofs.Asking.{code_asks_first};

    ghost asks_first = { λ maker procs me. code_asks_first maker.code.value procs me maker.valid };
}
