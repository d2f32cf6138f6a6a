//! The answer of `check`.

ghost use Rattle.std.specs.Prelude.{◌≡◌, []};
ghost use Rattle.dsm_top.specs.Ended.{left_by, ok_line, Tells};

use crate::output::put_all;
use crate::status::{Report, Status};
use dsm_base::Sink;
use std::alloc::Global;

/// Tells that a program is accepted.
pub(crate) fn answer_check<K: Sink>(alloc: Global, out: &mut K) -> Report
    ensures tells { Tells ok_line Status.Done
        (left_by K.sink_holds K.sink_faults out.old out.new result) result.status }
    ensures no_trace { result.trace ≡ [] }
    ensures no_units { result.units ≡ 0 }
{
    let status = match put_all(out, b"ok\n") {
        Ok(()) => Status::Done,
        Err(error) => Status::from(error),
    };
    Report::untraced(alloc, status, 0)
}
