//! The texts of processors.

ghost use Rattle.std.specs.Prelude.{◌≡◌, None, Some, IfOk, string_bytes};
ghost use Rattle.dsm_net.specs.Processor.{live};
ghost use Rattle.dsm_processor.specs.Node.{processor_of};
ghost use Rattle.dsm_records.specs.Texts.{as_line};
ghost use Rattle.dsm_state.specs.Stops.{last_stop};
ghost use Rattle.dsm_state.specs.States.{stop_text, thread_text, processor_text};

use crate::stop::{Stop, last_stop};
use dsm_base::{Ending, MemFault, Proc, Task, fault_name};
use dsm_net::Group;
use dsm_processor::Node;
use std::alloc::Global;

/// For what a thread has stopped.
fn stop_text(alloc: Global, stop: Option<Stop>) -> Result<String, MemFault>
    ensures { IfOk result (λ text. string_bytes text ≡ stop_text stop) }
{
    match stop {
        None => Ok(String::from_str(alloc, "stop")?),
        Some(Stop { fault, line }) => {
            let fault = fault_name(fault);
            Ok(format!(in alloc; "stop {fault} {line}")?)
        }
    }
}

/// How a thread stands that came to be over in this way.
fn thread_text(
    alloc: Global,
    ending: Option<Ending>,
    proc: Proc,
    groups: &[Group],
) -> Result<String, MemFault>
    ensures { IfOk result (λ text. string_bytes text ≡
        thread_text ending (last_stop proc.0 None groups.now)) }
{
    match ending {
        None => Ok(String::from_str(alloc, "running")?),
        Some(Ending::Ended) => Ok(String::from_str(alloc, "end")?),
        Some(Ending::Stopped) => stop_text(alloc, last_stop(proc, None, groups)),
    }
}

/// How a processor stands, which lives.
pub fn processor_text<T: Task>(
    alloc: Global,
    proc: Proc,
    node: &Node<T>,
    groups: &[Group],
) -> Result<String, MemFault>
    ensures { IfOk result (λ text. string_bytes text ≡
        processor_text proc.0 (Some (processor_of T.kind node.now)) groups.now) }
{
    let thread = thread_text(alloc, node.ending(), proc, groups)?;
    let (number, turn) = (proc.0, node.turn());
    Ok(format!(in alloc; "P{number} turn {turn} {thread}")?)
}
