//! The lines that turns print.

ghost use Rattle.std.specs.Prelude.{◌≡◌, ◌++◌, IfOk, codes};
ghost use Rattle.std.specs.Fmt.{decimal};
ghost use Rattle.dsm_base.specs.Output.{fault_name, line_text, printed_line, printed_of};

use crate::errors::MemFault;
use crate::label::Label;
use crate::names::{Fault, Proc};
use crate::text::Text;
use sqlite_items::Items;
use std::alloc::Global;

/// Lines as they are put out, each with its newline.
pub type PrintedLines = Items<Text>;

/// The word for a fault.
pub fn fault_name(fault: Fault) -> &'static str
    ensures { result.now ≡ fault_name fault }
{
    match fault {
        Fault::Overflow => "overflow",
        Fault::DivZero => "divzero",
        Fault::Shift => "shift",
        Fault::Index => "index",
        Fault::Depth => "depth",
        Fault::Unbound => "unbound",
        Fault::Held => "held",
        Fault::NotHeld => "notheld",
    }
}

/// The text of a fault at a line of the source.
fn fault_text(alloc: Global, fault: Fault, line: u32) -> Result<Text, MemFault>
    ensures { IfOk result (λ text. text ≡ codes "fault " ++ fault_name fault ++ codes " line " ++
        decimal line) }
{
    let name = fault_name(fault);
    let text = format!(in alloc; "fault {name} line {line}")?;
    Ok(Text::from_vec(text.into_bytes()))
}

/// The text of the line of a label, where it prints one. `MemFault` comes out of memory.
pub fn line_text(alloc: Global, label: &Label) -> Result<Option<Text>, MemFault>
    ensures { IfOk result (λ text. text ≡ line_text label.now) }
{
    match label {
        Label::Line(text) => Ok(Some(Text::from_slice(alloc, text.as_slice())?)),
        Label::Stop(fault, line) => Ok(Some(fault_text(alloc, *fault, *line)?)),
        _ => Ok(None),
    }
}

/// The line of a text of a processor, with its newline. `MemFault` comes out of memory.
pub fn printed_line(alloc: Global, proc: Proc, text: &Text) -> Result<Text, MemFault>
    ensures { IfOk result (λ line. line ≡ printed_line proc.0 text.now) }
{
    let number = proc.0;
    let mut line = format!(in alloc; "P{number}: ")?.into_bytes();
    line.extend_from_slice(text.as_slice())?;
    line.push(b'\n')?;
    Ok(Text::from_vec(line))
}

/// The line that a turn of a processor prints, with its newline; no bytes where it prints none.
/// `MemFault` comes out of memory.
pub fn turn_line(alloc: Global, proc: Proc, label: &Label) -> Result<Text, MemFault>
    ensures { IfOk result (λ line. line ≡ printed_of proc.0 (line_text label.now)) }
{
    match line_text(alloc, label)? {
        Some(text) => printed_line(alloc, proc, &text),
        None => Ok(Text::from_vec(Vec::new(alloc))),
    }
}
