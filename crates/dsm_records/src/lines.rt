//! The lines that go out in a unit.

ghost use Rattle.std.specs.Prelude.{◌≡◌, IfOk};
ghost use Rattle.dsm_records.specs.Outputs.{lines_of};

use dsm_base::{MemFault, PrintedLines, printed_line};
use dsm_net::{Rec, Records};
use sqlite_items::Items;
use std::alloc::Global;

/// The lines that go out in these records, each with its newline. `MemFault` comes out of memory.
pub fn lines_of(alloc: Global, records: &Records) -> Result<PrintedLines, MemFault>
    ensures { IfOk result (λ lines. lines ≡ lines_of records.now) }
{
    let mut lines = Items::new(alloc);
    for record in records.as_slice() {
        if let Rec::Out { proc, text, .. } = record {
            lines.push(printed_line(alloc, *proc, text)?)?;
        }
    }
    Ok(lines)
}
