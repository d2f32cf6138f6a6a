//! The text of groups of records.

ghost use Rattle.std.specs.Prelude.{◌≡◌, ◌++◌, OnOk};
ghost use Rattle.dsm_records.specs.Texts.{as_line, records_text, group_text, trace_text};

use crate::record::record_text;
use dsm_base::MemFault;
use dsm_net::{Group, Rec};
use std::alloc::Global;

/// Appends a text as a line.
fn put_line(out: &mut Vec<u8>, text: &[u8]) -> Result<(), MemFault>
    ensures { OnOk result (out.new.items ≡ out.old.items ++ as_line text.now) }
{
    out.extend_from_slice(text)?;
    out.push(b'\n')?;
    Ok(())
}

/// Appends a line for each record.
fn put_records(alloc: Global, records: &[Rec], out: &mut Vec<u8>) -> Result<(), MemFault>
    ensures { OnOk result (out.new.items ≡ out.old.items ++ records_text records.now) }
{
    for record in records {
        let text = record_text(alloc, record)?;
        put_line(out, text.as_slice())?;
    }
    Ok(())
}

/// Appends a line with the unit's number, and a line for each of its records.
fn put_group(alloc: Global, group: &Group, out: &mut Vec<u8>) -> Result<(), MemFault>
    ensures { OnOk result (out.new.items ≡ out.old.items ++ group_text group.now) }
{
    let unit = group.unit;
    let text = format!(in alloc; "unit {unit}")?;
    put_line(out, text.as_bytes())?;
    put_records(alloc, group.records.as_slice(), out)
}

/// Appends the lines of these groups.
pub(crate) fn put_groups(alloc: Global, groups: &[Group], out: &mut Vec<u8>) -> Result<(), MemFault>
    ensures { OnOk result (out.new.items ≡ out.old.items ++ trace_text groups.now) }
{
    for group in groups {
        put_group(alloc, group, out)?;
    }
    Ok(())
}
