//! Calls, and what comes of them.

use dsm_base::{CallKind, MemFiles, MemSink, NamedFile, NamedFiles, Text};
use dsm_top::{Report, run_tool};
use sqlite_items::Items;
use std::alloc::Global;
use std::process::Abort;
use std::test::Fail;

/// A call: its words, what the files `prog` and `other` hold, and what has to come of it.
pub struct Called {
    pub words: &'static str,
    pub program: &'static str,
    pub other: &'static str,
    pub status: u8,
    pub units: u32,
    pub written: &'static str,
}

/// A call of which one read or write fails.
pub struct Failed {
    pub call: Called,
    pub kind: CallKind,
    /// Which of its kind fails, from 1.
    pub nth: u32,
}

fn named(alloc: Global, name: &str, contents: &[u8]) -> Result<NamedFile, Fail> {
    Ok(NamedFile {
        name: Text::from_slice(alloc, name.as_bytes())?,
        contents: Text::from_slice(alloc, contents)?,
    })
}

/// The files `prog` and `other`.
pub fn files(alloc: Global, program: &[u8], other: &[u8]) -> Result<MemFiles, Fail> {
    let mut files: NamedFiles = Items::new(alloc);
    files.push(named(alloc, "prog", program)?)?;
    files.push(named(alloc, "other", other)?)?;
    Ok(MemFiles::new(alloc, files))
}

/// A call with these words.
pub fn call(
    alloc: Global,
    text: &str,
    files: &mut MemFiles,
    sink: &mut MemSink,
) -> Result<Report, Fail> {
    let mut words = Vec::new(alloc);
    for word in text.split_whitespace() {
        words.push(String::from_str(alloc, word)?)?;
    }
    Ok(run_tool(alloc, &words, files, sink))
}

/// What came of a call is what had to.
fn is_right(rt: &impl Abort, row: &Called, report: &Report, sink: &MemSink) {
    let call = row.words;
    assert_eq!(rt; sink.bytes(), row.written.as_bytes(), "{call}");
    assert_eq!(rt; report.status.number(), row.status, "{call}");
    assert_eq!(rt; report.units, row.units, "{call}");
}

/// Each call ends so, with a sink that takes pieces of 4 bytes.
pub fn are_right(rt: &impl Abort, alloc: Global, table: &[Called]) -> Result<(), Fail> {
    for row in table {
        let mut files = files(alloc, row.program.as_bytes(), row.other.as_bytes())?;
        let mut sink = MemSink::new(alloc, 4);
        let report = call(alloc, row.words, &mut files, &mut sink)?;
        is_right(rt, row, &report, &sink);
    }
    Ok(())
}

/// Each call that fails ends so, with a sink that takes pieces of this many bytes.
pub fn fail_so(rt: &impl Abort, alloc: Global, piece: usize, table: &[Failed]) -> Result<(), Fail> {
    for row in table {
        let (program, other) = (row.call.program.as_bytes(), row.call.other.as_bytes());
        let mut files = files(alloc, program, other)?;
        let mut sink = MemSink::new(alloc, piece.max(1));
        files.fail(row.kind, row.nth.max(1))?;
        sink.fail(row.kind, row.nth.max(1))?;
        let report = call(alloc, row.call.words, &mut files, &mut sink)?;
        is_right(rt, &row.call, &report, &sink);
    }
    Ok(())
}
