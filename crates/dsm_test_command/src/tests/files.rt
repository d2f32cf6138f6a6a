//! Texts, and files and sinks in memory, by examples.

use dsm_base::{CallKind, Files, MemFiles, MemSink, NamedFile, ReadErr, Sink, Text};
use sqlite_items::Items;
use std::alloc::Global;
use std::test::Fail;

/// Files with these names and contents.
fn files(alloc: Global, named: &[(&str, &str)]) -> Result<MemFiles, Fail> {
    let mut files = Items::new(alloc);
    for (name, contents) in named {
        files.push(NamedFile {
            name: Text::from_slice(alloc, name.as_bytes())?,
            contents: Text::from_slice(alloc, contents.as_bytes())?,
        })?;
    }
    Ok(MemFiles::new(alloc, files))
}

#[test]
fn files_are_read_by_their_names(rt: HostRuntime) -> Result<(), Fail> {
    let alloc = rt.alloc();
    let named = [("a", "first"), ("b", ""), ("a", "second"), ("ab", "third")];
    let mut files = files(alloc, &named)?;
    for (name, most, expected, read, faults) in [
        ("a", 9, Ok(()), "<first", 0),
        ("a", 5, Ok(()), "<first", 0),
        ("a", 4, Ok(()), "<first", 0),
        ("a", 3, Ok(()), "<firs", 0),
        ("a", 0, Ok(()), "<f", 0),
        ("a", usize::MAX, Ok(()), "<first", 0),
        ("b", 0, Ok(()), "<", 0),
        ("ab", 9, Ok(()), "<third", 0),
        ("c", 9, Err(ReadErr::Failed), "<", 1),
        ("", 9, Err(ReadErr::Failed), "<", 2),
        ("ab", 1, Ok(()), "<th", 2),
    ] {
        let mut into = Vec::from_slice(alloc, b"<")?;
        let result = files.read(&String::from_str(alloc, name)?, most, &mut into);
        assert_eq!(rt; result, expected, "{name} {most}");
        assert_eq!(rt; into.as_slice(), read.as_bytes(), "{name} {most}");
        assert_eq!(rt; files.faults(), faults, "{name} {most}");
    }
    Ok(())
}

#[test]
fn planned_reads_fail(rt: HostRuntime) -> Result<(), Fail> {
    let alloc = rt.alloc();
    let mut files = files(alloc, &[("a", "first")])?;
    files.fail(CallKind::Put, 1)?;
    files.fail(CallKind::Read, 2)?;
    files.fail(CallKind::Read, 3)?;
    let name = String::from_str(alloc, "a")?;
    for (expected, read, faults) in [
        (Ok(()), "first", 0),
        (Err(ReadErr::Failed), "", 1),
        (Err(ReadErr::Failed), "", 2),
        (Ok(()), "first", 2),
    ] {
        let mut into = Vec::new(alloc);
        assert_eq!(rt; files.read(&name, 9, &mut into), expected);
        assert_eq!(rt; into.as_slice(), read.as_bytes());
        assert_eq!(rt; files.faults(), faults);
    }
    Ok(())
}

#[test]
fn sinks_take_pieces(rt: HostRuntime) -> Result<(), Fail> {
    let alloc = rt.alloc();
    let mut sink = MemSink::new(alloc, 4);
    assert!(rt; sink.bytes().is_empty());
    sink.fail(CallKind::Read, 1)?;
    sink.fail(CallKind::Put, 3)?;
    for (bytes, expected, held, faults) in [
        ("012345", Ok(4), "0123", 0),
        ("45", Ok(2), "012345", 0),
        ("6789", Err(ReadErr::Failed), "012345", 1),
        ("6789", Ok(4), "0123456789", 1),
        ("", Ok(0), "0123456789", 1),
    ] {
        assert_eq!(rt; sink.put(bytes.as_bytes()), expected, "{bytes}");
        assert_eq!(rt; sink.bytes(), held.as_bytes(), "{bytes}");
        assert_eq!(rt; sink.faults(), faults, "{bytes}");
    }
    Ok(())
}

#[test]
fn texts_hold_their_bytes(rt: HostRuntime) -> Result<(), Fail> {
    let alloc = rt.alloc();
    for (bytes, len) in [("", 0), ("a", 1), ("a line\n", 7)] {
        let copied = Text::from_slice(alloc, bytes.as_bytes())?;
        let moved = Text::from_vec(Vec::from_slice(alloc, bytes.as_bytes())?);
        for text in [&copied, &moved] {
            assert_eq!(rt; text.as_slice(), bytes.as_bytes());
            assert_eq!(rt; text.len(), len);
            assert_eq!(rt; text.is_empty(), len == 0);
        }
    }
    Ok(())
}
