//! The files, the output and the folders of the host.

use dsm_adapt::{DirStore, HostFiles, StdSink};
use dsm_base::{Failed, Files, ReadErr, Sink, Store};
use std::fs;
use std::test::Fail;

/// The bytes of the mark of slot 2 with two blocks.
const MARK: &[u8] = &[2, 0, 0, 0, 2];

/// Bytes that are no mark: of a slot too many, of no block, and of other lengths.
const OTHERS: &[&[u8]] = &[
    &[3, 0, 0, 0, 1],
    &[0, 0, 0, 0, 0],
    &[0, 0, 0, 1],
    &[0, 0, 0, 0, 1, 0],
];

#[test]
fn a_folder_is_a_store(rt: HostRuntime) -> Result<(), Fail> {
    let folder = "dsm-stores/folder";
    let mark = "dsm-stores/folder/mark";
    let mut store = DirStore::new(rt.alloc(), rt, folder)?;
    let mut block = [0; 512];
    assert!(rt; store.marked()?.is_none());
    assert_eq!(rt; store.read(0, 0, &mut block).err(), Some(Failed));
    assert_eq!(rt; store.faults(), 1);
    assert!(rt; fs::metadata(&rt, folder).is_err());
    store.clear()?;
    store.room(2, 2)?;
    store.write(2, 1, &[7; 512])?;
    store.read(2, 0, &mut block)?;
    assert!(rt; block.iter().all(|byte| *byte == 0));
    store.read(2, 1, &mut block)?;
    assert!(rt; block.iter().all(|byte| *byte == 7));
    store.mark(2, 2)?;
    assert_eq!(rt; store.marked()?, Some((2, 2)));
    let written = fs::read(&rt, mark)?;
    assert_eq!(rt; written.as_slice(), MARK);
    store.clear()?;
    assert!(rt; store.marked()?.is_none());
    for bytes in OTHERS {
        fs::write(&rt, mark, *bytes)?;
        let faults = store.faults();
        assert_eq!(rt; store.marked().err(), Some(Failed));
        assert!(rt; store.faults() > faults);
    }
    fs::remove_file(&rt, mark)?;
    fs::remove_file(&rt, "dsm-stores/folder/slot2")?;
    fs::remove_dir(&rt, folder)?;
    Ok(())
}

#[test]
fn a_file_of_the_host_is_read(rt: HostRuntime) -> Result<(), Fail> {
    let alloc = rt.alloc();
    let name = String::from_str(alloc, "a-file-of-the-host")?;
    let mut files = HostFiles::new(rt);
    let mut into = Vec::new(alloc);
    assert_eq!(rt;
        files.read(&name, 9, &mut into).err(),
        Some(ReadErr::Failed)
    );
    fs::write(&rt, name.as_str(), "012345")?;
    for (most, read) in [
        (9, "012345"),
        (6, "012345"),
        (5, "012345"),
        (4, "01234"),
        (0, "0"),
    ] {
        let mut into = Vec::new(alloc);
        files.read(&name, most, &mut into)?;
        assert_eq!(rt; into.as_slice(), read.as_bytes(), "{most}");
    }
    assert!(rt; into.is_empty());
    assert_eq!(rt; files.faults(), 1);
    fs::remove_file(&rt, name.as_str())?;
    Ok(())
}

#[test]
fn a_writer_of_the_host_takes_bytes(rt: HostRuntime) -> Result<(), Fail> {
    let name = "a-writer-of-the-host";
    let mut sink = StdSink::new(fs::create(&rt, name)?);
    for (bytes, taken) in [("012", 3), ("", 0), ("3", 1)] {
        assert_eq!(rt; sink.put(bytes.as_bytes())?, taken, "{bytes}");
    }
    assert_eq!(rt; sink.faults(), 0);
    let written = fs::read(&rt, name)?;
    assert_eq!(rt; written.as_slice(), "0123".as_bytes());
    let mut closed = StdSink::new(fs::open(&rt, name)?);
    assert_eq!(rt; closed.put("4".as_bytes()).err(), Some(ReadErr::Failed));
    assert_eq!(rt; closed.faults(), 1);
    fs::remove_file(&rt, name)?;
    Ok(())
}
