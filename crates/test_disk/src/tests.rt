//! Long contents, in pieces, and files that tell what they hold.
use crate::{Disk, DiskFiles, Shelf};
use files::{Extent, FileSet, LoadFault, OpenFault, store};
use std::alloc::{AllocError, Global};
use std::test::Fail;

/// More bytes than 4,096 reads or writes move.
const LONG: u32 = 40_000;

/// A file as a whole.
const ALL: Extent<'static> = Extent::Most(usize::MAX);

/// So many bytes, of which those that stand near each other differ.
fn long_bytes(alloc: Global) -> Result<Vec<u8>, AllocError> {
    let mut bytes = Vec::new(alloc);
    for number in 0..LONG {
        bytes.push((number % 251) as u8)?;
    }
    Ok(bytes)
}

#[test]
fn moves_long_contents(rt: HostRuntime) -> Result<(), Fail> {
    let alloc = rt.alloc();
    let bytes = long_bytes(alloc)?;
    let disk = Disk::of(alloc, &bytes);
    let mut files = DiskFiles { disk: &disk };
    let loaded = files.read(alloc, "program", &ALL)?;
    assert!(rt; loaded == bytes);
    let mut writer = files.open_write("out")?;
    store(&mut writer, &loaded)?;
    files.close("out", writer)?;
    assert!(rt; disk.written.into_inner() == bytes);
    Ok(())
}

/// How many bytes of the file `program` are read to this extent, where it holds these bytes.
fn count_read(alloc: Global, bytes: &[u8], extent: &Extent<'_>) -> Result<usize, Fail> {
    let disk = Disk::of(alloc, bytes);
    let read = DiskFiles { disk: &disk }.read(alloc, "program", extent)?;
    Ok(read.len())
}

#[test]
fn reads_no_further_than_needed(rt: HostRuntime) -> Result<(), Fail> {
    let alloc = rt.alloc();
    let bytes = long_bytes(alloc)?;
    let front = Extent::Begins(b"evidence ");
    let evidence = b"evidence 1\nschedule\n";
    // A read moves seven bytes.
    assert_eq!(rt; count_read(alloc, &bytes, &Extent::Most(40_000))?, 40_000);
    assert_eq!(rt; count_read(alloc, &bytes, &Extent::Most(69))?, 70);
    assert_eq!(rt; count_read(alloc, &bytes, &Extent::Most(70))?, 77);
    assert_eq!(rt; count_read(alloc, &bytes, &front)?, 14);
    assert_eq!(rt; count_read(alloc, b"evidence", &front)?, 8);
    assert_eq!(rt; count_read(alloc, evidence, &front)?, 20);
    Ok(())
}

#[test]
fn a_shelf_holds_what_was_written(rt: HostRuntime) -> Result<(), Fail> {
    let alloc = rt.alloc();
    let mut shelf = Shelf {
        alloc,
        program: b"ranks 1",
        evidence: b"evidence 1",
        out: None,
    };
    let bytes = shelf.read(alloc, "program", &ALL)?;
    assert!(rt; bytes.as_slice() == b"ranks 1".as_slice());
    let bytes = shelf.read(alloc, "evidence", &ALL)?;
    assert!(rt; bytes.as_slice() == b"evidence 1".as_slice());
    let unread = shelf.read(alloc, "out", &ALL).err();
    assert_eq!(rt; unread, Some(LoadFault::Device));
    let unopened = shelf.open_write("program").err();
    assert_eq!(rt; unopened, Some(OpenFault::Device));
    let mut writer = shelf.open_write("out")?;
    store(&mut writer, b"schedule")?;
    shelf.close("out", writer)?;
    assert_eq!(rt; shelf.out.as_deref(), Some(b"schedule".as_slice()));
    Ok(())
}
