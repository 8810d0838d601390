//! A file in memory that is read and written in short pieces.
ghost use Rattle.std.specs.Prelude.{◌≤◌};

use files::{Extent, FileSet, LoadFault, OpenFault, StoreFault, load};
use std::alloc::Global;
use std::cell::RefCell;
use std::io;
use std::io::{Read, Write};

/// The most bytes that one read or one write moves, so that a longer text takes several.
const PIECE: usize = 7;

/// A file that can be read, `program`, and one that can be written, `out`. Every other path isn't
/// there.
#[derive(Drop)]
pub struct Disk<'a> {
    /// What the file `program` holds.
    pub program: &'a [u8],
    /// What was written to the file `out`.
    pub written: RefCell<Vec<u8>>,
}

impl<'a> Disk<'a> {
    /// The disk whose file `program` holds these bytes. No byte was written to `out`.
    pub fn of(alloc: Global, program: &'a [u8]) -> Disk<'a> {
        Disk {
            program,
            written: RefCell::new(Vec::new(alloc)),
        }
    }
}

/// How many of these bytes one read or one write moves.
fn moved(wanted: usize) -> usize
    ensures { result ≤ wanted }
{
    PIECE.min(wanted)
}

/// The files of a disk.
#[derive(Drop)]
pub struct DiskFiles<'a> {
    /// The disk.
    pub disk: &'a Disk<'a>,
}

impl<'a> FileSet for DiskFiles<'a> {
    type Writer = DiskWriter<'a>;

    fn read(
        &mut self,
        alloc: Global,
        path: &str,
        extent: &Extent<'_>,
    ) -> Result<Vec<u8>, LoadFault> {
        if path != "program" {
            return Err(LoadFault::Device);
        }
        let mut reader = DiskReader {
            rest: self.disk.program,
        };
        match load(alloc, &mut reader, extent) {
            Ok(bytes) => Ok(bytes),
            Err(unloaded) => Err(unloaded.fault),
        }
    }

    fn open_write(&mut self, path: &str) -> Result<DiskWriter<'a>, OpenFault> {
        if path != "out" {
            return Err(OpenFault::Device);
        }
        Ok(DiskWriter { disk: self.disk })
    }

    fn close(&mut self, _path: &str, _writer: DiskWriter<'a>) -> Result<(), StoreFault> {
        Ok(())
    }
}

/// Reads a file of a disk in pieces.
#[derive(Drop)]
pub struct DiskReader<'a> {
    rest: &'a [u8],
}

impl Read for DiskReader<'_> {
    fn read(&mut self, buf: &mut [u8]) -> io::Result<usize> {
        let count = moved(buf.len());
        self.rest.read(&mut buf[..count])
    }
}

/// Writes the file `out` in pieces.
#[derive(Drop)]
pub struct DiskWriter<'a> {
    disk: &'a Disk<'a>,
}

impl Write for DiskWriter<'_> {
    fn write(&mut self, buf: &[u8]) -> io::Result<usize> {
        let count = moved(buf.len());
        self.disk.written.try_borrow_mut()?.write(&buf[..count])
    }

    fn flush(&mut self) -> io::Result<()> {
        Ok(())
    }
}
