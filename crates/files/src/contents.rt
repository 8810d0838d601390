//! A whole content, read and written.
ghost use Rattle.std.specs.Prelude.{◌≡◌, ◌≤◌, ◌+◌, ◌++◌, length, vec_len, vec_capacity, OnErr, OnOk, IfOk, IfErr};
ghost use Rattle.std.specs.Io.KnownBytes.{Appends, Consumes};
ghost use Rattle.files.specs.Contents.{AppendsPart, AreEnough};

use crate::{Extent, LoadFault, StoreFault};
use std::alloc::{AllocError, Global};
use std::io::{ErrorKind, Read, Write};

/// The most bytes that one read moves.
const PIECE: usize = 4_096;

/// What was read before a fault.
#[derive(Debug, Drop)]
pub struct Unloaded {
    /// The fault.
    pub fault: LoadFault,
    /// All bytes that the reader lost.
    pub read: Vec<u8>,
}

impl Unloaded {
    fn new(fault: LoadFault, read: Vec<u8>) -> Unloaded
        ensures { result ≡ record { fault = fault; read = read } }
    {
        Unloaded { fault, read }
    }
}

/// Adds bytes for which there is room.
fn add(bytes: &mut Vec<u8>, more: &[u8])
    requires { vec_len bytes.old + length more.now ≤ vec_capacity bytes.old }
    ensures { bytes.new.items ≡ bytes.old.items ++ more.now }
{
    match bytes.extend_from_slice(more) {
        Ok(()) => {}
        Err(AllocError) => unreachable!(),
    }
}

/// Reads what a reader has left, as far as this extent says: all of it, or a beginning that is
/// enough.
///
/// The reader has lost what was read, and no byte past it. After a fault that is handed back too,
/// so no byte is lost. A read that is interrupted is tried again.
pub fn load<R: Read>(
    alloc: Global,
    reader: &mut R,
    extent: &Extent<'_>,
) -> Result<Vec<u8>, Unloaded>
    ensures enough { IfOk result (λ bytes. AreEnough extent.now (R.remaining reader.old) bytes.items) }
    ensures lost { IfOk result (λ bytes. Consumes (R.remaining reader.old) (R.remaining reader.new) bytes.items) }
    ensures part { IfErr result (λ unloaded. Consumes (R.remaining reader.old) (R.remaining reader.new) unloaded.read.items) }
{
    let mut bytes = Vec::new(alloc);
    let mut piece = [0; PIECE];
    for _ in 0..u64::MAX {
        if extent.is_enough(&bytes) {
            return Ok(bytes);
        }
        match bytes.reserve(PIECE) {
            Ok(()) => {}
            Err(AllocError) => return Err(Unloaded::new(LoadFault::from(AllocError), bytes)),
        }
        match reader.read(&mut piece) {
            Ok(0) => return Ok(bytes),
            Ok(count) => add(&mut bytes, &piece[..count]),
            Err(error) if error.kind() == ErrorKind::Interrupted => continue,
            Err(error) => return Err(Unloaded::new(LoadFault::from(error), bytes)),
        }
    }
    Err(Unloaded::new(LoadFault::Device, bytes))
}

/// Writes all the bytes.
///
/// After a fault the writer took a beginning of them, without the last byte. A write that is
/// interrupted is tried again; one that takes no byte is a fault.
pub fn store<W: Write>(writer: &mut W, bytes: &[u8]) -> Result<(), StoreFault>
    ensures all { OnOk result (Appends (W.contents writer.old) (W.contents writer.new) bytes.now) }
    ensures part { OnErr result
        (AppendsPart (W.contents writer.old) (W.contents writer.new) bytes.now) }
{
    let mut rest = bytes;
    for _ in 0..u64::MAX {
        if rest.is_empty() {
            return Ok(());
        }
        match writer.write(rest) {
            Ok(0) => return Err(StoreFault::Device),
            Ok(count) => rest = &rest[count..],
            Err(error) if error.kind() == ErrorKind::Interrupted => continue,
            Err(_) => return Err(StoreFault::Device),
        }
    }
    if rest.is_empty() {
        return Ok(());
    }
    Err(StoreFault::Device)
}
