//! Files in memory that tell what they hold.
ghost use Rattle.std.specs.Prelude.{◌≡◌, ◌||◌, IfErr, IfOk, bytes_eq, codes, option_map, true};
ghost use Rattle.files.specs.declared.fault.LoadFault.{LoadFault};
ghost use Rattle.test_disk.specs.Shelves.{shelf_file};

use files::{Extent, FileSet, LoadFault, OpenFault, StoreFault};
use std::alloc::Global;

/// Two files that can be read, `program` and `evidence`, and one that can be written, `out`.
/// Contracts see what they hold. Every other path isn't there.
#[derive(Drop)]
pub struct Shelf<'a> {
    /// The memory for what is written.
    pub alloc: Global,
    /// What the file `program` holds.
    pub program: &'a [u8],
    /// What the file `evidence` holds.
    pub evidence: &'a [u8],
    /// What the file `out` holds, once it was written and closed.
    pub out: Option<Vec<u8>>,
}

impl FileSet for Shelf<'_> {
    ghost held = { λ shelf. shelf_file shelf.program.now shelf.evidence.now
        (option_map (λ bytes. bytes.items) shelf.out) };

    ghost tells_written = { true };

    ghost reads = { λ _ path. bytes_eq path (codes "program") || bytes_eq path (codes "evidence") };

    ghost takes = { λ _ path. bytes_eq path (codes "out") };

    type Writer = Vec<u8>;

    fn read(
        &mut self,
        alloc: Global,
        path: &str,
        _extent: &Extent<'_>,
    ) -> Result<Vec<u8>, LoadFault> {
        if path == "program" {
            return copied(alloc, self.program);
        }
        if path == "evidence" {
            return copied(alloc, self.evidence);
        }
        Err(LoadFault::Device)
    }

    fn open_write(&mut self, path: &str) -> Result<Vec<u8>, OpenFault> {
        if path == "out" {
            self.out = None;
            return Ok(Vec::new(self.alloc));
        }
        Err(OpenFault::Device)
    }

    fn close(&mut self, path: &str, writer: Vec<u8>) -> Result<(), StoreFault> {
        if path == "out" {
            self.out = Some(writer);
        }
        Ok(())
    }
}

/// These bytes once more.
fn copied(alloc: Global, bytes: &[u8]) -> Result<Vec<u8>, LoadFault>
    ensures same { IfOk result (λ copy. copy.items ≡ bytes.now) }
    ensures fault { IfErr result (λ fault. fault ≡ LoadFault.Memory) }
{
    match Vec::from_slice(alloc, bytes) {
        Ok(copy) => Ok(copy),
        Err(_) => Err(LoadFault::Memory),
    }
}
