//! Files that are opened by their path.
ghost use Rattle.std.specs.Prelude.{◌≡◌, ℕ, Bool, false, true, List, [], Option, Some, None, IfErr, IfOk, IsTrue, OnErr, OnOk};
ghost use Rattle.files.specs.Contents.{AreEnough, KeepsOthers};
ghost use Rattle.files.specs.declared.fault.LoadFault.{LoadFault};

use crate::{Extent, LoadFault, OpenFault, StoreFault};
use std::alloc::Global;
use std::io::Write;

/// Files that are read or written by their path.
///
/// A set of files in memory can tell what its files hold and which of them it reads, and contracts
/// then speak of that. The system's files tell nothing.
pub trait FileSet {
    /// Writes a file from its beginning.
    type Writer: Write + Drop;

    // The bytes of the file at a path, where the set tells them.
    ghost held: { Self → List ℕ → Option (List ℕ) } = { λ _ _. None };

    // Whether the set's writers tell the bytes that they took, and the set what it then holds.
    ghost tells_written: { Bool } = { false };

    // Whether the set tells that it reads the file at this path, unless memory runs out.
    ghost reads: { Self → List ℕ → Bool } = { λ _ _. false };

    // Whether a file at this path can be written.
    ghost takes: { Self → List ℕ → Bool } = { λ _ _. true };

    /// The content of the file at a path, as far as this extent says. No file changes, nor which
    /// are read.
    fn read(&mut self, alloc: Global, path: &str, extent: &Extent<'_>) -> Result<Vec<u8>, LoadFault>
        ensures bytes { IfOk result (λ bytes. AreEnough extent.now (held self.old path.now) bytes.items) }
        ensures fault { IfErr result (λ fault. IsTrue (reads self.old path.now) → fault ≡ LoadFault.Memory) }
        ensures same { held self.new ≡ held self.old }
        ensures same_reads { reads self.new ≡ reads self.old };

    /// Opens the file at a path to be written. What it held may be gone, and what it holds is told
    /// once it is closed. Every other file holds what it held, and where the opening is refused
    /// this one does too.
    fn open_write(&mut self, path: &str) -> Result<Self::Writer, OpenFault>
        ensures empty { IsTrue tells_written →
            IfOk result (λ writer. Self.Writer.contents writer ≡ Some []) }
        ensures untold { OnOk result (held self.new path.now ≡ None) }
        ensures taken { OnOk result (IsTrue (takes self.new path.now)) }
        ensures others { KeepsOthers path.now (held self.old) (held self.new) }
        ensures refused { OnErr result (held self.new ≡ held self.old) };

    /// Ends the writing of the file at a path, which then holds what its writer took; where the
    /// device fails at that, the file may hold a part of it. Every other file holds what it held.
    fn close(&mut self, path: &str, writer: Self::Writer) -> Result<(), StoreFault>
        requires untold { held self.old path.now ≡ None }
        requires taken { IsTrue (takes self.old path.now) }
        ensures bytes { OnOk result (IsTrue tells_written
            → held self.new path.now ≡ Self.Writer.contents writer) }
        ensures others { KeepsOthers path.now (held self.old) (held self.new) };
}
