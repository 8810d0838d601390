//! Why a file can't be opened, read or written.
ghost use Rattle.std.specs.IoError.{error_kind};
ghost use Rattle.std.specs.Prelude.{◌≡◌};
ghost use Rattle.files.specs.declared.fault.LoadFault.TheVariants as loading;
ghost use Rattle.files.specs.Faults.{load_fault, open_fault, unopened};

use std::alloc::AllocError;
use std::io;
use thiserror::Error;

/// What a refusal of this kind means, in words; empty where there are none for it.
pub(crate) fn meaning_of(kind: io::ErrorKind) -> &'static str {
    match kind {
        io::ErrorKind::NotFound => "no such file or folder",
        io::ErrorKind::PermissionDenied => "its rights don't allow it",
        io::ErrorKind::IsADirectory => "it is a folder",
        io::ErrorKind::NotADirectory => "a part of its path is no folder",
        io::ErrorKind::ReadOnlyFilesystem => "its file system takes no change",
        io::ErrorKind::StorageFull | io::ErrorKind::QuotaExceeded => "the disk is full",
        _ => "",
    }
}

/// Why a file can't be opened.
#[derive(Clone, Copy, Debug, PartialEq, Eq, Error)]
pub enum OpenFault {
    /// Memory ran out.
    #[error("out of memory")]
    Memory,
    /// The system refused, as for a file that isn't there.
    #[error("the file can't be opened")]
    Device,
}

impl From<io::Error> for OpenFault {
    ghost from_gives = { λ error fault. fault ≡ open_fault (error_kind error) };

    fn from(error: io::Error) -> OpenFault {
        match error.kind() {
            io::ErrorKind::OutOfMemory => OpenFault::Memory,
            _ => OpenFault::Device,
        }
    }
}

/// Why a file can't be read to its end.
#[derive(Clone, Copy, Debug, PartialEq, Eq, Error)]
pub enum LoadFault {
    /// Memory ran out.
    #[error("out of memory")]
    Memory,
    /// A read failed.
    #[error("the file can't be read")]
    Device,
}

impl From<io::Error> for LoadFault {
    ghost from_gives = { λ error fault. fault ≡ load_fault (error_kind error) };

    fn from(error: io::Error) -> LoadFault {
        match error.kind() {
            io::ErrorKind::OutOfMemory => LoadFault::Memory,
            _ => LoadFault::Device,
        }
    }
}

impl From<AllocError> for LoadFault {
    ghost from_gives = { λ _ fault. fault ≡ loading.Memory };

    fn from(_error: AllocError) -> LoadFault {
        LoadFault::Memory
    }
}

impl From<OpenFault> for LoadFault {
    ghost from_gives = { λ opening loading. loading ≡ unopened opening };

    fn from(fault: OpenFault) -> LoadFault {
        match fault {
            OpenFault::Memory => LoadFault::Memory,
            OpenFault::Device => LoadFault::Device,
        }
    }
}

/// Why bytes can't all be written.
#[derive(Clone, Copy, Debug, PartialEq, Eq, Error)]
pub enum StoreFault {
    /// A write failed or took no byte.
    #[error("the file can't be written")]
    Device,
}
