//! Why a text is no program.

ghost use Rattle.std.specs.Prelude.{◌≡◌};
ghost use Rattle.calltext.specs.declared.fault.ReadFault.TheVariants.{Memory};

use crate::refused::RefusedWord;
use std::alloc::{AllocError, AllocFailed};
use thiserror::Error;

/// Why a text was not read. Lines count from 1. A text that is too large is told as that, whatever
/// its lines. Else the first faulty line is told, and on it the first of these that holds, in the
/// order in which they stand here: where a call may stand, a line with its LF whose first word is
/// refused by name isn't told as one of a wrong shape.
#[derive(Clone, Copy, Debug, PartialEq, Eq, Error)]
pub enum ReadFault {
    /// The allocator refused memory.
    #[error("memory")]
    Memory,
    /// The line has a byte of 128 or more.
    #[error("line {line} not ascii")]
    NotAscii { line: usize },
    /// A call may stand there, the line has its LF, and its first word is one that is refused by
    /// name.
    #[error("line {line} out of profile {word}")]
    OutOfProfile { line: usize, word: RefusedWord },
    /// The line has none of the shapes that may stand in its place, or it is missing or lacks its
    /// LF.
    #[error("line {line} syntax")]
    Syntax { line: usize },
    /// The line has a right shape, and a number beyond the limits.
    #[error("line {line} range")]
    Range { line: usize },
    /// The text has more bytes than the limits allow; told before any line is looked at.
    #[error("text too large")]
    TooLarge,
}

impl From<AllocError> for ReadFault {
    ghost from_gives = { λ _ e. e ≡ Memory };

    fn from(_e: AllocError) -> ReadFault {
        ReadFault::Memory
    }
}

impl<T: Drop> From<AllocFailed<T>> for ReadFault {
    ghost from_gives = { λ _ e. e ≡ Memory };

    fn from(_e: AllocFailed<T>) -> ReadFault {
        ReadFault::Memory
    }
}
