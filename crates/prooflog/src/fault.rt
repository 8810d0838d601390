//! Why a text is no evidence.

ghost use Rattle.std.specs.Prelude.{◌≡◌};
ghost use Rattle.prooflog.specs.declared.fault.EvidenceFault.TheVariants.{Memory};

use std::alloc::AllocFailed;
use thiserror::Error;

/// Why an evidence text was not read. Each fault but `Memory` is that of the first faulty line;
/// lines count from 1.
#[derive(Clone, Copy, Debug, PartialEq, Eq, Error)]
pub enum EvidenceFault {
    /// Memory ran out, which says nothing of the text.
    #[error("memory")]
    Memory,
    /// No evidence, with numbers of any size, has this line in this place. A line that is missing
    /// is told as the number of lines plus one, and one without its LF is Syntax too.
    #[error("evidence line {line} syntax")]
    Syntax { line: u32 },
    /// The line has a shape that may stand here, and a number out of its range, or literals whose
    /// variables don't rise strictly. Ranks, and the counts of variables and clauses in the
    /// heading, are at most 2,147,483,647; all other numbers are from 1 to 2,147,483,647.
    #[error("evidence line {line} range")]
    Range { line: u32 },
    /// The line may stand here but for a limit: it is step 4,097, proof line 1,000,001 or node
    /// 65,537, or a node deeper than 64, where the root's depth is 0.
    #[error("evidence too large")]
    TooLarge,
}

impl<T: Drop> From<AllocFailed<T>> for EvidenceFault {
    ghost from_gives = { λ _ e. e ≡ Memory };

    fn from(_e: AllocFailed<T>) -> EvidenceFault {
        EvidenceFault::Memory
    }
}
