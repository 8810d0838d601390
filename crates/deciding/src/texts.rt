//! From the text of a program to what is decided of it.

ghost use Rattle.std.specs.Prelude.{◌≡◌, IfErr, IfOk};
ghost use Rattle.calltext.specs.Grammar.{long};
ghost use Rattle.callorder.specs.Resolving.{IsTextOfWithin};
ghost use Rattle.deciding.specs.Decisions.{IsDecided, IsUndecided, undecided_reading, undecided_resolving};

use crate::decision::{Decision, decide_program};
use callorder::{LongProgram, ResolveFault};
use calltext::{ReadFault, read_long};
use std::alloc::{AllocError, Global};

/// Why the program of a text isn't decided.
#[derive(Clone, Copy, Debug, PartialEq, Eq)]
pub enum Undecided {
    /// Memory ran out.
    Memory,
    /// The text can't be read: its first fault.
    Read(ReadFault),
    /// The call lines of the text are no program: their first fault.
    Resolve(ResolveFault),
}

impl From<ReadFault> for Undecided {
    ghost from_gives = { λ fault why. why ≡ undecided_reading fault };

    fn from(fault: ReadFault) -> Undecided {
        match fault {
            ReadFault::Memory => Undecided::Memory,
            fault => Undecided::Read(fault),
        }
    }
}

impl From<ResolveFault> for Undecided {
    ghost from_gives = { λ fault why. why ≡ undecided_resolving fault };

    fn from(fault: ResolveFault) -> Undecided {
        match fault {
            ResolveFault::Memory => Undecided::Memory,
            fault => Undecided::Resolve(fault),
        }
    }
}

/// The program of a text, of any length, or the first reason why there is none. The faults of its
/// lines come before those of its calls.
pub fn program_of(alloc: Global, text: &[u8]) -> Result<LongProgram, Undecided>
    ensures program { IfOk result (IsTextOfWithin long text.now) }
    ensures why { IfErr result (IsUndecided text.now) }
{
    let source = read_long(alloc, text)?;
    Ok(LongProgram::resolve(alloc, source)?)
}

/// Decides by one run whether some run of the program of this text gets stuck. The text has the
/// grammar of program texts, and no limit but memory's and that numbers have 31 bits.
///
/// The answer is proved: there is no evidence to check. It is never a race where each receive,
/// matched probe and probe names its source; where one takes any source, it is told only where
/// another message may come first, as far as the run tells. A text that is no program's is refused
/// for the reason for which `prove` refuses it, the limits aside.
pub fn decide(alloc: Global, text: &[u8]) -> Result<Decision, Undecided>
    ensures { IsDecided text.now result }
{
    let program = program_of(alloc, text)?;
    match decide_program(alloc, &program) {
        Ok(decision) => Ok(decision),
        Err(AllocError) => Err(Undecided::Memory),
    }
}
