//! Why a text is no phase, and why phases don't make up a program.

ghost use Rattle.std.specs.Prelude.{◌≡◌};
ghost use Rattle.phase_checker.specs.Reasons.{phase_undecided, program_undecided};

use callorder::ResolveFault;
use calltext::ReadFault;
use deciding::{CallerRace, Undecided};
use thiserror::Error;

/// Why no phase is made of a text by one run.
#[derive(Clone, Copy, Debug, PartialEq, Eq, Error)]
pub enum NotAPhase {
    /// Memory ran out.
    #[error("memory")]
    Memory,
    /// The text can't be read: its first fault.
    #[error("{0}")]
    Read(ReadFault),
    /// The call lines of the text are no program: their first fault.
    #[error("{0}")]
    Resolve(ResolveFault),
    /// Some run of the program gets stuck.
    #[error("deadlock")]
    Deadlock,
    /// The run finishes, but messages may race for this call, so that it tells nothing.
    #[error("race")]
    Race(CallerRace),
}

impl From<Undecided> for NotAPhase {
    ghost from_gives = { λ undecided why. why ≡ phase_undecided undecided };

    fn from(undecided: Undecided) -> NotAPhase {
        match undecided {
            Undecided::Memory => NotAPhase::Memory,
            Undecided::Read(fault) => NotAPhase::Read(fault),
            Undecided::Resolve(fault) => NotAPhase::Resolve(fault),
        }
    }
}

/// Why phases don't show that no run of a program gets stuck. Places count from 0 in the order of
/// the phases. The first place is told where something is wrong, and there the first reason of
/// those below; but want of memory may come at any time.
#[derive(Clone, Copy, Debug, PartialEq, Eq, Error)]
pub enum NotJoined {
    /// Memory ran out.
    #[error("memory")]
    Memory,
    /// The program's text can't be read: its first fault.
    #[error("{0}")]
    Read(ReadFault),
    /// The call lines of the program's text are no program: their first fault.
    #[error("{0}")]
    Resolve(ResolveFault),
    /// The order has at this place the number of no phase.
    #[error("no phase at place {}", .place.saturating_add(1))]
    NoPhase { place: usize },
    /// The calls of the phase at this place aren't the first that are left.
    #[error("other calls at place {}", .place.saturating_add(1))]
    Other { place: usize },
    /// The phase at this place takes or looks for messages of any source, and a later one may send
    /// such a message too early.
    #[error("any source at place {}", .place.saturating_add(1))]
    Source { place: usize },
    /// The phase at this place isn't the last, and some rank doesn't take as many messages on a
    /// communicator as are sent to it there.
    #[error("uneven at place {}", .place.saturating_add(1))]
    Uneven { place: usize },
    /// Calls are left behind the last phase.
    #[error("left")]
    Left,
}

impl From<Undecided> for NotJoined {
    ghost from_gives = { λ undecided why. why ≡ program_undecided undecided };

    fn from(undecided: Undecided) -> NotJoined {
        match undecided {
            Undecided::Memory => NotJoined::Memory,
            Undecided::Read(fault) => NotJoined::Read(fault),
            Undecided::Resolve(fault) => NotJoined::Resolve(fault),
        }
    }
}
