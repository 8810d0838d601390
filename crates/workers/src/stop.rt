//! Why a worker can't go on.

ghost use Rattle.std.specs.Prelude.{◌≡◌};
ghost use Rattle.workers.specs.Reasons.{IsStopReason};
ghost use Rattle.pool.specs.declared.why.Why.TheVariants as why;
ghost use Rattle.pool.specs.declared.entry.PublishFault.TheVariants as publish;
ghost use Rattle.pool.specs.declared.entry.FetchFault.TheVariants as fetch;
ghost use Rattle.pool.specs.declared.entry.CloseFault.TheVariants as close;
ghost use Rattle.pool.specs.declared.entry.SplitFault.TheVariants as split;
ghost use Rattle.pool.specs.declared.entry.FoundFault.TheVariants as found;
ghost use Rattle.pool.specs.declared.entry.PathFault.TheVariants as path;
ghost use Rattle.cdcl.specs.declared.solver.SolveFault.TheVariants as solve;
ghost use Rattle.extract.specs.declared.schedule.ExtractFault.TheVariants as extract_faults;

use cdcl::SolveFault;
use extract::ExtractFault;
use pool::{CloseFault, FetchFault, FoundFault, PathFault, PublishFault, SplitFault, Why};
use std::alloc::AllocError;

/// Why a worker stops before its cubes are done: for want of memory, since the log is full, or
/// since something was refused that an honest share takes.
#[derive(Clone, Copy, PartialEq, Eq)]
pub(crate) struct Stop {
    pub(crate) why: Why,
}

/// A stop for one of these reasons, and for any other fault since something is left open.
macro_rules! stop_for {
    ($fault:ident, $($told:path => $why:path),+) => {
        Stop {
            why: match $fault {
                $($told => $why,)+
                _ => Why::Left,
            },
        }
    };
}

impl From<AllocError> for Stop {
    ghost from_gives = { λ _ stop. stop.why ≡ why.Memory };

    fn from(_: AllocError) -> Stop {
        Stop { why: Why::Memory }
    }
}

impl From<PublishFault> for Stop {
    ghost from_gives = { λ fault stop. IsStopReason (fault ≡ publish.Memory) (fault ≡ publish.Full) stop.why };

    fn from(fault: PublishFault) -> Stop {
        stop_for!(fault, PublishFault::Memory => Why::Memory, PublishFault::Full => Why::Full)
    }
}

impl From<FetchFault> for Stop {
    ghost from_gives = { λ fault stop. IsStopReason (fault ≡ fetch.Memory) ⊥ stop.why };

    fn from(fault: FetchFault) -> Stop {
        stop_for!(fault, FetchFault::Memory => Why::Memory)
    }
}

impl From<CloseFault> for Stop {
    ghost from_gives = { λ fault stop. IsStopReason (fault ≡ close.Memory) ⊥ stop.why };

    fn from(fault: CloseFault) -> Stop {
        stop_for!(fault, CloseFault::Memory => Why::Memory)
    }
}

impl From<SplitFault> for Stop {
    ghost from_gives = { λ fault stop. IsStopReason (fault ≡ split.Memory) ⊥ stop.why };

    fn from(fault: SplitFault) -> Stop {
        stop_for!(fault, SplitFault::Memory => Why::Memory)
    }
}

impl From<FoundFault> for Stop {
    ghost from_gives = { λ fault stop. IsStopReason (fault ≡ found.Memory) ⊥ stop.why };

    fn from(fault: FoundFault) -> Stop {
        stop_for!(fault, FoundFault::Memory => Why::Memory)
    }
}

impl From<PathFault> for Stop {
    ghost from_gives = { λ fault stop. IsStopReason (fault ≡ path.Memory) ⊥ stop.why };

    fn from(fault: PathFault) -> Stop {
        stop_for!(fault, PathFault::Memory => Why::Memory)
    }
}

impl From<SolveFault> for Stop {
    ghost from_gives = { λ fault stop. IsStopReason (fault ≡ solve.Memory) ⊥ stop.why };

    fn from(fault: SolveFault) -> Stop {
        stop_for!(fault, SolveFault::Memory => Why::Memory)
    }
}

impl From<ExtractFault> for Stop {
    ghost from_gives = { λ fault stop. IsStopReason (fault ≡ extract_faults.Memory) ⊥ stop.why };

    fn from(fault: ExtractFault) -> Stop {
        stop_for!(fault, ExtractFault::Memory => Why::Memory)
    }
}
