//! Verdicts, and why an evidence is refused.

ghost use Rattle.std.specs.Prelude.{◌≡◌};
ghost use Rattle.checker.specs.Parts.{read_reason, resolve_reason, evidence_reason, pair_reason, encode_reason, tree_reason};
ghost use Rattle.checker.specs.declared.reason.NoRun.TheVariants as runs;

use callorder::ResolveFault;
use calltext::ReadFault;
use candidates::PairFault;
use encode::EncodeFault;
use prooflog::EvidenceFault;
use refutations::{FaultyLine, TreeFault};
use semantics::End;
use thiserror::Error;

/// What the checker says of a program's text and an evidence's text.
#[derive(Clone, Copy, PartialEq, Eq)]
pub enum Verdict {
    /// No run of the program ends stuck: the evidence refutes the program's formula.
    NoDeadlock,
    /// The evidence's schedule is a run of the program that ends stuck.
    Deadlock,
    /// Neither is shown, for the first reason of those below.
    Refused(Reason),
}

/// Why an evidence is refused. The reasons are tested in this order, but want of memory may come at
/// any time.
#[derive(Clone, Copy, Debug, PartialEq, Eq, Error)]
pub enum Reason {
    /// Memory ran out.
    #[error("memory")]
    Memory,
    /// The program's text can't be read.
    #[error("{0}")]
    Read(ReadFault),
    /// The call lines of the program's text are no program.
    #[error("{0}")]
    Resolve(ResolveFault),
    /// The evidence's text can't be read.
    #[error("{0}")]
    Evidence(EvidenceFault),
    /// The evidence is a refutation, and the program has more than 8,192 fitting pairs.
    #[error("{0}")]
    Pairs(PairFault),
    /// The evidence is a refutation, and the program has more than 1,024 events, or its formula
    /// more than 4,000,000 clauses.
    #[error("{0}")]
    Encode(EncodeFault),
    /// The evidence is a refutation, and its counts of variables and clauses are not those of the
    /// program's formula.
    #[error("counts")]
    Counts,
    /// The first line of the refutation that isn't derived.
    #[error("{0}")]
    Line(FaultyLine),
    /// The first node of the refutation's tree that isn't accepted.
    #[error("{0}")]
    Tree(TreeFault),
    /// The first line that isn't needed of a refutation of version 2, whose lines and tree are
    /// accepted.
    #[error("proof line {number} unneeded")]
    Unneeded { number: usize },
    /// The first step of the schedule, counted from 1, that isn't enabled.
    #[error("step {at} not enabled")]
    Replay { at: usize },
    /// The schedule's run ends finished or live.
    #[error("not stuck {0}")]
    NotStuck(End),
}

/// Why there is no stuck run.
#[derive(Clone, Copy, Debug, PartialEq, Eq, Error)]
pub enum NoRun {
    /// The program or the evidence is refused, for a reason that no refutation is refused for.
    #[error("{0}")]
    Refused(Reason),
    /// The evidence is a refutation.
    #[error("not a schedule")]
    NotASchedule,
}

/// Want of memory is told as what it is, and each other fault under its reason.
macro_rules! told_as {
    ($fault:ident, $faults:ident, $reason:ident) => {
        match $fault {
            $faults::Memory => Reason::Memory,
            other => Reason::$reason(other),
        }
    };
}

impl From<ReadFault> for Reason {
    ghost from_gives = { λ fault reason. reason ≡ read_reason fault };

    fn from(fault: ReadFault) -> Reason {
        told_as!(fault, ReadFault, Read)
    }
}

impl From<ResolveFault> for Reason {
    ghost from_gives = { λ fault reason. reason ≡ resolve_reason fault };

    fn from(fault: ResolveFault) -> Reason {
        told_as!(fault, ResolveFault, Resolve)
    }
}

impl From<EvidenceFault> for Reason {
    ghost from_gives = { λ fault reason. reason ≡ evidence_reason fault };

    fn from(fault: EvidenceFault) -> Reason {
        told_as!(fault, EvidenceFault, Evidence)
    }
}

impl From<PairFault> for Reason {
    ghost from_gives = { λ fault reason. reason ≡ pair_reason fault };

    fn from(fault: PairFault) -> Reason {
        told_as!(fault, PairFault, Pairs)
    }
}

impl From<EncodeFault> for Reason {
    ghost from_gives = { λ fault reason. reason ≡ encode_reason fault };

    fn from(fault: EncodeFault) -> Reason {
        told_as!(fault, EncodeFault, Encode)
    }
}

impl From<TreeFault> for Reason {
    ghost from_gives = { λ fault reason. reason ≡ tree_reason fault };

    fn from(fault: TreeFault) -> Reason {
        told_as!(fault, TreeFault, Tree)
    }
}

impl From<Reason> for NoRun {
    ghost from_gives = { λ reason why. why ≡ runs.Refused reason };

    fn from(reason: Reason) -> NoRun {
        NoRun::Refused(reason)
    }
}
