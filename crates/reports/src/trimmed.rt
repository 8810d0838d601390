//! The text of a refutation without lines that aren't needed.

ghost use Rattle.std.specs.Prelude.{◌≡◌, IfErr, IfOk};
ghost use Rattle.reports.specs.Trimming.{IsWhyUntrimmed, Shortens, lines_of};

use prooflog::{Evidence, EvidenceFault, TrimFault, read_evidence, trim_in_place, write_evidence};
use std::alloc::{AllocError, Global};

/// The text of a refutation all of whose lines are needed, and how many lines there were before and
/// are now.
#[derive(Drop)]
pub struct Shortened {
    /// The text.
    pub text: Vec<u8>,
    /// How many lines there were.
    pub before: usize,
    /// How many there are.
    pub after: usize,
}

/// Why there is no such text.
#[derive(Clone, Copy, PartialEq, Eq)]
pub enum Untrimmed {
    /// Memory ran out.
    Memory,
    /// The bytes are no evidence's text.
    Evidence(EvidenceFault),
    /// A hint names neither a clause nor an earlier line, or a leaf names neither a clause nor a
    /// line.
    Number,
    /// The evidence is a schedule.
    NotRefutation,
}

impl From<EvidenceFault> for Untrimmed {
    ghost use Rattle.std.specs.Prelude.{◌≡◌};
    ghost use Rattle.reports.specs.Trimming.{read_why};

    ghost from_gives = { λ fault why. why ≡ read_why fault };

    fn from(fault: EvidenceFault) -> Untrimmed {
        match fault {
            EvidenceFault::Memory => Untrimmed::Memory,
            fault => Untrimmed::Evidence(fault),
        }
    }
}

impl From<TrimFault> for Untrimmed {
    ghost use Rattle.std.specs.Prelude.{◌≡◌};
    ghost use Rattle.reports.specs.Trimming.{trim_why};

    ghost from_gives = { λ fault why. why ≡ trim_why fault };

    fn from(fault: TrimFault) -> Untrimmed {
        match fault {
            TrimFault::Memory => Untrimmed::Memory,
            TrimFault::Number => Untrimmed::Number,
            TrimFault::NotRefutation => Untrimmed::NotRefutation,
        }
    }
}

/// How many proof lines an evidence has.
fn lines_of(evidence: &Evidence) -> usize
    ensures { result ≡ lines_of evidence.now }
{
    match evidence {
        Evidence::Refutation(refutation) => refutation.lines().len(),
        Evidence::Schedule(_schedule) => 0,
    }
}

/// The text of the refutation that an evidence's text is, without the lines that aren't needed, or
/// why there is none: the first fault of the evidence's text; a number of the refutation that names
/// nothing; a schedule. Want of memory may come at any time.
pub fn trim_evidence(alloc: Global, evidence: &[u8]) -> Result<Shortened, Untrimmed>
    ensures shortened { IfOk result (Shortens evidence.now) }
    ensures why { IfErr result (IsWhyUntrimmed evidence.now) }
{
    let mut evidence = match read_evidence(alloc, evidence) {
        Ok(evidence) => evidence,
        Err(fault) => return Err(Untrimmed::from(fault)),
    };
    let before = lines_of(&evidence);
    match trim_in_place(alloc, &mut evidence) {
        Ok(()) => {}
        Err(fault) => return Err(Untrimmed::from(fault)),
    }
    match write_evidence(alloc, &evidence) {
        Ok(text) => Ok(Shortened {
            text,
            before,
            after: lines_of(&evidence),
        }),
        Err(AllocError) => Err(Untrimmed::Memory),
    }
}
