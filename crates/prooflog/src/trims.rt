//! Refutations without lines that aren't needed.

ghost use Rattle.std.specs.Prelude.{◌≡◌, ◌⊎◌, ◌↔◌, IfOk, OnOk, OnErr, Err};
ghost use Rattle.prooflog.specs.Trims.{IsTrimmed, EachKeepsAccepted, HasStrayNumber, IsNotRefutation};

use crate::evidence::Evidence;
use crate::refutation::Refutation;
use std::alloc::{AllocError, Global};
use thiserror::Error;

/// Why an evidence wasn't trimmed.
#[derive(Clone, Copy, Debug, PartialEq, Eq, Error)]
pub enum TrimFault {
    /// Memory ran out.
    #[error("memory")]
    Memory,
    /// A hint names neither a clause nor an earlier line, or a leaf names neither a clause nor a
    /// line.
    #[error("number")]
    Number,
    /// The evidence is a schedule.
    #[error("not a refutation")]
    NotRefutation,
}

/// Leaves out the lines of the refutation that aren't needed, and makes it one of version 2: a line
/// is needed where a leaf of the tree names it, or a hint of a later line that is needed. The
/// others stay in their order, their numbers are closed up, and each hint and leaf has its clause's
/// new number. For each formula with the counts of the heading, where the lines and the tree were
/// accepted they are accepted still. `NotRefutation` is told of each schedule, `Number` of each
/// refutation with a number that names nothing; `Memory` may come for any refutation. Where it is
/// refused, the evidence stays as it is. It takes time linear in the evidence, and beside it nine
/// bytes a line and room for the lines and nodes themselves once more; no literal and no hint is
/// copied.
pub fn trim_in_place(alloc: Global, evidence: &mut Evidence) -> Result<(), TrimFault>
    ensures trimmed { OnOk result (IsTrimmed evidence.old evidence.new) }
    ensures accepted { OnOk result (EachKeepsAccepted evidence.old evidence.new) }
    ensures unchanged { OnErr result (evidence.new ≡ evidence.old) }
    ensures number { result ≡ Err TrimFault.Number → HasStrayNumber evidence.old }
    ensures number_only { HasStrayNumber evidence.old → (result ≡ Err TrimFault.Number) ⊎ (result ≡ Err TrimFault.Memory) }
    ensures not_refutation { result ≡ Err TrimFault.NotRefutation ↔ IsNotRefutation evidence.old }
{
    match evidence {
        Evidence::Refutation(refutation) => match refutation.trim(alloc) {
            Ok(()) => Ok(()),
            Err(trimming::RefutationTrimFault::Memory) => Err(TrimFault::Memory),
            Err(trimming::RefutationTrimFault::Number) => Err(TrimFault::Number),
        },
        Evidence::Schedule(_schedule) => Err(TrimFault::NotRefutation),
    }
}

/// The refutation without the lines that aren't needed, as [`trim_in_place`] makes it, beside the
/// evidence, which is copied: every literal and every hint once. `NotRefutation` is told of each
/// schedule, `Number` of each refutation with a number that names nothing; `Memory` may come for
/// any refutation.
pub fn trim(alloc: Global, evidence: &Evidence) -> Result<Evidence, TrimFault>
    ensures trimmed { IfOk result (IsTrimmed evidence.now) }
    ensures accepted { IfOk result (EachKeepsAccepted evidence.now) }
    ensures number { result ≡ Err TrimFault.Number → HasStrayNumber evidence.now }
    ensures number_only { HasStrayNumber evidence.now → (result ≡ Err TrimFault.Number) ⊎ (result ≡ Err TrimFault.Memory) }
    ensures not_refutation { result ≡ Err TrimFault.NotRefutation ↔ IsNotRefutation evidence.now }
{
    match evidence {
        Evidence::Refutation(refutation) => trimmed_copy(alloc, refutation),
        Evidence::Schedule(_schedule) => Err(TrimFault::NotRefutation),
    }
}

/// A copy of the refutation without the lines that aren't needed.
fn trimmed_copy(alloc: Global, refutation: &Refutation) -> Result<Evidence, TrimFault>
    ensures trimmed { IfOk result (IsTrimmed (Evidence.Refutation refutation.now)) }
    ensures accepted { IfOk result (EachKeepsAccepted (Evidence.Refutation refutation.now)) }
    ensures number { result ≡ Err TrimFault.Number → HasStrayNumber (Evidence.Refutation refutation.now) }
    ensures number_only { HasStrayNumber (Evidence.Refutation refutation.now) →
        (result ≡ Err TrimFault.Number) ⊎ (result ≡ Err TrimFault.Memory) }
    ensures not_refutation { result ≡ Err TrimFault.NotRefutation → ⊥ }
{
    let mut copy = match refutation.copy(alloc) {
        Ok(copy) => Evidence::Refutation(copy),
        Err(AllocError) => return Err(TrimFault::Memory),
    };
    match trim_in_place(alloc, &mut copy) {
        Ok(()) => Ok(copy),
        Err(fault) => Err(fault),
    }
}
