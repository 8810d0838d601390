//! What the definitions say of one another.

ghost use Rattle.spmd_program.specs.Unrolling.{OutcomesAreOne};

/// The bytes of an SPMD text have one meaning: with the same settings, for as many ranks, and with
/// collective calls as barriers or not, all its trees have the same calls and turns of loops, or
/// the same fault after them.
pub fn outcomes_are_one()
    ensures { OutcomesAreOne }
{}
