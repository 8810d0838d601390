//! What verdicts are, apart from any code.

ghost use Rattle.checker.specs.Verdicts.{NeverBoth, OneVerdict, RefutedAreNeverStuck};

/// A program that is refuted has no run that ends stuck.
pub fn refuted_are_never_stuck()
    ensures { RefutedAreNeverStuck }
{}

/// Two texts have one verdict, but for want of memory.
pub fn one_verdict()
    ensures { OneVerdict }
{}

/// No program is refuted by one evidence and shown to get stuck by another.
pub fn never_both()
    ensures { NeverBoth }
{}
