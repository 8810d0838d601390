//! What holds of a refutation without the lines that aren't needed, apart from any code.

ghost use Rattle.trimming.specs.Needed.{TrimmedAreAccepted, TrimmedAreNeeded};

/// What is accepted is accepted without the lines that aren't needed.
pub fn trimmed_are_accepted()
    ensures { TrimmedAreAccepted }
{}

/// Without the lines that aren't needed each line is needed.
pub fn trimmed_are_needed()
    ensures { TrimmedAreNeeded }
{}
