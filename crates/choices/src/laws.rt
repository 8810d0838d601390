//! What it means that a choice is known to be needed.

ghost use Rattle.choices.specs.Weights.{KnownIsTaken};

/// Each run of the text's program that ends stuck makes a choice that is known to be needed as it
/// was made.
pub fn known_is_taken()
    ensures { KnownIsTaken }
{}
