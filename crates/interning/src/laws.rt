//! What the last place below a bound is, apart from any code.

ghost use Rattle.interning.specs.Places.{LastBelowIsLast};

/// The last place below a bound that passes a test is the greatest one that does; there is none
/// only where no place passes.
pub fn last_below_is_last()
    ensures { LastBelowIsLast }
{}
