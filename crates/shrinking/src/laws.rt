//! What hangs within the limits of either function. Each function does nothing: its contract is the
//! law.

ghost use Rattle.shrinking.specs.Laws.{LongHangsAreShort, ShortHangsAreLong};

/// A text that hangs within the long limits, and is a program's within the short ones, hangs within
/// these.
pub fn long_hangs_are_short()
    ensures { LongHangsAreShort }
{}

/// A text that hangs within the short limits hangs within the long ones.
pub fn short_hangs_are_long()
    ensures { ShortHangsAreLong }
{}
