//! What texts and faults are, apart from any reader. Together the laws say that an answer of `read`
//! is the only one beside want of memory: bytes are the text of one program at most, have one fault
//! at most, and never both.

ghost use Rattle.calltext.specs.Fault.{OneFault, OneValue, SameTextWithin, TextHasNoFault};
ghost use Rattle.calltext.specs.WiderLimits.{ShortIsWithinLong};
ghost use Rattle.calltext.specs.Slots.{WordsFillSlots};

/// Bytes are the text of one program at most.
pub fn one_value()
    ensures { OneValue }
{}

/// A program's text has no fault but want of memory.
pub fn text_has_no_fault()
    ensures { TextHasNoFault }
{}

/// Bytes have one fault at most beside want of memory.
pub fn one_fault()
    ensures { OneFault }
{}

/// Bytes that are a text within some limits are the same program's text within any wider ones, and
/// no other's.
pub fn same_text_within()
    ensures { SameTextWithin }
{}

/// What is within the short limits is within the long ones.
pub fn short_is_within_long()
    ensures { ShortIsWithinLong }
{}

/// Words behind a verb fill its slots exactly where they and the verb are a call's.
pub fn words_fill_slots()
    ensures { WordsFillSlots }
{}
