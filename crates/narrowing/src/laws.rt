//! What is known of a choice where no run of its other ways ends stuck.

ghost use Rattle.narrowing.specs.Laws.{TakenWhereNeverOtherwise};

/// Where a choice has other ways, and with each of them no run ends stuck, it was made as it was in
/// each run that does: the call is issued and the send buffered, or not; or the call has found a
/// message of that rank with that tag.
pub fn taken_where_never_otherwise()
    ensures { TakenWhereNeverOtherwise }
{}
