//! What it means that sends and takers differ in number, apart from any code.

ghost use Rattle.balance.specs.Laws.{ChannelsAreClosed, MissingSendsStick, MissingTakersLeaveMessages, ProgramsHaveRanks};

/// A send that a taker may take is of the taker's channel.
pub fn channels_are_closed()
    ensures { ChannelsAreClosed }
{}

/// Each program has the ranks of its calls, so that what is told of missing sends holds of it.
pub fn programs_have_ranks()
    ensures { ProgramsHaveRanks }
{}

/// Where a channel has more takers than sends, no run finishes: each run gets stuck, however it
/// goes on.
pub fn missing_sends_stick()
    ensures { MissingSendsStick }
{}

/// Where a channel has more sends than takers, each run leaves as many of its messages at least as
/// there are sends more.
pub fn missing_takers_leave_messages()
    ensures { MissingTakersLeaveMessages }
{}
