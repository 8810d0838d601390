//! What holds of every shared pool that was finished, apart from any code.

ghost use Rattle.sharedpool.specs.Laws.{NothingSeenIsLost};

/// What a seat has published or been told is in all that it is told later: each of its accepted
/// fetches has every such line past the place from which it was asked for.
pub fn nothing_seen_is_lost()
    ensures { NothingSeenIsLost }
{}
