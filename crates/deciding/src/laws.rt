//! What holds of each decision. Each function does nothing: its contract is the law.

ghost use Rattle.deciding.specs.Laws.{JustifiedRunsAreDecided, LoneSendersAreDecided, NamedSourcesAreDecided, ShortTextsAreDecided};

/// Where each receive, matched probe and probe of a text's program names its source, no race is
/// decided.
pub fn named_sources_are_decided()
    ensures { NamedSourcesAreDecided }
{}

/// Where the sends that fit each receive, matched probe and probe of a text's program are of one
/// rank, no race is decided.
pub fn lone_senders_are_decided()
    ensures { LoneSendersAreDecided }
{}

/// Where a table that says which calls have found where others are issued justifies each of its
/// entries, and shows that no send races, for the end of each run that finishes and buffers as
/// little as the policy allows, no race is decided.
pub fn justified_runs_are_decided()
    ensures { JustifiedRunsAreDecided }
{}

/// What is decided of a text within the limits of `calltext::read` is true of the program that
/// `read` and `Program::resolve` make of it.
pub fn short_texts_are_decided()
    ensures { ShortTextsAreDecided }
{}
