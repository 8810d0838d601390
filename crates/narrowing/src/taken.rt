//! What a call does where it leaves something open.

/// What a run did where a call left something open.
#[derive(Clone, Copy, PartialEq, Eq)]
pub enum ChoiceTaken {
    /// The send was buffered.
    Buffered,
    /// The send was not buffered.
    NotBuffered,
    /// The call found the message of this rank, from 0, with this tag.
    Message { source: u32, tag: u32 },
}
