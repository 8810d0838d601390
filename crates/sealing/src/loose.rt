//! Ranks that may finish a phase too early.

/// What a rank could send to a finder of any source that has found nothing yet where the rank is
/// finished. Ranks, tags and communicators count from 0.
#[derive(Clone, Copy, Debug, PartialEq, Eq, Hash)]
pub struct Loose {
    /// The rank that could send.
    pub source: u32,
    /// The finder's rank.
    pub destination: u32,
    pub communicator: u32,
    /// The tag that the finder names, if it names one.
    pub tag: Option<u32>,
}
