//! Positions: how far the runs of a program have come, in small numbers.

/// The most ranks that a position has room for.
pub const MOST_RANKS: usize = 4;

/// The most calls that a position has room for.
pub const MOST_CALLS: usize = 24;

/// How far a run has come. Calls are named by their place in the program's list, ranks by their
/// number, both from 0.
#[derive(Clone, Copy, PartialEq, Eq, Hash)]
pub struct Position {
    /// How many calls of each rank are issued.
    issued: [u8; MOST_RANKS],
    /// Which calls are sends that were issued as buffered, or probes that have seen a message.
    marks: [bool; MOST_CALLS],
    /// For each call the one that it is matched with.
    partners: [Option<u8>; MOST_CALLS],
}

impl Position {
    /// Nothing is issued.
    pub fn opening() -> Position {
        Position {
            issued: [0; MOST_RANKS],
            marks: [false; MOST_CALLS],
            partners: [None; MOST_CALLS],
        }
    }

    /// How many calls of a rank are issued.
    pub fn issued(&self, rank: usize) -> usize {
        match self.issued.get(rank) {
            None => 0,
            Some(count) => usize::from(*count),
        }
    }

    /// Whether the call is a send that was issued as buffered.
    pub fn is_buffered(&self, call: usize) -> bool {
        self.is_marked(call)
    }

    /// Whether the call is a probe that has seen a message.
    pub fn has_seen(&self, call: usize) -> bool {
        self.is_marked(call)
    }

    fn is_marked(&self, call: usize) -> bool {
        match self.marks.get(call) {
            None => false,
            Some(mark) => *mark,
        }
    }

    /// The call that this one is matched with, if any.
    pub fn partner(&self, call: usize) -> Option<usize> {
        match self.partners.get(call) {
            Some(Some(partner)) => Some(usize::from(*partner)),
            _ => None,
        }
    }

    /// Notes that one more call of a rank is issued, this one.
    pub fn issue(&mut self, rank: usize, call: usize, is_buffered: bool) {
        if let Some(count) = self.issued.get_mut(rank) {
            *count = count.saturating_add(1);
        }
        self.mark(call, is_buffered);
    }

    /// Notes that a probe sees a message. Which one makes no difference to what comes.
    pub fn see(&mut self, probe: usize) {
        self.mark(probe, true);
    }

    /// Notes that two calls are matched.
    pub fn join(&mut self, one: usize, other: usize) {
        self.set_partner(one, other);
        self.set_partner(other, one);
    }

    fn mark(&mut self, call: usize, mark: bool) {
        if let Some(entry) = self.marks.get_mut(call) {
            *entry = mark;
        }
    }

    fn set_partner(&mut self, call: usize, partner: usize) {
        if let Some(entry) = self.partners.get_mut(call) {
            *entry = u8::try_from(partner).ok();
        }
    }
}
