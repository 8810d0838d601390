//! The steps of a program's runs, by rules of their own: nothing of the machine of `semantics` is
//! used.

use crate::position::{MOST_CALLS, MOST_RANKS, Position};
use callorder::{Call, Kind, Mode, Policy, Program};
use std::alloc::{AllocError, Global};

/// A call, and where it stands among those of its rank.
#[derive(Clone, Copy)]
struct Seat {
    call: Call,
    rank: usize,
    /// How many calls of its rank stand before it.
    before: usize,
}

/// A program's calls, sorted for questions on steps.
#[derive(Drop)]
pub struct Rules {
    policy: Policy,
    /// By place, from 0.
    seats: Vec<Seat>,
    /// The places of each rank's calls.
    ranks: Vec<Vec<usize>>,
}

/// How the rules are made.
impl Rules {
    /// The rules of a program, or none if it has too many ranks or calls.
    pub fn of(alloc: Global, program: &Program) -> Result<Option<Rules>, AllocError> {
        let ranks = program.ranks() as usize;
        if ranks > MOST_RANKS || program.calls().len() > MOST_CALLS {
            return Ok(None);
        }
        let mut rules = Rules {
            policy: program.policy(),
            seats: Vec::new(alloc),
            ranks: Vec::new(alloc),
        };
        rules.add_ranks(alloc, ranks)?;
        rules.add_calls(program.calls())?;
        Ok(Some(rules))
    }

    fn add_ranks(&mut self, alloc: Global, count: usize) -> Result<(), AllocError> {
        for _ in 0..count {
            self.ranks.push(Vec::new(alloc))?;
        }
        Ok(())
    }

    fn add_calls(&mut self, calls: &[Call]) -> Result<(), AllocError> {
        for call in calls {
            self.add_call(*call)?;
        }
        Ok(())
    }

    fn add_call(&mut self, call: Call) -> Result<(), AllocError> {
        let rank = call.rank as usize;
        let place = self.seats.len();
        let before = self.count(rank);
        self.seats.push(Seat { call, rank, before })?;
        if let Some(places) = self.ranks.get_mut(rank) {
            places.push(place)?;
        }
        Ok(())
    }
}

/// What calls are.
impl Rules {
    fn seat(&self, place: usize) -> Option<Seat> {
        self.seats.get(place).copied()
    }

    fn kind(&self, place: usize) -> Option<Kind> {
        match self.seat(place) {
            None => None,
            Some(seat) => Some(seat.call.kind),
        }
    }

    /// How many calls a rank has.
    fn count(&self, rank: usize) -> usize {
        match self.ranks.get(rank) {
            None => 0,
            Some(places) => places.len(),
        }
    }

    /// The place of a rank's call, by its number from 0.
    fn place(&self, rank: usize, number: usize) -> Option<usize> {
        match self.ranks.get(rank) {
            None => None,
            Some(places) => places.get(number).copied(),
        }
    }

    fn are_of_one_rank(&self, one: usize, other: usize) -> bool {
        match (self.seat(one), self.seat(other)) {
            (Some(one), Some(other)) => one.rank == other.rank,
            _ => false,
        }
    }

    fn is_probe(&self, place: usize) -> bool {
        matches!(self.kind(place), Some(Kind::Probe { .. }))
    }

    /// Whether the first call is a send whose message the second may take, or see: it is sent to
    /// the second's rank, in the same communicator, and source and tag are those that are wanted,
    /// or any are.
    fn is_meant_for(&self, send: usize, finder: usize) -> bool {
        let (Some(send), Some(finder)) = (self.seat(send), self.seat(finder)) else {
            return false;
        };
        let (Some(message), Some(pattern)) = (send.call.kind.message(), finder.call.kind.pattern())
        else {
            return false;
        };
        message.destination as usize == finder.rank
            && message.communicator == pattern.communicator
            && pattern.source.unwrap_or(send.call.rank) == send.call.rank
            && pattern.tag.unwrap_or(message.tag) == message.tag
    }
}

/// What has happened at a position.
impl Rules {
    fn is_issued(&self, position: &Position, place: usize) -> bool {
        match self.seat(place) {
            None => false,
            Some(seat) => seat.before < position.issued(seat.rank),
        }
    }

    /// Whether the call is issued and not matched.
    fn is_open(&self, position: &Position, place: usize) -> bool {
        self.is_issued(position, place) && position.partner(place).is_none()
    }

    /// Whether the message of a send is being received: by a receive, or by the receive on the
    /// handle of a matched probe.
    fn is_fetched(&self, position: &Position, send: usize) -> bool {
        let Some(taker) = position.partner(send) else {
            return false;
        };
        match self.kind(taker) {
            Some(Kind::Receive { .. }) => true,
            Some(Kind::MatchedProbe { receive, .. }) => self.is_issued(position, receive),
            _ => false,
        }
    }

    /// Whether the operation that a call starts is complete.
    fn is_complete(&self, position: &Position, place: usize) -> bool {
        match self.kind(place) {
            Some(Kind::Send { mode, .. }) => match mode {
                Mode::Standard => {
                    position.is_buffered(place) || self.is_fetched(position, place)
                }
                Mode::Synchronous => self.is_fetched(position, place),
                Mode::Buffered => true,
            },
            Some(Kind::Receive { .. }) => position.partner(place).is_some(),
            Some(Kind::MatchedProbe { .. }) => position.partner(place).is_some(),
            Some(Kind::MatchedReceive { .. }) => true,
            _ => false,
        }
    }

    /// Whether an issued call has returned.
    fn has_returned(&self, position: &Position, place: usize) -> bool {
        match self.kind(place) {
            None => false,
            Some(Kind::Send { blocking, .. }) => !blocking || self.is_complete(position, place),
            Some(Kind::Receive { blocking, .. }) => !blocking || self.is_complete(position, place),
            Some(Kind::MatchedProbe { .. }) => self.is_complete(position, place),
            Some(Kind::Probe { .. }) => position.has_seen(place),
            Some(Kind::MatchedReceive { .. }) => true,
            Some(Kind::Wait { operation }) => self.is_complete(position, operation),
        }
    }

    /// Whether the call that a rank issued last has returned, or it has issued none.
    fn is_idle(&self, position: &Position, rank: usize) -> bool {
        match position.issued(rank).checked_sub(1) {
            None => true,
            Some(number) => match self.place(rank, number) {
                None => false,
                Some(place) => self.has_returned(position, place),
            },
        }
    }

    fn is_finished(&self, position: &Position, rank: usize) -> bool {
        position.issued(rank) == self.count(rank) && self.is_idle(position, rank)
    }

    /// Whether all ranks are finished.
    pub fn is_over(&self, position: &Position) -> bool {
        for rank in 0..self.ranks.len() {
            if !self.is_finished(position, rank) {
                return false;
            }
        }
        true
    }
}

/// Which messages can be taken, and which seen.
impl Rules {
    fn can_match(&self, position: &Position, send: usize, taker: usize) -> bool {
        self.is_open(position, send)
            && self.is_open(position, taker)
            && self.is_meant_for(send, taker)
            && !self.is_probe(taker)
            && !self.passes_send(position, send, taker)
            && !self.passes_taker(position, send, taker)
    }

    /// Whether a probe that is issued and has seen nothing can see some message.
    fn can_see_some(&self, position: &Position, probe: usize) -> bool {
        if !self.is_probe(probe) || !self.is_issued(position, probe) || position.has_seen(probe) {
            return false;
        }
        for send in 0..self.seats.len() {
            if self.can_see(position, send, probe) {
                return true;
            }
        }
        false
    }

    /// Whether such a probe can see the message of this send: it is there, and neither an earlier
    /// message nor an earlier taker of the probe's rank comes first.
    fn can_see(&self, position: &Position, send: usize, probe: usize) -> bool {
        self.is_open(position, send)
            && self.is_meant_for(send, probe)
            && !self.passes_send(position, send, probe)
            && !self.passes_taker(position, send, probe)
    }

    /// Whether the taker or probe could have an earlier message of the same rank that is still
    /// there.
    fn passes_send(&self, position: &Position, send: usize, finder: usize) -> bool {
        for earlier in 0..send {
            if self.are_of_one_rank(earlier, send)
                && self.is_meant_for(earlier, finder)
                && position.partner(earlier).is_none()
            {
                return true;
            }
        }
        false
    }

    /// Whether an earlier taker of the same rank could have the message and still has none. A probe
    /// takes none, so it is never in the way.
    fn passes_taker(&self, position: &Position, send: usize, finder: usize) -> bool {
        for earlier in 0..finder {
            if self.are_of_one_rank(earlier, finder)
                && self.is_meant_for(send, earlier)
                && !self.is_probe(earlier)
                && position.partner(earlier).is_none()
            {
                return true;
            }
        }
        false
    }
}

/// Where steps lead.
impl Rules {
    /// The positions that one step leads to, none twice.
    pub fn next(&self, alloc: Global, position: &Position) -> Result<Vec<Position>, AllocError> {
        let mut next = Vec::new(alloc);
        self.push_issues(position, &mut next)?;
        self.push_matches(position, &mut next)?;
        self.push_sees(position, &mut next)?;
        Ok(next)
    }

    fn push_issues(&self, position: &Position, next: &mut Vec<Position>) -> Result<(), AllocError> {
        for rank in 0..self.ranks.len() {
            if !self.is_idle(position, rank) {
                continue;
            }
            if let Some(place) = self.place(rank, position.issued(rank)) {
                self.push_issue(position, rank, place, next)?;
            }
        }
        Ok(())
    }

    /// Pushes where the issue of this call leads, with each choice of buffering that the policy
    /// leaves.
    fn push_issue(
        &self,
        position: &Position,
        rank: usize,
        place: usize,
        next: &mut Vec<Position>,
    ) -> Result<(), AllocError> {
        let is_standard = matches!(
            self.kind(place),
            Some(Kind::Send {
                mode: Mode::Standard,
                ..
            })
        );
        if is_standard && self.policy != Policy::Never {
            let mut buffered = *position;
            buffered.issue(rank, place, true);
            next.push(buffered)?;
        }
        if !is_standard || self.policy != Policy::Always {
            let mut plain = *position;
            plain.issue(rank, place, false);
            next.push(plain)?;
        }
        Ok(())
    }

    fn push_matches(
        &self,
        position: &Position,
        next: &mut Vec<Position>,
    ) -> Result<(), AllocError> {
        for send in 0..self.seats.len() {
            if self.is_open(position, send) {
                self.push_matches_of(position, send, next)?;
            }
        }
        Ok(())
    }

    fn push_matches_of(
        &self,
        position: &Position,
        send: usize,
        next: &mut Vec<Position>,
    ) -> Result<(), AllocError> {
        for taker in 0..self.seats.len() {
            if self.can_match(position, send, taker) {
                let mut matched = *position;
                matched.join(send, taker);
                next.push(matched)?;
            }
        }
        Ok(())
    }

    fn push_sees(&self, position: &Position, next: &mut Vec<Position>) -> Result<(), AllocError> {
        for probe in 0..self.seats.len() {
            if self.can_see_some(position, probe) {
                let mut seen = *position;
                seen.see(probe);
                next.push(seen)?;
            }
        }
        Ok(())
    }
}
