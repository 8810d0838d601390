//! Which pairs have happened in the order of some run, whatever else is so.

use crate::shape::{CallShape, Shape};
use crate::state::MatchState;
use callorder::Policy;
use formula::Condition;
use std::alloc::{AllocError, Global};

/// What has happened so far.
#[derive(Drop)]
struct Reality<'a, 'e> {
    shape: &'a Shape<'e>,
    state: &'a MatchState,
    /// How many calls of each rank are issued.
    issued: Vec<usize>,
    is_matched: Vec<bool>,
    /// The taker of each send that is matched and whose partner is known.
    takers: Vec<Option<usize>>,
    /// Which of the pairs have happened.
    is_real: Vec<bool>,
}

fn set<T: Copy>(entries: &mut [T], place: usize, value: T) {
    if let Some(entry) = entries.get_mut(place) {
        *entry = value;
    }
}

impl<'a, 'e> Reality<'a, 'e> {
    fn new(
        alloc: Global,
        shape: &'a Shape<'e>,
        state: &'a MatchState,
        pairs: usize,
    ) -> Result<Reality<'a, 'e>, AllocError> {
        Ok(Reality {
            shape,
            state,
            issued: vec![in alloc; 0; shape.ranks().len()]?,
            is_matched: state.is_matched.as_slice().to_vec(alloc)?,
            takers: vec![in alloc; None; shape.calls().len()]?,
            is_real: vec![in alloc; false; pairs]?,
        })
    }

    fn is_issued(&self, call: usize) -> bool {
        let call = self.shape.call(call);
        call.place < self.issued.get(call.rank).copied().unwrap_or(0)
    }

    fn is_matched(&self, call: usize) -> bool {
        self.is_matched.get(call).copied().unwrap_or(false)
    }

    /// Whether the taker's message is fetched, as that of a matched probe is by the receive on its
    /// handle.
    fn fetches(&self, taker: usize) -> bool {
        match self.shape.call(taker).receive {
            Some(receive) => self.is_issued(receive),
            None => true,
        }
    }

    fn is_fetched(&self, send: usize) -> bool {
        match self.takers.get(send).copied() {
            Some(Some(taker)) => self.is_matched(send) && self.fetches(taker),
            _ => self.is_matched(send),
        }
    }

    fn has_returned(&self, call: &CallShape) -> bool {
        match call.condition {
            Condition::AtOnce => true,
            Condition::IfMatched(operation) => self.is_matched(operation),
            Condition::IfFetched(operation) => self.is_fetched(operation),
            Condition::IfBufferedOrFetched(operation) => {
                self.shape.policy != Policy::Never || self.is_fetched(operation)
            }
        }
    }

    /// How many calls of the rank are issued by now, of which so many were before.
    fn reached(&self, rank: usize, before: usize) -> usize {
        let first = self.shape.rank(rank).first;
        let most = self.state.rank(rank).issued;
        for place in before.max(1)..most {
            let last = self.shape.call(first.saturating_add(place - 1));
            if !self.has_returned(&last) {
                return place;
            }
        }
        before.max(most)
    }

    /// Lets each rank go on, and answers whether one did.
    fn advance(&mut self) -> bool {
        let mut is_more = false;
        for rank in 0..self.issued.len() {
            let before = self.issued[rank];
            let reached = self.reached(rank, before);
            set(self.issued.as_mut_slice(), rank, reached);
            is_more = is_more || reached > before;
        }
        is_more
    }

    /// Whether all earlier takers that the send fits are matched.
    fn is_first_taker(&self, send: usize, taker: usize) -> bool {
        self.shape.of_send(send).iter().all(|pair| {
            let earlier = self.shape.pair(*pair).taker;
            earlier >= taker || self.is_matched(earlier)
        })
    }

    /// Whether all earlier sends of its rank that fit the taker are matched.
    fn is_first_send(&self, send: usize, taker: usize) -> bool {
        self.shape.of_taker(taker).iter().all(|pair| {
            let earlier = self.shape.pair(*pair).send;
            !self.shape.is_earlier(earlier, send) || self.is_matched(earlier)
        })
    }

    fn can_happen(&self, send: usize, taker: usize) -> bool {
        self.is_issued(send)
            && self.is_issued(taker)
            && self.is_first_taker(send, taker)
            && self.is_first_send(send, taker)
    }

    /// The pair at this place of the list happens, where it can and hasn't yet. Answers whether it
    /// does.
    fn happen(&mut self, place: usize, pair: usize) -> bool {
        let pair = self.shape.pair(pair);
        let is_known = self.is_real.get(place).copied().unwrap_or(true);
        if is_known || !self.can_happen(pair.send, pair.taker) {
            return false;
        }
        set(self.is_real.as_mut_slice(), place, true);
        set(self.is_matched.as_mut_slice(), pair.taker, true);
        if !self.shape.is_probe(pair.taker) {
            set(self.is_matched.as_mut_slice(), pair.send, true);
            set(self.takers.as_mut_slice(), pair.send, Some(pair.taker));
        }
        true
    }

    /// Lets the pairs happen that can, and answers whether one did.
    fn happen_all(&mut self, pairs: &[usize]) -> bool {
        let mut is_more = false;
        for place in 0..pairs.len() {
            let happens = self.happen(place, pairs[place]);
            is_more = is_more || happens;
        }
        is_more
    }

    fn run(&mut self, pairs: &[usize]) {
        for _ in 0..=self.shape.calls().len() + pairs.len() {
            let advances = self.advance();
            let happens = self.happen_all(pairs);
            if !advances && !happens {
                return;
            }
        }
    }
}

/// Which of these pairs have happened in the order of some run.
pub(crate) fn which_are_real(
    alloc: Global,
    shape: &Shape<'_>,
    state: &MatchState,
    pairs: &[usize],
) -> Result<Vec<bool>, AllocError> {
    let mut reality = Reality::new(alloc, shape, state, pairs.len())?;
    reality.run(pairs);
    let Reality { is_real, .. } = reality;
    Ok(is_real)
}
