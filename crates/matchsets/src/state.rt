//! What is known of the end of a stuck run.

use crate::key::{Key, NOTHING, mixed};
use crate::shape::{CallShape, PairShape, RankShape, Shape};
use propagation::LitIndex;
use std::alloc::{AllocError, Global};

/// How many literals at most say how far a rank comes.
const CODES_OF_A_RANK: usize = 3;

/// What is known of a rank.
#[derive(Clone, Copy)]
pub(crate) struct Progress {
    /// So many first calls are issued.
    pub(crate) issued: usize,
    pub(crate) is_finished: bool,
    /// No call from this one on is issued; at the number of calls: the rank isn't finished; above:
    /// nothing is known.
    pub(crate) end: usize,
}

/// What is known: how far the ranks come, which calls are matched among themselves, and which pairs
/// are matched and still matter.
#[derive(Drop)]
pub struct MatchState {
    pub(crate) ranks: Vec<Progress>,
    /// Sends and takers that are matched with one another, their partners forgotten, and probes
    /// that have seen a message, whose is forgotten.
    pub(crate) is_matched: Vec<bool>,
    /// Pairs that are matched, rising.
    pub(crate) kept: Vec<usize>,
    /// Those of them that have surely happened, while it is open whether their waits are reached.
    pub(crate) unsettled: Vec<usize>,
}

/// The hash of what has this hash and of how far these ranks come.
fn mixed_ranks(hash: u64, ranks: &[Progress]) -> u64 {
    let mut hash = hash;
    for rank in ranks {
        hash = mixed(hash, rank.issued as u64);
        hash = mixed(hash, rank.end as u64);
        hash = mixed(hash, u64::from(rank.is_finished));
    }
    hash
}

/// The hash of the places at which it is true. The number at its end is none of a place,
/// so that what is mixed in behind it can't be taken for one.
fn mixed_places(is_so: &[bool]) -> u64 {
    let mut hash = NOTHING;
    for place in 0..is_so.len() {
        if is_so[place] {
            hash = mixed(hash, place as u64);
        }
    }
    mixed(hash, u64::MAX)
}

/// The hash of what has this hash and of these numbers.
fn mixed_numbers(hash: u64, numbers: &[usize]) -> u64 {
    let mut hash = hash;
    for number in numbers {
        hash = mixed(hash, *number as u64);
    }
    hash
}

fn push_issued(
    shape: &Shape<'_>,
    literals: &mut Vec<LitIndex>,
    ranks: &[Progress],
) -> Result<(), AllocError> {
    for (rank, progress) in shape.ranks().iter().zip(ranks) {
        if progress.issued > 0 {
            let last = rank.first.saturating_add(progress.issued - 1);
            literals.push(shape.call(last).issued)?;
        }
    }
    Ok(())
}

/// The literal that no call of the rank from this one on is issued.
pub(crate) fn ends_at(shape: &Shape<'_>, rank: &RankShape, place: usize) -> LitIndex {
    if place < rank.length {
        return shape
            .call(rank.first.saturating_add(place))
            .issued
            .negated();
    }
    rank.unfinished
}

fn push_end(
    shape: &Shape<'_>,
    literals: &mut Vec<LitIndex>,
    rank: &RankShape,
    progress: &Progress,
) -> Result<(), AllocError> {
    if rank.length == 0 {
        return Ok(());
    }
    if progress.is_finished {
        literals.push(rank.unfinished.negated())?;
    }
    if progress.end <= rank.length {
        literals.push(ends_at(shape, rank, progress.end))?;
    }
    Ok(())
}

fn push_ends(
    shape: &Shape<'_>,
    literals: &mut Vec<LitIndex>,
    ranks: &[Progress],
) -> Result<(), AllocError> {
    for (rank, progress) in shape.ranks().iter().zip(ranks) {
        push_end(shape, literals, rank, progress)?;
    }
    Ok(())
}

fn push_kept(
    shape: &Shape<'_>,
    literals: &mut Vec<LitIndex>,
    kept: &[usize],
) -> Result<(), AllocError> {
    for pair in kept {
        literals.push(shape.pair(*pair).matched)?;
    }
    Ok(())
}

impl MatchState {
    /// Nothing is known.
    pub fn new(alloc: Global, shape: &Shape<'_>) -> Result<MatchState, AllocError> {
        let mut ranks = Vec::new(alloc);
        for rank in shape.ranks() {
            ranks.push(Progress {
                issued: 0,
                is_finished: false,
                end: rank.length.saturating_add(1),
            })?;
        }
        Ok(MatchState {
            ranks,
            is_matched: vec![in alloc; false; shape.calls().len()]?,
            kept: Vec::new(alloc),
            unsettled: Vec::new(alloc),
        })
    }

    /// What is known of this rank.
    pub(crate) fn rank(&self, rank: usize) -> Progress {
        match self.ranks.get(rank) {
            Some(progress) => *progress,
            None => Progress {
                issued: 0,
                is_finished: false,
                end: usize::MAX,
            },
        }
    }

    /// Whether the call is one of those whose partners are forgotten.
    pub(crate) fn is_matched(&self, call: usize) -> bool {
        self.is_matched.get(call).copied().unwrap_or(false)
    }

    /// The call is one of those.
    pub(crate) fn set_matched(&mut self, call: usize) {
        if let Some(entry) = self.is_matched.get_mut(call) {
            *entry = true;
        }
    }

    /// What tells what is known. States of one program with the same key have, but for chance, the
    /// same assumptions.
    pub fn key(&self) -> Key {
        let matched = mixed_places(&self.is_matched);
        let ranks = mixed_ranks(matched, &self.ranks);
        let state = mixed_numbers(ranks, &self.kept);
        Key { state, matched }
    }

    /// Whether the rank surely goes on after the call.
    fn is_passed(&self, call: &CallShape) -> bool {
        let progress = self.rank(call.rank);
        if call.is_last {
            return progress.is_finished;
        }
        progress.issued > call.place.saturating_add(1)
    }

    /// Whether the call is surely never issued.
    pub(crate) fn is_never(&self, call: &CallShape) -> bool {
        self.rank(call.rank).end <= call.place
    }

    /// Whether the rank surely goes on after the call, or the call is surely never issued.
    pub(crate) fn is_settled(&self, shape: &Shape<'_>, call: Option<usize>) -> bool {
        let Some(call) = call else {
            return true;
        };
        let call = shape.call(call);
        self.is_passed(&call) || self.is_never(&call)
    }

    /// Whether just one of the two calls is among those whose partners are forgotten, so that they
    /// aren't matched with one another. A probe may see a message that is taken by another call.
    fn is_cut(&self, shape: &Shape<'_>, pair: &PairShape) -> bool {
        !shape.is_probe(pair.taker) && self.is_matched(pair.send) != self.is_matched(pair.taker)
    }

    fn push_cut(&self, shape: &Shape<'_>, literals: &mut Vec<LitIndex>) -> Result<(), AllocError> {
        for pair in shape.matches() {
            if self.is_cut(shape, pair) {
                literals.push(pair.matched.negated())?;
            }
        }
        Ok(())
    }

    /// The numbers of literals that say all this. That the forgotten pairs are among themselves is
    /// said by what isn't matched.
    pub fn assumptions(
        &self,
        alloc: Global,
        shape: &Shape<'_>,
    ) -> Result<Vec<LitIndex>, AllocError> {
        let most = self.ranks.len().saturating_mul(CODES_OF_A_RANK);
        let mut literals = Vec::with_capacity(alloc, most.saturating_add(self.kept.len()))?;
        push_issued(shape, &mut literals, &self.ranks)?;
        push_ends(shape, &mut literals, &self.ranks)?;
        push_kept(shape, &mut literals, &self.kept)?;
        self.push_cut(shape, &mut literals)?;
        Ok(literals)
    }
}
