//! What the search asks of a program: its calls, ranks and pairs, with the literals of their facts.

use crate::making::{fit_calls, rank_calls};
use callorder::Policy;
use candidates::Pairs;
use encode::Encoded;
use formula::{Condition, Meaning};
use formula_tables::Variables;
use propagation::LitIndex;
use std::alloc::{AllocError, Global};

/// What a call is to a match.
#[derive(Clone, Copy, PartialEq, Eq)]
pub(crate) enum Role {
    /// A send in standard mode.
    Standard,
    /// A synchronous send.
    Synchronous,
    /// A buffered send.
    Buffered,
    /// A receive or a matched probe.
    Taker,
    /// A probe, which takes no message.
    Probe,
    /// None.
    Other,
}

/// A call.
#[derive(Clone, Copy)]
pub(crate) struct CallShape {
    pub(crate) rank: usize,
    /// Its place among the calls of its rank.
    pub(crate) place: usize,
    pub(crate) part: Role,
    /// When it has returned.
    pub(crate) condition: Condition,
    /// The call that waits for it.
    pub(crate) waiter: Option<usize>,
    /// The receive on the handle of a matched probe.
    pub(crate) receive: Option<usize>,
    /// The literal that it is issued.
    pub(crate) issued: LitIndex,
    /// The literal that the rank goes on after it: the next call is issued, or the rank isn't
    /// unfinished.
    pub(crate) passed: LitIndex,
    /// Whether it is the last one of its rank.
    pub(crate) is_last: bool,
    /// The literal that it is buffered, of a send in standard mode.
    pub(crate) buffered: Option<LitIndex>,
}

/// The calls of a rank.
#[derive(Clone, Copy)]
pub(crate) struct RankShape {
    pub(crate) first: usize,
    pub(crate) length: usize,
    /// The literal that the rank is unfinished.
    pub(crate) unfinished: LitIndex,
}

/// A send and a taker that fit, or a send and a probe. Calls are named by their places in the
/// program, from 0.
#[derive(Clone, Copy)]
pub struct PairShape {
    /// The send.
    pub send: usize,
    /// The taker, or the probe.
    pub taker: usize,
    /// The literal that they are matched, or that the probe has seen the send.
    pub matched: LitIndex,
}

/// A program with the literals of its facts. Calls, ranks and pairs are named by their
/// places, from 0.
#[derive(Drop)]
pub struct Shape<'e> {
    pub(crate) policy: Policy,
    variables: Variables<'e>,
    pairs: &'e Pairs,
    calls: Vec<CallShape>,
    ranks: Vec<RankShape>,
    matches: Vec<PairShape>,
    of_sends: Vec<Vec<usize>>,
    orders: Vec<Option<(usize, usize)>>,
}

/// A call where there is none.
fn no_call() -> CallShape {
    CallShape {
        rank: 0,
        place: 0,
        part: Role::Other,
        condition: Condition::AtOnce,
        waiter: None,
        receive: None,
        issued: LitIndex::first(),
        passed: LitIndex::first(),
        is_last: true,
        buffered: None,
    }
}

/// Whether the call at this place is a probe.
pub(crate) fn is_probe(calls: &[CallShape], call: usize) -> bool {
    match calls.get(call) {
        Some(call) => call.part == Role::Probe,
        None => false,
    }
}

impl<'e> Shape<'e> {
    /// The shape of the program. The only error is want of memory.
    pub fn new(alloc: Global, encoded: &'e Encoded) -> Result<Shape<'e>, AllocError> {
        let variables = encoded.variables(alloc)?;
        let ranked = rank_calls(alloc, encoded.program(), &variables)?;
        let fitting = fit_calls(alloc, encoded, &variables, &ranked.calls)?;
        Ok(Shape {
            policy: encoded.program().policy(),
            variables,
            pairs: encoded.pairs(),
            calls: ranked.calls,
            ranks: ranked.ranks,
            matches: fitting.matches,
            of_sends: fitting.of_sends,
            orders: fitting.orders,
        })
    }

    /// The calls.
    pub(crate) fn calls(&self) -> &[CallShape] {
        self.calls.as_slice()
    }

    /// The call at this place.
    pub(crate) fn call(&self, call: usize) -> CallShape {
        match self.calls.get(call) {
            Some(call) => *call,
            None => no_call(),
        }
    }

    /// The ranks.
    pub(crate) fn ranks(&self) -> &[RankShape] {
        self.ranks.as_slice()
    }

    /// The rank of this number.
    pub(crate) fn rank(&self, rank: usize) -> RankShape {
        match self.ranks.get(rank) {
            Some(rank) => *rank,
            None => RankShape {
                first: 0,
                length: 0,
                unfinished: LitIndex::first(),
            },
        }
    }

    /// The pairs, those of probes too.
    pub fn matches(&self) -> &[PairShape] {
        self.matches.as_slice()
    }

    /// The pair at this place; past the end one of the first call with itself.
    pub fn pair(&self, place: usize) -> PairShape {
        match self.matches.get(place) {
            Some(pair) => *pair,
            None => PairShape {
                send: 0,
                taker: 0,
                matched: LitIndex::first(),
            },
        }
    }

    /// The places of the pairs of this send with takers, rising.
    pub fn of_send(&self, send: usize) -> &[usize] {
        match self.of_sends.get(send) {
            Some(places) => places.as_slice(),
            None => &[],
        }
    }

    /// The places of the pairs with this taker or probe, rising.
    pub fn of_taker(&self, taker: usize) -> &[usize] {
        self.pairs.with_taker(taker)
    }

    /// The places of the pairs in which this call finds a partner, rising.
    pub(crate) fn of_call(&self, call: usize) -> &[usize] {
        match self.call(call).part {
            Role::Taker | Role::Probe => self.of_taker(call),
            _ => self.of_send(call),
        }
    }

    /// Whether the call is a probe.
    pub(crate) fn is_probe(&self, call: usize) -> bool {
        is_probe(self.calls.as_slice(), call)
    }

    /// Whether the first is an earlier call of the same rank.
    pub fn is_earlier(&self, one: usize, other: usize) -> bool {
        one < other && self.call(one).rank == self.call(other).rank
    }

    /// How many events there are.
    pub fn events(&self) -> usize {
        self.variables.event_count()
    }

    /// How many bits a clock has.
    pub fn clock_size(&self) -> usize {
        self.variables.clock_size()
    }

    /// The events, by their places from 0, of which this literal says that the first
    /// is earlier.
    pub fn order_of(&self, literal: LitIndex) -> Option<(usize, usize)> {
        let (first, second) = self.orders.get(literal.variable()).copied()??;
        if literal.is_positive() {
            return Some((first, second));
        }
        Some((second, first))
    }

    /// The literal that the first event is earlier.
    pub fn earlier(&self, first: usize, second: usize) -> LitIndex {
        if first < second {
            return LitIndex::of(
                &self
                    .variables
                    .literal(&Meaning::Before(first, second), true),
            );
        }
        LitIndex::of(
            &self
                .variables
                .literal(&Meaning::Before(second, first), false),
        )
    }

    /// The literal that so many first bits of the two events' clocks are the same.
    pub fn same(&self, one: usize, other: usize, bits: usize) -> LitIndex {
        let meaning = if one < other {
            Meaning::SameBits(one, other, bits)
        } else {
            Meaning::SameBits(other, one, bits)
        };
        LitIndex::of(&self.variables.literal(&meaning, true))
    }
}
