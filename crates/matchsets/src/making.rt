//! Making the shape of a program.

use crate::shape::{CallShape, PairShape, RankShape, Role, is_probe};
use callorder::{Kind, Program};
use calltext::Mode;
use candidates::Pairs;
use encode::Encoded;
use formula::{Condition, Fact, Meaning};
use formula_tables::{Variables, is_last, rank_of, receive_on_handle, when_returned};
use propagation::LitIndex;
use std::alloc::{AllocError, Global};

/// What the call is to a match.
fn part_of(program: &Program, call: usize) -> Role {
    let Some(call) = program.call(call) else {
        return Role::Other;
    };
    match call.kind {
        Kind::Send { mode, .. } => match mode {
            Mode::Standard => Role::Standard,
            Mode::Synchronous => Role::Synchronous,
            Mode::Buffered => Role::Buffered,
        },
        Kind::Receive { .. } | Kind::MatchedProbe { .. } => Role::Taker,
        Kind::Probe { .. } => Role::Probe,
        Kind::MatchedReceive { .. } | Kind::Wait { .. } => Role::Other,
    }
}

/// The operation on which it rests when a call has returned.
fn operation_of(condition: Condition) -> Option<usize> {
    match condition {
        Condition::AtOnce => None,
        Condition::IfMatched(operation) => Some(operation),
        Condition::IfFetched(operation) => Some(operation),
        Condition::IfBufferedOrFetched(operation) => Some(operation),
    }
}

fn literal_of(variables: &Variables<'_>, fact: Fact) -> LitIndex {
    LitIndex::of(&variables.literal(&Meaning::OfFact(fact), true))
}

/// The literal that the call's rank goes on after it.
fn passed_of(program: &Program, variables: &Variables<'_>, call: usize, rank: usize) -> LitIndex {
    if is_last(program, call) {
        literal_of(variables, Fact::Unfinished(rank)).negated()
    } else {
        literal_of(variables, Fact::Issued(call.saturating_add(1)))
    }
}

fn buffered_of(variables: &Variables<'_>, part: Role, call: usize) -> Option<LitIndex> {
    if part == Role::Standard {
        return Some(literal_of(variables, Fact::Buffered(call)));
    }
    None
}

fn call_of(program: &Program, variables: &Variables<'_>, place: usize, call: usize) -> CallShape {
    let rank = rank_of(program, call);
    let part = part_of(program, call);
    CallShape {
        rank,
        place,
        part,
        condition: when_returned(program, call),
        waiter: None,
        receive: receive_on_handle(program, call),
        issued: literal_of(variables, Fact::Issued(call)),
        passed: passed_of(program, variables, call, rank),
        is_last: is_last(program, call),
        buffered: buffered_of(variables, part, call),
    }
}

fn calls_of(
    alloc: Global,
    program: &Program,
    variables: &Variables<'_>,
) -> Result<Vec<CallShape>, AllocError> {
    let mut calls = Vec::new(alloc);
    let mut first = 0;
    for call in 0..program.calls().len() {
        let shape = call_of(program, variables, call - first, call);
        if shape.is_last {
            first = call + 1;
        }
        calls.push(shape)?;
    }
    Ok(calls)
}

fn set_waiter(calls: &mut [CallShape], operation: usize, waiter: usize) {
    if let Some(call) = calls.get_mut(operation) {
        call.waiter = Some(waiter);
    }
}

/// Writes down which call waits for which.
fn set_waiters(calls: &mut [CallShape]) {
    for waiter in 0..calls.len() {
        if let Some(operation) = operation_of(calls[waiter].condition) {
            set_waiter(calls, operation, waiter);
        }
    }
}

/// The ranks, of which none has a call yet.
fn empty_ranks(
    alloc: Global,
    program: &Program,
    variables: &Variables<'_>,
) -> Result<Vec<RankShape>, AllocError> {
    let mut ranks = Vec::new(alloc);
    for rank in 0..program.ranks() as usize {
        ranks.push(RankShape {
            first: 0,
            length: 0,
            unfinished: literal_of(variables, Fact::Unfinished(rank)),
        })?;
    }
    Ok(ranks)
}

fn add_call(ranks: &mut [RankShape], rank: usize, call: usize) {
    if let Some(shape) = ranks.get_mut(rank) {
        if shape.length == 0 {
            shape.first = call;
        }
        shape.length = shape.length.saturating_add(1);
    }
}

fn ranks_of(
    alloc: Global,
    program: &Program,
    variables: &Variables<'_>,
) -> Result<Vec<RankShape>, AllocError> {
    let mut ranks = empty_ranks(alloc, program, variables)?;
    for call in 0..program.calls().len() {
        add_call(ranks.as_mut_slice(), rank_of(program, call), call);
    }
    Ok(ranks)
}

fn matches_of(
    alloc: Global,
    pairs: &Pairs,
    variables: &Variables<'_>,
) -> Result<Vec<PairShape>, AllocError> {
    let mut matches = Vec::new(alloc);
    for (send, taker) in pairs.as_slice() {
        matches.push(PairShape {
            send: *send,
            taker: *taker,
            matched: literal_of(variables, Fact::Matched(*send, *taker)),
        })?;
    }
    Ok(matches)
}

/// Adds the pair's place to those of its send.
fn add_pair(lists: &mut [Vec<usize>], send: usize, place: usize) -> Result<(), AllocError> {
    if let Some(list) = lists.get_mut(send) {
        list.push(place)?;
    }
    Ok(())
}

/// For each call the places of the pairs with takers in which it is the send.
fn of_sends(
    alloc: Global,
    calls: &[CallShape],
    matches: &[PairShape],
) -> Result<Vec<Vec<usize>>, AllocError> {
    let mut lists = Vec::with_capacity(alloc, calls.len())?;
    for _ in 0..calls.len() {
        lists.push(Vec::new(alloc))?;
    }
    for (place, pair) in matches.iter().enumerate() {
        if !is_probe(calls, pair.taker) {
            add_pair(lists.as_mut_slice(), pair.send, place)?;
        }
    }
    Ok(lists)
}

/// For each variable the events of which it says that the first is earlier.
fn orders_of(alloc: Global, encoded: &Encoded) -> Result<Vec<Option<(usize, usize)>>, AllocError> {
    let mut orders = Vec::new(alloc);
    for place in 0..encoded.formula().variables() {
        let order = match encoded.meaning(place + 1) {
            Some(Meaning::Before(first, second)) => Some((first, second)),
            _ => None,
        };
        orders.push(order)?;
    }
    Ok(orders)
}

/// The calls and the ranks.
#[derive(Drop)]
pub(crate) struct Ranked {
    pub(crate) calls: Vec<CallShape>,
    pub(crate) ranks: Vec<RankShape>,
}

/// The calls and the ranks of the program.
pub(crate) fn rank_calls(
    alloc: Global,
    program: &Program,
    variables: &Variables<'_>,
) -> Result<Ranked, AllocError> {
    let mut calls = calls_of(alloc, program, variables)?;
    set_waiters(calls.as_mut_slice());
    let ranks = ranks_of(alloc, program, variables)?;
    Ok(Ranked { calls, ranks })
}

/// What fits these calls together.
#[derive(Drop)]
pub(crate) struct Fitting {
    pub(crate) matches: Vec<PairShape>,
    pub(crate) of_sends: Vec<Vec<usize>>,
    pub(crate) orders: Vec<Option<(usize, usize)>>,
}

/// What fits these calls of the program together.
pub(crate) fn fit_calls(
    alloc: Global,
    encoded: &Encoded,
    variables: &Variables<'_>,
    calls: &[CallShape],
) -> Result<Fitting, AllocError> {
    let matches = matches_of(alloc, encoded.pairs(), variables)?;
    let of_sends = of_sends(alloc, calls, &matches)?;
    let orders = orders_of(alloc, encoded)?;
    Ok(Fitting {
        matches,
        of_sends,
        orders,
    })
}
