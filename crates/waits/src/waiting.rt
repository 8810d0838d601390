//! For which ranks a rank waits.

ghost use Rattle.std.specs.Prelude.{◌≡◌, ◌↔◌, ℕ, ◌<◌, IsTrue, IfNone, IfOk, IfSome, Contains};
ghost use Rattle.std.specs.List.{AllPairs};
ghost use Rattle.callorder.specs.Programs.{call_at, is_of_rank};
ghost use Rattle.waits.specs.Cycles.{HasEdge, awaited_by};
ghost use Rattle.waits.specs.Waiting.{IsMissing, IsNeededBy, LooksForSends, WaitsFor, IsOnlyPeer};
ghost use Rattle.waits.specs.parts.Senders.{AreSenders};

use crate::fates::fits_with;
use crate::needs::{Need, need_of, operation_of};
use crate::senders::{senders_of, senders_to};
use crate::standings::{Standing, standing_of};
use callorder::LongProgram;
use semantics::State;
use std::alloc::{AllocError, Global};

/// Whether a rank has a call that fits with the operation and is not issued. Only its calls that
/// aren't issued are looked at, up to the first that fits: they stand together, from its next call
/// on.
fn is_missing(program: &LongProgram, state: &State, operation: usize, rank: u32) -> bool
    ensures { IsTrue result ↔ IsMissing program.now state.now operation rank }
{
    let next = state.next_of(rank).unwrap_or(0);
    let calls = program.calls();
    for place in next..calls.len() {
        if calls[place].rank > rank {
            return false;
        }
        if program.is_of_rank(place, rank) && fits_with(program, operation, place) {
            return true;
        }
    }
    false
}

/// The rank that the call at a place names as its peer: a send's destination, and the source of
/// what looks for sends of one rank.
fn peer_of(program: &LongProgram, call: usize) -> Option<u32>
    ensures some { IfSome result (IsOnlyPeer program.now call) }
    ensures none { IfNone result (LooksForSends program.now call) }
{
    let Some(known) = program.call(call) else {
        return None;
    };
    if let Some(message) = known.kind.message() {
        return Some(message.destination);
    }
    match known.kind.pattern() {
        None => None,
        Some(pattern) => pattern.source,
    }
}

/// A list of this rank alone, if it is wanted.
fn alone(alloc: Global, rank: u32, wanted: bool) -> Result<Vec<u32>, AllocError>
    ensures ranks { IfOk result (λ ranks. (other : ℕ) → Contains ranks.items other ↔ (IsTrue wanted × (other ≡ rank))) }
    ensures rising { IfOk result (λ ranks. AllPairs (λ one other. one < other) ranks.items) }
{
    if !wanted {
        return Ok(Vec::new(alloc));
    }
    Vec::from_slice(alloc, &[rank])
}

/// The ranks that have a call that fits with the operation and is not issued, where that looks for
/// sends of any rank: of those that have sends to its rank each is looked at.
fn all_missing(
    alloc: Global,
    program: &LongProgram,
    state: &State,
    senders: &[Vec<u32>],
    operation: usize,
) -> Result<Vec<u32>, AllocError>
    requires senders { AreSenders program.now state.now senders.now }
    requires looks { LooksForSends program.now operation }
    ensures ranks { IfOk result (λ ranks. (rank : ℕ) → Contains ranks.items rank ↔ IsMissing program.now state.now operation rank) }
    ensures rising { IfOk result (λ ranks. AllPairs (λ one other. one < other) ranks.items) }
{
    let _calls = program.calls();
    let among = senders_to(program, senders, operation);
    let mut ranks = Vec::new(alloc);
    for place in 0..among.len() {
        let rank = among[place];
        if is_missing(program, state, operation, rank) {
            ranks.push(rank)?;
        }
    }
    Ok(ranks)
}

/// The ranks that have a call that fits with the operation and is not issued. Where the operation
/// names its peer, only that rank is looked at.
fn missing(
    alloc: Global,
    program: &LongProgram,
    state: &State,
    senders: &[Vec<u32>],
    operation: usize,
) -> Result<Vec<u32>, AllocError>
    requires { AreSenders program.now state.now senders.now }
    ensures ranks { IfOk result (λ ranks. (rank : ℕ) → Contains ranks.items rank ↔ IsMissing program.now state.now operation rank) }
    ensures rising { IfOk result (λ ranks. AllPairs (λ one other. one < other) ranks.items) }
{
    let Some(peer) = peer_of(program, operation) else {
        return all_missing(alloc, program, state, senders, operation);
    };
    alone(alloc, peer, is_missing(program, state, operation, peer))
}

/// The rank of the call at a place, if there is such a call.
fn rank_of(alloc: Global, program: &LongProgram, call: usize) -> Result<Vec<u32>, AllocError>
    ensures ranks { IfOk result (λ ranks. (rank : ℕ) → Contains ranks.items rank ↔ IsTrue (is_of_rank (call_at program.now call) rank)) }
    ensures rising { IfOk result (λ ranks. AllPairs (λ one other. one < other) ranks.items) }
{
    match program.call(call) {
        None => Ok(Vec::new(alloc)),
        Some(known) => alone(alloc, known.rank, true),
    }
}

/// The ranks from which what the operation needs can come.
fn needed_by(
    alloc: Global,
    program: &LongProgram,
    state: &State,
    senders: &[Vec<u32>],
    operation: usize,
) -> Result<Vec<u32>, AllocError>
    requires { AreSenders program.now state.now senders.now }
    ensures ranks { IfOk result (λ ranks. (rank : ℕ) → Contains ranks.items rank ↔ IsNeededBy program.now state.now operation rank) }
    ensures rising { IfOk result (λ ranks. AllPairs (λ one other. one < other) ranks.items) }
{
    match need_of(program, state, operation) {
        None => Ok(Vec::new(alloc)),
        Some(Need::Match) => missing(alloc, program, state, senders, operation),
        Some(Need::Fetch { receive }) => rank_of(alloc, program, receive),
    }
}

/// The ranks, in rising order, that a rank, from 0, waits for: it waits in a call whose operation
/// needs a match or a message to see, and they have a call that it looks for and that is not
/// issued; or it needs a receive of theirs on the handle of a matched probe. Where the operation
/// names its peer, only that rank's calls are looked at; where it takes any source, of each rank
/// that has sends to its own which aren't issued those that aren't, up to the first that fits. The
/// only error is want of memory.
fn awaited(
    alloc: Global,
    program: &LongProgram,
    state: &State,
    senders: &[Vec<u32>],
    rank: u32,
) -> Result<Vec<u32>, AllocError>
    requires { AreSenders program.now state.now senders.now }
    ensures ranks { IfOk result (λ ranks. (other : ℕ) → Contains ranks.items other ↔ WaitsFor program.now state.now rank other) }
    ensures rising { IfOk result (λ ranks. AllPairs (λ one other. one < other) ranks.items) }
{
    match standing_of(program, state, rank) {
        Standing::Waits { call } => {
            needed_by(alloc, program, state, senders, operation_of(program, call))
        }
        _ => Ok(Vec::new(alloc)),
    }
}

/// For each rank, from 0, the ranks that it waits for, in rising order. The only error is want of
/// memory.
pub fn edges(
    alloc: Global,
    program: &LongProgram,
    state: &State,
) -> Result<Vec<Vec<u32>>, AllocError>
    ensures edges { IfOk result (λ edges. (from to : ℕ) → HasEdge edges.items from to ↔ WaitsFor program.now state.now from to) }
    ensures rising { IfOk result (λ edges. (rank : ℕ) → AllPairs (λ one other. one < other) (awaited_by edges.items rank)) }
{
    let senders = senders_of(alloc, program, state)?;
    let mut edges = Vec::new(alloc);
    for rank in 0..program.ranks() {
        let ranks = awaited(alloc, program, state, senders.as_slice(), rank)?;
        edges.push(ranks)?;
    }
    Ok(edges)
}
