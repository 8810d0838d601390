//! For each rank the ranks that have sends to it which aren't issued.

ghost use Rattle.std.specs.Prelude.{◌≡◌, ◌+◌, ◌-◌, ℕ, false, IfOk, IsTrue, OnOk, Some, length, slice_get};
ghost use Rattle.waits.specs.parts.Senders.{AreEmpty, AreSenders, AreSendersBelow, IsAdded, IsAddedAt, IsListed, senders_at};
ghost use Rattle.callorder.specs.Programs.{call_at};

use callorder::LongProgram;
use semantics::State;
use std::alloc::{AllocError, Global};

/// Whether the list ends with the rank.
fn ends_with(ranks: &[u32], rank: u32) -> bool
    ensures listed { IsTrue result → IsListed ranks.now rank }
    ensures other { result ≡ false → (x : ℕ) → slice_get ranks.now (length ranks.now - 1) ≡ Some x → x ≡ rank → ⊥ }
{
    if ranks.is_empty() {
        return false;
    }
    ranks[ranks.len() - 1] == rank
}

/// Adds the rank behind the others, if it isn't the last one. The only error is want of memory.
fn add_last(ranks: &mut Vec<u32>, rank: u32) -> Result<(), AllocError>
    ensures { OnOk result (IsAdded ranks.old.items rank ranks.new.items) }
{
    if ends_with(ranks.as_slice(), rank) {
        return Ok(());
    }
    ranks.push(rank)?;
    Ok(())
}

/// Adds the rank to the list at the place, if there is one. The only error is want of memory.
fn add(senders: &mut Vec<Vec<u32>>, to: usize, rank: u32) -> Result<(), AllocError>
    ensures { OnOk result (IsAddedAt senders.old.items to rank senders.new.items) }
{
    if let Some(ranks) = senders.get_mut(to) {
        add_last(ranks, rank)?;
    }
    Ok(())
}

/// Adds the call's rank to the list of the rank that it sends to, where it is a send that isn't
/// issued. The only error is want of memory.
fn add_call(
    program: &LongProgram,
    state: &State,
    senders: &mut Vec<Vec<u32>>,
    place: usize,
) -> Result<(), AllocError>
    ensures { OnOk result (AreSendersBelow program.now state.now place senders.old.items →
        AreSendersBelow program.now state.now (place + 1) senders.new.items) }
{
    let _calls = program.calls();
    let Some(call) = program.call(place) else {
        return Ok(());
    };
    let Some(message) = call.kind.message() else {
        return Ok(());
    };
    if state.is_issued(program, place) {
        return Ok(());
    }
    add(senders, message.destination as usize, call.rank)?;
    Ok(())
}

/// An empty list for each rank. The only error is want of memory.
fn empty_lists(alloc: Global, ranks: u32) -> Result<Vec<Vec<u32>>, AllocError>
    ensures { IfOk result (λ lists. AreEmpty ranks lists.items) }
{
    let mut lists = Vec::new(alloc);
    for _rank in 0..ranks {
        lists.push(Vec::new(alloc))?;
    }
    Ok(lists)
}

/// For each rank, from 0, the ranks that have sends to it which aren't issued, in rising order. The
/// only error is want of memory.
pub fn senders_of(
    alloc: Global,
    program: &LongProgram,
    state: &State,
) -> Result<Vec<Vec<u32>>, AllocError>
    ensures { IfOk result (λ lists. AreSenders program.now state.now lists.items) }
{
    let mut senders = empty_lists(alloc, program.ranks())?;
    for place in 0..program.calls().len() {
        add_call(program, state, &mut senders, place)?;
    }
    Ok(senders)
}

/// The ranks that have sends to the rank of the operation which aren't issued, as the lists tell.
pub fn senders_to<'a>(program: &LongProgram, senders: &'a [Vec<u32>], operation: usize) -> &'a [u32]
    ensures { result.now ≡ senders_at senders.now (call_at program.now operation) }
{
    let Some(call) = program.call(operation) else {
        return &[];
    };
    match senders.get(call.rank as usize) {
        None => &[],
        Some(ranks) => ranks.as_slice(),
    }
}
