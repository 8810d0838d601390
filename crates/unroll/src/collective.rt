//! Collective calls (MPI 4.1, chapter 6), as the sends and receives that they stand for.
//!
//! Each form has the least waiting that MPI guarantees where all standard sends are buffered, and
//! holds each rank until all have come where none is. `specs/Collectives.antt` defines the forms.

ghost use Rattle.std.specs.Prelude.{◌≡◌, ◌≤◌, ◌<◌, ◌++◌, IfOk, OnOk};
ghost use Rattle.unroll.specs.Groups.{others, before, member_after};
ghost use Rattle.unroll.specs.Collectives.{kind_number, way_of, send, receive, sends, receives, meet, spread, collect, chain, collective_calls};

use crate::call::{Group, UnrolledCall};
use crate::members::{after, before, others};
use spmd_tree::{CollectiveKind, SendMode};
use std::alloc::{AllocError, Global};

/// How the messages of a collective call are known: those of its first round by one tag, those of
/// its second round by another one, in a communicator, 128 or more, of those who meet.
#[derive(Clone, Copy)]
pub(crate) struct Way {
    pub(crate) first: u32,
    pub(crate) second: u32,
    pub(crate) communicator: u32,
}

/// The number of a kind of call, 0 to 8, which is part of its tags.
fn kind_number(kind: CollectiveKind) -> u32
    ensures number { result ≡ kind_number kind }
    ensures small { result ≤ 8 }
{
    match kind {
        CollectiveKind::Barrier => 0,
        CollectiveKind::Broadcast => 1,
        CollectiveKind::Reduce => 2,
        CollectiveKind::AllReduce => 3,
        CollectiveKind::Gather => 4,
        CollectiveKind::Scatter => 5,
        CollectiveKind::AllGather => 6,
        CollectiveKind::AllToAll => 7,
        CollectiveKind::Scan => 8,
    }
}

/// How the messages are known of a collective call of those who meet with this number, before which
/// the rank made so many of them: by tags and a communicator below 2^31.
pub(crate) fn way_of(kind: CollectiveKind, earlier: u32, meeting: u32) -> Way
    requires few { earlier < 67108864 }
    requires known { meeting < 2147483520 }
    ensures { result ≡ way_of kind earlier meeting }
{
    let first = 32 * earlier + 2 * kind_number(kind);
    Way {
        first,
        second: first + 1,
        communicator: 128 + meeting,
    }
}

/// A blocking send.
fn send(mode: SendMode, destination: u32, tag: u32, communicator: u32) -> UnrolledCall
    ensures { result ≡ send mode tag communicator destination }
{
    UnrolledCall::Send {
        mode,
        request: None,
        destination,
        tag,
        communicator,
    }
}

/// A blocking receive.
fn receive(source: u32, tag: u32, communicator: u32) -> UnrolledCall
    ensures { result ≡ receive tag communicator source }
{
    UnrolledCall::Receive {
        request: None,
        source: Some(source),
        tag: Some(tag),
        communicator,
    }
}

/// Adds a send to each of these ranks.
fn push_sends(
    calls: &mut Vec<UnrolledCall>,
    mode: SendMode,
    tag: u32,
    communicator: u32,
    ranks: &[u32],
) -> Result<(), AllocError>
    ensures { OnOk result (calls.new.items ≡ calls.old.items ++ sends mode tag communicator ranks.now) }
{
    for rank in ranks {
        calls.push(send(mode, *rank, tag, communicator))?;
    }
    Ok(())
}

/// Adds a receive from each of these ranks.
fn push_receives(
    calls: &mut Vec<UnrolledCall>,
    tag: u32,
    communicator: u32,
    ranks: &[u32],
) -> Result<(), AllocError>
    ensures { OnOk result (calls.new.items ≡ calls.old.items ++ receives tag communicator ranks.now) }
{
    for rank in ranks {
        calls.push(receive(*rank, tag, communicator))?;
    }
    Ok(())
}

/// Nobody goes on before all have come.
fn meet(
    alloc: Global,
    is_root: bool,
    root: u32,
    others: &[u32],
    way: Way,
) -> Result<Vec<UnrolledCall>, AllocError>
    ensures { IfOk result (λ calls. calls.items ≡ meet is_root root others.now way) }
{
    let mut calls = Vec::new(alloc);
    if is_root {
        push_receives(&mut calls, way.first, way.communicator, others)?;
        push_sends(
            &mut calls,
            SendMode::Buffered,
            way.second,
            way.communicator,
            others,
        )?;
        return Ok(calls);
    }
    calls.push(send(SendMode::Buffered, root, way.first, way.communicator))?;
    calls.push(receive(root, way.second, way.communicator))?;
    Ok(calls)
}

/// Nobody goes on before the root has come.
fn spread(
    alloc: Global,
    is_root: bool,
    root: u32,
    others: &[u32],
    way: Way,
) -> Result<Vec<UnrolledCall>, AllocError>
    ensures { IfOk result (λ calls. calls.items ≡ spread is_root root others.now way) }
{
    let mut calls = Vec::new(alloc);
    if is_root {
        push_sends(
            &mut calls,
            SendMode::Standard,
            way.first,
            way.communicator,
            others,
        )?;
        push_sends(
            &mut calls,
            SendMode::Buffered,
            way.second,
            way.communicator,
            others,
        )?;
        return Ok(calls);
    }
    calls.push(receive(root, way.first, way.communicator))?;
    calls.push(receive(root, way.second, way.communicator))?;
    Ok(calls)
}

/// The root doesn't go on before all have come.
pub(crate) fn collect(
    alloc: Global,
    is_root: bool,
    root: u32,
    others: &[u32],
    way: Way,
) -> Result<Vec<UnrolledCall>, AllocError>
    ensures { IfOk result (λ calls. calls.items ≡ collect is_root root others.now way) }
{
    let mut calls = Vec::new(alloc);
    if is_root {
        push_receives(&mut calls, way.first, way.communicator, others)?;
        push_receives(&mut calls, way.second, way.communicator, others)?;
        return Ok(calls);
    }
    calls.push(send(SendMode::Buffered, root, way.first, way.communicator))?;
    calls.push(send(SendMode::Standard, root, way.second, way.communicator))?;
    Ok(calls)
}

/// Nobody goes on before those below it have come.
fn chain(
    alloc: Global,
    before: Option<u32>,
    after: Option<u32>,
    way: Way,
) -> Result<Vec<UnrolledCall>, AllocError>
    ensures { IfOk result (λ calls. calls.items ≡ chain before after way) }
{
    let mut calls = Vec::new(alloc);
    match before {
        None => match after {
            None => Ok(calls),
            Some(next) => {
                calls.push(send(SendMode::Buffered, next, way.first, way.communicator))?;
                calls.push(send(SendMode::Standard, next, way.second, way.communicator))?;
                Ok(calls)
            }
        },
        Some(last) => match after {
            None => {
                calls.push(receive(last, way.first, way.communicator))?;
                calls.push(receive(last, way.second, way.communicator))?;
                Ok(calls)
            }
            Some(next) => {
                calls.push(receive(last, way.first, way.communicator))?;
                calls.push(send(SendMode::Buffered, next, way.first, way.communicator))?;
                calls.push(send(SendMode::Standard, next, way.second, way.communicator))?;
                calls.push(receive(last, way.second, way.communicator))?;
                Ok(calls)
            }
        },
    }
}

/// The calls that a collective call stands for, on this rank of so many.
pub(crate) fn calls_of(
    alloc: Global,
    kind: CollectiveKind,
    root: u32,
    group: Group,
    size: u32,
    rank: u32,
    way: Way,
) -> Result<Vec<UnrolledCall>, AllocError>
    ensures { IfOk result (λ calls. calls.items ≡ collective_calls kind root group size rank way) }
{
    let others = others(alloc, group, size, rank)?;
    match kind {
        CollectiveKind::Barrier => meet(alloc, rank == root, root, &others, way),
        CollectiveKind::Broadcast => spread(alloc, rank == root, root, &others, way),
        CollectiveKind::Reduce => collect(alloc, rank == root, root, &others, way),
        CollectiveKind::AllReduce => meet(alloc, rank == root, root, &others, way),
        CollectiveKind::Gather => collect(alloc, rank == root, root, &others, way),
        CollectiveKind::Scatter => spread(alloc, rank == root, root, &others, way),
        CollectiveKind::AllGather => meet(alloc, rank == root, root, &others, way),
        CollectiveKind::AllToAll => meet(alloc, rank == root, root, &others, way),
        CollectiveKind::Scan => chain(alloc, before(group, rank), after(group, rank), way),
    }
}
