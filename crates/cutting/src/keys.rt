//! Phases by what their calls do: two with the same key have the same text.

use callorder::{Call, Kind, LongProgram, Message, Pattern};
use calltext::Mode;
use interning::number;
use std::alloc::{AllocError, Global};

/// How many numbers stand for a call.
const WIDTH: usize = 5;

fn starred(number: Option<u32>) -> u64 {
    match number {
        None => 0,
        Some(number) => number as u64 + 1,
    }
}

fn send_number(mode: Mode, blocking: bool) -> u64 {
    match (mode, blocking) {
        (Mode::Standard, true) => 0,
        (Mode::Standard, false) => 1,
        (Mode::Synchronous, true) => 2,
        (Mode::Synchronous, false) => 3,
        (Mode::Buffered, true) => 4,
        (Mode::Buffered, false) => 5,
    }
}

fn message_key(what: u64, message: &Message) -> [u64; 4] {
    [
        what,
        message.destination as u64,
        message.tag as u64,
        message.communicator as u64,
    ]
}

fn pattern_key(what: u64, pattern: &Pattern) -> [u64; 4] {
    [
        what,
        starred(pattern.source),
        starred(pattern.tag),
        pattern.communicator as u64,
    ]
}

/// What stands for a call but for its rank. Calls that it names are told by how far they are.
fn kind_key(call: &Call, place: usize) -> [u64; 4] {
    match call.kind {
        Kind::Send {
            mode,
            blocking,
            message,
        } => message_key(send_number(mode, blocking), &message),
        Kind::Receive { blocking, pattern } => {
            pattern_key(if blocking { 6 } else { 7 }, &pattern)
        }
        Kind::MatchedProbe { pattern, .. } => pattern_key(8, &pattern),
        Kind::Probe { pattern } => pattern_key(9, &pattern),
        Kind::MatchedReceive { blocking } => [if blocking { 10 } else { 11 }, 0, 0, 0],
        Kind::Wait { operation } => [12, place.saturating_sub(operation) as u64, 0, 0],
    }
}

/// What stands for a matched probe's receive: how far it is.
fn receive_distance(call: &Call, place: usize) -> u64 {
    match call.kind {
        Kind::MatchedProbe { receive, .. } => receive.saturating_sub(place) as u64,
        _ => 0,
    }
}

/// The numbers of all calls, in this order, `WIDTH` for each.
pub fn codes_of(
    alloc: Global,
    program: &LongProgram,
    members: &[usize],
) -> Result<Vec<u64>, AllocError> {
    let mut codes = Vec::new(alloc);
    for place in members {
        if let Some(call) = program.call(*place) {
            let rank = call.rank as u64 * 2_147_483_648;
            codes.push(rank.saturating_add(receive_distance(&call, *place)))?;
            codes.extend_from_slice(&kind_key(&call, *place))?;
        }
    }
    Ok(codes)
}

/// The part of a list from one place to another, or nothing where there is none.
pub fn part<T>(list: &[T], from: usize, to: usize) -> &[T] {
    if from <= to && to <= list.len() {
        &list[from..to]
    } else {
        &[]
    }
}

/// A number for each phase, from 0 in the order of first use: the same for the same calls. The
/// phases begin in the list of calls at these places.
pub fn numbers_of(
    alloc: Global,
    codes: &[u64],
    starts: &[usize],
) -> Result<Vec<Option<usize>>, AllocError> {
    let mut keys = Vec::new(alloc);
    for phase in 1..starts.len() {
        let from = starts[phase - 1].saturating_mul(WIDTH);
        let to = starts[phase].saturating_mul(WIDTH);
        keys.push(Some(part(codes, from, to)))?;
    }
    number(alloc, keys)
}
