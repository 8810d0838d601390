//! A phase as the text of a program.

use crate::lists::{at, count_up_to};
use callorder::{Call, Kind, LongProgram, Message, Pattern, Policy};
use calltext::Mode;
use plaintext::put_number;
use std::alloc::{AllocError, Global};

/// Adds a number behind a blank. Numbers of programs have 31 bits.
fn put_small(out: &mut Vec<u8>, number: u32) -> Result<(), AllocError> {
    out.push(b' ')?;
    put_number(out, number)
}

fn put_or_star(out: &mut Vec<u8>, number: Option<u32>) -> Result<(), AllocError> {
    match number {
        None => out.extend_from_slice(b" *"),
        Some(number) => put_small(out, number),
    }
}

fn put_communicator(out: &mut Vec<u8>, communicator: u32) -> Result<(), AllocError> {
    if communicator == 0 {
        return Ok(());
    }
    out.extend_from_slice(b" comm")?;
    put_small(out, communicator)
}

/// Adds the name of the request or the handle that a call makes.
fn put_name(out: &mut Vec<u8>, members: &[usize], place: usize) -> Result<(), AllocError> {
    let number = count_up_to(members, place).min(2_147_483_647) as u32;
    out.extend_from_slice(b" r")?;
    put_number(out, number)
}

fn put_message(out: &mut Vec<u8>, message: &Message) -> Result<(), AllocError> {
    put_small(out, message.destination)?;
    put_small(out, message.tag)?;
    put_communicator(out, message.communicator)
}

fn put_pattern(out: &mut Vec<u8>, pattern: &Pattern) -> Result<(), AllocError> {
    put_or_star(out, pattern.source)?;
    put_or_star(out, pattern.tag)?;
    put_communicator(out, pattern.communicator)
}

fn send_verb(mode: Mode, blocking: bool) -> &'static [u8] {
    match (mode, blocking) {
        (Mode::Standard, true) => b"send",
        (Mode::Standard, false) => b"isend",
        (Mode::Synchronous, true) => b"ssend",
        (Mode::Synchronous, false) => b"issend",
        (Mode::Buffered, true) => b"bsend",
        (Mode::Buffered, false) => b"ibsend",
    }
}

/// Adds the name where the call isn't blocking.
fn put_request(
    out: &mut Vec<u8>,
    members: &[usize],
    place: usize,
    blocking: bool,
) -> Result<(), AllocError> {
    if blocking {
        return Ok(());
    }
    put_name(out, members, place)
}

fn put_call(
    out: &mut Vec<u8>,
    members: &[usize],
    probes: &[usize],
    place: usize,
    call: &Call,
) -> Result<(), AllocError> {
    match call.kind {
        Kind::Send {
            mode,
            blocking,
            message,
        } => {
            out.extend_from_slice(send_verb(mode, blocking))?;
            put_request(out, members, place, blocking)?;
            put_message(out, &message)
        }
        Kind::Receive { blocking, pattern } => {
            out.extend_from_slice(if blocking { b"recv" } else { b"irecv" })?;
            put_request(out, members, place, blocking)?;
            put_pattern(out, &pattern)
        }
        Kind::MatchedProbe { pattern, .. } => {
            out.extend_from_slice(b"mprobe")?;
            put_name(out, members, place)?;
            put_pattern(out, &pattern)
        }
        Kind::Probe { pattern } => {
            out.extend_from_slice(b"probe")?;
            put_pattern(out, &pattern)
        }
        Kind::MatchedReceive { blocking } => {
            out.extend_from_slice(if blocking { b"mrecv" } else { b"imrecv" })?;
            put_request(out, members, place, blocking)?;
            put_name(out, members, at(probes, place))
        }
        Kind::Wait { operation } => {
            out.extend_from_slice(b"wait")?;
            put_name(out, members, operation)
        }
    }
}

fn policy_line(policy: Policy) -> &'static [u8] {
    match policy {
        Policy::Any => b"policy any\n",
        Policy::Never => b"policy none\n",
        Policy::Always => b"policy all\n",
    }
}

/// Adds the lines of ranks without calls, and that of the rank itself, as far as they are missing.
fn put_ranks(out: &mut Vec<u8>, from: u32, to: u32) -> Result<(), AllocError> {
    for rank in from..to {
        out.extend_from_slice(b"rank")?;
        put_small(out, rank)?;
        out.push(b'\n')?;
    }
    Ok(())
}

/// The text of the program of these calls, which stand in the order of the program's list. For each
/// receive on a handle `probes` has the matched probe.
pub fn text_of(
    alloc: Global,
    program: &LongProgram,
    members: &[usize],
    probes: &[usize],
) -> Result<Vec<u8>, AllocError> {
    let mut out = Vec::new(alloc);
    out.extend_from_slice(b"ranks")?;
    put_small(&mut out, program.ranks())?;
    out.push(b'\n')?;
    out.extend_from_slice(policy_line(program.policy()))?;
    let mut ranks = 0;
    for place in members {
        if let Some(call) = program.call(*place) {
            let end = call.rank.saturating_add(1);
            put_ranks(&mut out, ranks, end)?;
            ranks = end;
            put_call(&mut out, members, probes, *place, &call)?;
            out.push(b'\n')?;
        }
    }
    put_ranks(&mut out, ranks, program.ranks())?;
    Ok(out)
}
