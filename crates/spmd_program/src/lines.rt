//! Calls as the lines of a program's text.
//!
//! Numbers and names of a text that was read are within the long limits; what is beyond them would
//! be told as want of memory.

ghost use Rattle.std.specs.Prelude.{◌≡◌, ◌++◌, ◌∷◌, [], ◌≤◌, IfSome, IsTrue, List, OnOk, ℕ};
ghost use Rattle.std.specs.Global.{Vec};
ghost use Rattle.std.specs.List.{AllByRecursion};
ghost use Rattle.calltext.specs.Grammar.{HasNames, IsCommunicator, IsInRange, UpTo, communicator_words, or_star, long};
ghost use Rattle.calltext.specs.Names.{AreNames, is_name};
ghost use Rattle.calltext.specs.parts.Verbs.{message_words, name_words, number_words, pattern_words, request_words};
ghost use Rattle.calltext.specs.Verbs.{verb_of};
ghost use Rattle.plaintext.specs.Plain.{numeral, spaced};
ghost use Rattle.spmd_program.specs.Lines.{further, line_of_call, lines_at, lines_of_calls, mode_of, spelled_request, spelled, shown_communicator};
ghost use Rattle.spmd_program.specs.Programs.{AreLinesWritten};
ghost use Rattle.unroll.specs.declared.call.Placed.{Placed};

use crate::names::put_label;
use calltext::{Mode, Verb};
use plaintext::put_number;
use spmd_tree::SendMode;
use std::alloc::{AllocError, Global};
use unroll::{Label, Placed, UnrolledCall};

/// Adds a number of 31 bits behind a blank.
fn put_small(out: &mut Vec<u8>, number: u32) -> Result<(), AllocError>
    ensures text { OnOk result (out.new.items ≡ out.old.items ++ spaced (numeral number ∷ [])) }
    ensures small { OnOk result (number ≤ 2147483647) }
{
    if number > 2_147_483_647 {
        return Err(AllocError);
    }
    out.push(b' ')?;
    put_number(out, number)
}

fn put_or_star(out: &mut Vec<u8>, number: Option<u32>) -> Result<(), AllocError>
    ensures text { OnOk result (out.new.items ≡ out.old.items ++ spaced (or_star number ∷ [])) }
    ensures small { OnOk result (UpTo 2147483647 number) }
{
    match number {
        None => out.extend_from_slice(b" *"),
        Some(number) => put_small(out, number),
    }
}

fn put_communicator(out: &mut Vec<u8>, communicator: u32) -> Result<(), AllocError>
    ensures text { OnOk result (out.new.items ≡ out.old.items ++ spaced (communicator_words (shown_communicator communicator))) }
    ensures small { OnOk result (IsCommunicator 2147483647 (shown_communicator communicator)) }
{
    if communicator == 0 {
        return Ok(());
    }
    out.extend_from_slice(b" comm")?;
    put_small(out, communicator)
}

fn put_message(
    out: &mut Vec<u8>,
    destination: u32,
    tag: u32,
    communicator: u32,
) -> Result<(), AllocError>
    ensures text { OnOk result (out.new.items ≡ out.old.items ++ spaced (message_words destination tag (shown_communicator communicator))) }
    ensures destination { OnOk result (destination ≤ 2147483647) }
    ensures tag { OnOk result (tag ≤ 2147483647) }
    ensures communicator { OnOk result (IsCommunicator 2147483647 (shown_communicator communicator)) }
{
    put_small(out, destination)?;
    put_small(out, tag)?;
    put_communicator(out, communicator)
}

fn put_pattern(
    out: &mut Vec<u8>,
    source: Option<u32>,
    tag: Option<u32>,
    communicator: u32,
) -> Result<(), AllocError>
    ensures text { OnOk result (out.new.items ≡ out.old.items ++ spaced (pattern_words source tag (shown_communicator communicator))) }
    ensures source { OnOk result (UpTo 2147483647 source) }
    ensures tag { OnOk result (UpTo 2147483647 tag) }
    ensures communicator { OnOk result (IsCommunicator 2147483647 (shown_communicator communicator)) }
{
    put_or_star(out, source)?;
    put_or_star(out, tag)?;
    put_communicator(out, communicator)
}

fn put_request(
    alloc: Global,
    out: &mut Vec<u8>,
    names: &[Vec<u8>],
    request: Option<Label>,
) -> Result<(), AllocError>
    ensures text { OnOk result (out.new.items ≡ out.old.items ++ spaced (request_words (spelled_request names.now request))) }
    ensures name { OnOk result (IfSome (spelled_request names.now request) (λ name. IsTrue (is_name name))) }
{
    match request {
        None => Ok(()),
        Some(label) => put_label(alloc, out, names, label),
    }
}

fn mode_of(manner: SendMode) -> Mode
    ensures { result ≡ mode_of manner }
{
    match manner {
        SendMode::Standard => Mode::Standard,
        SendMode::Synchronous => Mode::Synchronous,
        SendMode::Buffered => Mode::Buffered,
    }
}

/// The first word of the line that begins with a call.
fn verb_of(call: UnrolledCall) -> Verb
    ensures { (names : List (Vec ℕ)) (rest : List Placed) → result ≡ verb_of (line_of_call names call rest) }
{
    match call {
        UnrolledCall::Send { mode, request, .. } => Verb::Send {
            mode: mode_of(mode),
            started: request.is_some(),
        },
        UnrolledCall::Receive { request, .. } => Verb::Receive {
            started: request.is_some(),
        },
        UnrolledCall::MatchedProbe { .. } => Verb::MatchedProbe,
        UnrolledCall::Probe { .. } => Verb::Probe,
        UnrolledCall::MatchedReceive { request, .. } => Verb::MatchedReceive {
            started: request.is_some(),
        },
        UnrolledCall::Wait { .. } => Verb::Wait,
        UnrolledCall::WaitAll { .. } | UnrolledCall::WaitAlso { .. } => Verb::WaitAll,
        UnrolledCall::SendReceive { .. } => Verb::SendReceive,
    }
}

/// Adds the further requests of a `waitall` line, which stand first among these calls.
fn put_further(
    alloc: Global,
    out: &mut Vec<u8>,
    names: &[Vec<u8>],
    rest: &[Placed],
) -> Result<(), AllocError>
    ensures text { OnOk result (out.new.items ≡ out.old.items ++ spaced (further names.now rest.now)) }
    ensures names { OnOk result (AllByRecursion (λ name. IsTrue (is_name name)) (further names.now rest.now)) }
{
    let [placed, others @ ..] = rest else {
        return Ok(());
    };
    match placed.call {
        UnrolledCall::WaitAlso { request } => {
            put_label(alloc, out, names, request)?;
            put_further(alloc, out, names, others)
        }
        _ => Ok(()),
    }
}

/// Adds the requests of a `waitall` line, of which these calls are all but the first.
fn put_requests(
    alloc: Global,
    out: &mut Vec<u8>,
    names: &[Vec<u8>],
    request: Label,
    rest: &[Placed],
) -> Result<(), AllocError>
    ensures text { OnOk result (out.new.items ≡ out.old.items ++ spaced (spelled names.now request ∷ further names.now rest.now)) }
    ensures names { OnOk result (AreNames (spelled names.now request ∷ further names.now rest.now)) }
{
    put_label(alloc, out, names, request)?;
    put_further(alloc, out, names, rest)
}

/// Adds the names of the line that begins with a call.
fn put_names(
    alloc: Global,
    out: &mut Vec<u8>,
    names: &[Vec<u8>],
    call: UnrolledCall,
    rest: &[Placed],
) -> Result<(), AllocError>
    ensures text { OnOk result (out.new.items ≡ out.old.items ++ spaced (name_words (line_of_call names.now call rest.now))) }
    ensures names { OnOk result (HasNames (line_of_call names.now call rest.now)) }
{
    match call {
        UnrolledCall::Send { request, .. } | UnrolledCall::Receive { request, .. } => {
            put_request(alloc, out, names, request)
        }
        UnrolledCall::MatchedProbe { handle, .. } => put_label(alloc, out, names, handle),
        UnrolledCall::MatchedReceive { request, handle } => {
            put_request(alloc, out, names, request)?;
            put_label(alloc, out, names, handle)
        }
        UnrolledCall::Wait { request } => put_label(alloc, out, names, request),
        UnrolledCall::WaitAll { request } | UnrolledCall::WaitAlso { request } => {
            put_requests(alloc, out, names, request, rest)
        }
        UnrolledCall::Probe { .. } | UnrolledCall::SendReceive { .. } => Ok(()),
    }
}

/// Adds the numbers of the line that begins with a call.
fn put_numbers(out: &mut Vec<u8>, call: UnrolledCall) -> Result<(), AllocError>
    ensures text { OnOk result ((names : List (Vec ℕ)) (rest : List Placed) →
        out.new.items ≡ out.old.items ++ spaced (number_words (line_of_call names call rest))) }
    ensures range { OnOk result ((names : List (Vec ℕ)) (rest : List Placed) → IsInRange long (line_of_call names call rest)) }
{
    match call {
        UnrolledCall::Send {
            destination,
            tag,
            communicator,
            ..
        } => put_message(out, destination, tag, communicator),
        UnrolledCall::Receive {
            source,
            tag,
            communicator,
            ..
        }
        | UnrolledCall::MatchedProbe {
            source,
            tag,
            communicator,
            ..
        }
        | UnrolledCall::Probe {
            source,
            tag,
            communicator,
        } => put_pattern(out, source, tag, communicator),
        UnrolledCall::MatchedReceive { .. }
        | UnrolledCall::Wait { .. }
        | UnrolledCall::WaitAll { .. }
        | UnrolledCall::WaitAlso { .. } => Ok(()),
        UnrolledCall::SendReceive {
            destination,
            send_tag,
            source,
            receive_tag,
            communicator,
        } => {
            put_small(out, destination)?;
            put_small(out, send_tag)?;
            put_pattern(out, source, receive_tag, communicator)
        }
    }
}

/// Adds the line that begins with a call.
fn put_line(
    alloc: Global,
    out: &mut Vec<u8>,
    names: &[Vec<u8>],
    call: UnrolledCall,
    rest: &[Placed],
) -> Result<(), AllocError>
    ensures { OnOk result (AreLinesWritten (line_of_call names.now call rest.now ∷ []) out.old.items out.new.items) }
{
    let verb = verb_of(call);
    out.extend_from_slice(verb.text().as_bytes())?;
    put_names(alloc, out, names, call, rest)?;
    put_numbers(out, call)?;
    out.push(b'\n')?;
    Ok(())
}

/// Adds the line that begins with a call, where one does.
fn put_call(
    alloc: Global,
    out: &mut Vec<u8>,
    names: &[Vec<u8>],
    placed: Placed,
    rest: &[Placed],
) -> Result<(), AllocError>
    ensures { OnOk result (AreLinesWritten (lines_at names.now placed rest.now) out.old.items out.new.items) }
{
    match placed.call {
        UnrolledCall::WaitAlso { .. } => Ok(()),
        call => put_line(alloc, out, names, call, rest),
    }
}

/// Adds the lines of these calls.
pub fn put_lines(
    alloc: Global,
    out: &mut Vec<u8>,
    names: &[Vec<u8>],
    calls: &[Placed],
) -> Result<(), AllocError>
    ensures { OnOk result (AreLinesWritten (lines_of_calls names.now calls.now) out.old.items out.new.items) }
{
    for (place, placed) in calls.iter().enumerate() {
        put_call(alloc, out, names, *placed, &calls[place + 1..])?;
    }
    Ok(())
}
