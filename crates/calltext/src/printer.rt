//! Printing a program's text.

ghost use Rattle.std.specs.Prelude.{◌≡◌, ◌∷◌, ◌++◌, [], ◌≤◌, length, OnOk, IfOk};
ghost use Rattle.plaintext.specs.Plain.{line_of, numeral, spaced};
ghost use Rattle.calltext.specs.Readable.{IsText};
ghost use Rattle.calltext.specs.Grammar.{or_star, communicator_words, call_words, policy_word};
ghost use Rattle.calltext.specs.parts.Verbs.{message_words, name_words, number_words, pattern_words, request_words};
ghost use Rattle.calltext.specs.parts.Body.{rank_text};

use crate::call::{CallLine, Policy};
use crate::name::{Name, Names};
use crate::source::Source;
use crate::verb::Verb;
use plaintext::put_number;
use std::alloc::{AllocError, Global};

fn put_numeral(out: &mut Vec<u8>, number: u32) -> Result<(), AllocError>
    ensures { OnOk result (out.new.items ≡ out.old.items ++ spaced (numeral number ∷ [])) }
{
    out.push(b' ')?;
    put_number(out, number)?;
    Ok(())
}

fn put_or_star(out: &mut Vec<u8>, number: Option<u32>) -> Result<(), AllocError>
    ensures { OnOk result (out.new.items ≡ out.old.items ++ spaced (or_star number ∷ [])) }
{
    match number {
        None => out.extend_from_slice(b" *")?,
        Some(number) => put_numeral(out, number)?,
    }
    Ok(())
}

fn put_communicator(out: &mut Vec<u8>, communicator: Option<u32>) -> Result<(), AllocError>
    ensures { OnOk result (out.new.items ≡ out.old.items ++ spaced (communicator_words communicator)) }
{
    if let Some(communicator) = communicator {
        out.extend_from_slice(b" comm")?;
        put_numeral(out, communicator)?;
    }
    Ok(())
}

fn put_message(
    out: &mut Vec<u8>,
    destination: u32,
    tag: u32,
    communicator: Option<u32>,
) -> Result<(), AllocError>
    ensures { OnOk result (out.new.items ≡ out.old.items ++ spaced (message_words destination tag communicator)) }
{
    put_numeral(out, destination)?;
    put_numeral(out, tag)?;
    put_communicator(out, communicator)?;
    Ok(())
}

fn put_pattern(
    out: &mut Vec<u8>,
    source: Option<u32>,
    tag: Option<u32>,
    communicator: Option<u32>,
) -> Result<(), AllocError>
    ensures { OnOk result (out.new.items ≡ out.old.items ++ spaced (pattern_words source tag communicator)) }
{
    put_or_star(out, source)?;
    put_or_star(out, tag)?;
    put_communicator(out, communicator)?;
    Ok(())
}

fn put_name(out: &mut Vec<u8>, name: &Name) -> Result<(), AllocError>
    ensures { OnOk result (out.new.items ≡ out.old.items ++ spaced (name.now ∷ [])) }
{
    out.push(b' ')?;
    out.extend_from_slice(name.letters())?;
    Ok(())
}

fn put_request(out: &mut Vec<u8>, request: &Option<Name>) -> Result<(), AllocError>
    ensures { OnOk result (out.new.items ≡ out.old.items ++ spaced (request_words request.now)) }
{
    if let Some(name) = request {
        put_name(out, name)?;
    }
    Ok(())
}

fn put_names(out: &mut Vec<u8>, names: &Names) -> Result<(), AllocError>
    ensures { OnOk result (out.new.items ≡ out.old.items ++ spaced names.now) }
{
    for name in names.as_slice() {
        put_name(out, name)?;
    }
    Ok(())
}

fn put_call_names(out: &mut Vec<u8>, call: &CallLine) -> Result<(), AllocError>
    ensures { OnOk result (out.new.items ≡ out.old.items ++ spaced (name_words call.now)) }
{
    match call {
        CallLine::Send { request, .. } | CallLine::Receive { request, .. } => {
            put_request(out, request)?
        }
        CallLine::MatchedProbe { handle, .. } => put_name(out, handle)?,
        CallLine::MatchedReceive { request, handle } => {
            put_request(out, request)?;
            put_name(out, handle)?;
        }
        CallLine::Wait { request } => put_name(out, request)?,
        CallLine::WaitAll { requests } => put_names(out, requests)?,
        CallLine::Probe { .. } | CallLine::SendReceive { .. } => {}
    }
    Ok(())
}

fn put_call_numbers(out: &mut Vec<u8>, call: &CallLine) -> Result<(), AllocError>
    ensures { OnOk result (out.new.items ≡ out.old.items ++ spaced (number_words call.now)) }
{
    match call {
        CallLine::Send {
            destination,
            tag,
            communicator,
            ..
        } => put_message(out, *destination, *tag, *communicator)?,
        CallLine::Receive {
            source,
            tag,
            communicator,
            ..
        }
        | CallLine::MatchedProbe {
            source,
            tag,
            communicator,
            ..
        }
        | CallLine::Probe {
            source,
            tag,
            communicator,
        } => put_pattern(out, *source, *tag, *communicator)?,
        CallLine::MatchedReceive { .. } | CallLine::Wait { .. } | CallLine::WaitAll { .. } => {}
        CallLine::SendReceive {
            destination,
            send_tag,
            source,
            receive_tag,
            communicator,
        } => {
            put_numeral(out, *destination)?;
            put_numeral(out, *send_tag)?;
            put_pattern(out, *source, *receive_tag, *communicator)?;
        }
    }
    Ok(())
}

fn put_call(out: &mut Vec<u8>, call: &CallLine) -> Result<(), AllocError>
    ensures { OnOk result (out.new.items ≡ out.old.items ++ line_of (call_words call.now)) }
{
    let verb = Verb::of(call);
    out.extend_from_slice(verb.text().as_bytes())?;
    put_call_names(out, call)?;
    put_call_numbers(out, call)?;
    out.push(b'\n')?;
    Ok(())
}

fn put_rank(out: &mut Vec<u8>, rank: u32, calls: &[CallLine]) -> Result<(), AllocError>
    ensures { OnOk result (out.new.items ≡ out.old.items ++ rank_text rank calls.now) }
{
    out.extend_from_slice(b"rank ")?;
    put_number(out, rank)?;
    out.push(b'\n')?;
    for call in calls {
        put_call(out, call)?;
    }
    Ok(())
}

fn put_policy(out: &mut Vec<u8>, policy: Policy) -> Result<(), AllocError>
    ensures { OnOk result (out.new.items ≡ out.old.items ++ policy_word policy) }
{
    let word = match policy {
        Policy::Any => "any",
        Policy::Never => "none",
        Policy::Always => "all",
    };
    out.extend_from_slice(word.as_bytes())?;
    Ok(())
}

/// The text that the program was read from, which can be read again. The only error is want of
/// memory.
pub fn print(alloc: Global, source: &Source) -> Result<Vec<u8>, AllocError>
    ensures { IfOk result (λ text. IsText text.items source.now) }
{
    let ranks = source.ranks();
    let mut out = Vec::new(alloc);
    out.extend_from_slice(b"ranks ")?;
    put_number(&mut out, ranks.len() as u32)?;
    out.extend_from_slice(b"\npolicy ")?;
    put_policy(&mut out, source.policy())?;
    out.push(b'\n')?;
    for (rank, calls) in ranks.iter().enumerate() {
        put_rank(&mut out, rank as u32, calls)?;
    }
    Ok(out)
}
