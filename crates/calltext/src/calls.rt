//! Call lines, by their words.

ghost use Rattle.std.specs.Prelude.{◌≡◌, ◌≢◌, ◌∷◌, ◌++◌, ℕ, List, Option, IsTrue, IfNone, IfSome, IfOk, map};
ghost use Rattle.calltext.specs.Names.{is_name};
ghost use Rattle.calltext.specs.Grammar.{call_words, HasNames};
ghost use Rattle.calltext.specs.parts.Verbs.{request_words, IsRequest, IsReadAs};
ghost use Rattle.calltext.specs.Verbs.{is_started};
ghost use Rattle.calltext.specs.parts.Capped.{capped_call};

use crate::call::{CallLine, Mode};
use crate::name::{Name, name_of, names_of};
use crate::verb::Verb;
use crate::words::{MessageNumbers, PatternNumbers, message_of, pattern_of};
use plaintext::number_of;
use std::alloc::{AllocError, Global};

/// The name that stands first, and the words after it.
fn first_name<'a, 'b>(words: &'a [&'b [u8]]) -> Option<(Name, &'a [&'b [u8]])>
    ensures none { IfNone result ((name : List ℕ) (others : List (List ℕ)) → IsTrue (is_name name) →
        name ∷ others ≢ map (λ w. w.now) words.now) }
    ensures some { IfSome result (λ split. IsTrue (is_name split.0) ×
        (split.0 ∷ map (λ w. w.now) split.1.now ≡ map (λ w. w.now) words.now)) }
{
    let [first, others @ ..] = words else {
        return None;
    };
    let name = name_of(first)?;
    Some((name, others))
}

/// The request of a call, which stands first where the call is started, and the other words.
fn request_of<'a, 'b>(
    started: bool,
    words: &'a [&'b [u8]],
) -> Option<(Option<Name>, &'a [&'b [u8]])>
    ensures none { IfNone result ((request : Option (List ℕ)) (others : List (List ℕ)) → IsRequest request →
        is_started request ≡ started → request_words request ++ others ≢ map (λ w. w.now) words.now) }
    ensures some { IfSome result (λ split. IsRequest split.0 × (is_started split.0 ≡ started) ×
        (request_words split.0 ++ map (λ w. w.now) split.1.now ≡ map (λ w. w.now) words.now)) }
{
    if !started {
        return Some((None, words));
    }
    let (name, others) = first_name(words)?;
    Some((Some(name), others))
}

fn send_of(mode: Mode, started: bool, words: &[&[u8]]) -> Option<CallLine>
    ensures { IsReadAs (Verb.Send mode started) (map (λ w. w.now) words.now) result }
{
    let (request, others) = request_of(started, words)?;
    let Some(
        MessageNumbers {
            destination,
            tag,
            communicator,
        },
    ) = message_of(others)
    else {
        return None;
    };
    Some(CallLine::Send {
        mode,
        request,
        destination,
        tag,
        communicator,
    })
}

fn receive_of(started: bool, words: &[&[u8]]) -> Option<CallLine>
    ensures { IsReadAs (Verb.Receive started) (map (λ w. w.now) words.now) result }
{
    let (request, others) = request_of(started, words)?;
    let Some(
        PatternNumbers {
            source,
            tag,
            communicator,
        },
    ) = pattern_of(others)
    else {
        return None;
    };
    Some(CallLine::Receive {
        request,
        source,
        tag,
        communicator,
    })
}

fn matched_probe_of(words: &[&[u8]]) -> Option<CallLine>
    ensures { IsReadAs Verb.MatchedProbe (map (λ w. w.now) words.now) result }
{
    let (handle, others) = first_name(words)?;
    let Some(
        PatternNumbers {
            source,
            tag,
            communicator,
        },
    ) = pattern_of(others)
    else {
        return None;
    };
    Some(CallLine::MatchedProbe {
        handle,
        source,
        tag,
        communicator,
    })
}

fn probe_of(words: &[&[u8]]) -> Option<CallLine>
    ensures { IsReadAs Verb.Probe (map (λ w. w.now) words.now) result }
{
    let Some(
        PatternNumbers {
            source,
            tag,
            communicator,
        },
    ) = pattern_of(words)
    else {
        return None;
    };
    Some(CallLine::Probe {
        source,
        tag,
        communicator,
    })
}

fn matched_receive_of(started: bool, words: &[&[u8]]) -> Option<CallLine>
    ensures { IsReadAs (Verb.MatchedReceive started) (map (λ w. w.now) words.now) result }
{
    let (request, others) = request_of(started, words)?;
    let [word] = others else {
        return None;
    };
    let handle = name_of(word)?;
    Some(CallLine::MatchedReceive { request, handle })
}

fn wait_of(words: &[&[u8]]) -> Option<CallLine>
    ensures { IsReadAs Verb.Wait (map (λ w. w.now) words.now) result }
{
    let [word] = words else {
        return None;
    };
    let request = name_of(word)?;
    Some(CallLine::Wait { request })
}

fn wait_all_of(alloc: Global, words: &[&[u8]]) -> Result<Option<CallLine>, AllocError>
    ensures { IfOk result (IsReadAs Verb.WaitAll (map (λ w. w.now) words.now)) }
{
    let Some(requests) = names_of(alloc, words)? else {
        return Ok(None);
    };
    Ok(Some(CallLine::WaitAll { requests }))
}

fn send_receive_of(words: &[&[u8]]) -> Option<CallLine>
    ensures { IsReadAs Verb.SendReceive (map (λ w. w.now) words.now) result }
{
    let [destination, send_tag, others @ ..] = words else {
        return None;
    };
    let destination = number_of(destination)?;
    let send_tag = number_of(send_tag)?;
    let Some(
        PatternNumbers {
            source,
            tag,
            communicator,
        },
    ) = pattern_of(others)
    else {
        return None;
    };
    Some(CallLine::SendReceive {
        destination,
        send_tag,
        source,
        receive_tag: tag,
        communicator,
    })
}

fn with_operands(alloc: Global, verb: Verb, words: &[&[u8]]) -> Result<Option<CallLine>, AllocError>
    ensures { IfOk result (IsReadAs verb (map (λ w. w.now) words.now)) }
{
    match verb {
        Verb::Send { mode, started } => Ok(send_of(mode, started, words)),
        Verb::Receive { started } => Ok(receive_of(started, words)),
        Verb::MatchedProbe => Ok(matched_probe_of(words)),
        Verb::Probe => Ok(probe_of(words)),
        Verb::MatchedReceive { started } => Ok(matched_receive_of(started, words)),
        Verb::Wait => Ok(wait_of(words)),
        Verb::WaitAll => wait_all_of(alloc, words),
        Verb::SendReceive => Ok(send_receive_of(words)),
    }
}

/// The call line, where the words are one's. The only error is want of memory.
pub fn call_of(alloc: Global, words: &[&[u8]]) -> Result<Option<CallLine>, AllocError>
    ensures none { IfOk result (λ found. IfNone found ((c : CallLine) → HasNames c → call_words c ≢ map (λ w. w.now) words.now)) }
    ensures some { IfOk result (λ found. IfSome found (λ call. (c : CallLine) × HasNames c ×
        (call_words c ≡ map (λ w. w.now) words.now) × (call ≡ capped_call c))) }
{
    let [first, operands @ ..] = words else {
        return Ok(None);
    };
    let Some(verb) = Verb::find(first) else {
        return Ok(None);
    };
    let call = with_operands(alloc, verb, operands)?;
    Ok(call)
}
