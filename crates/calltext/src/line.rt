//! What one line is, in its place.

ghost use Rattle.std.specs.Prelude.{◌↔◌, ◌≡◌, ◌≤◌, ◌++◌, ◌∷◌, [], ◌<◌, ◌≢◌, ℕ, List, map, length, IsTrue, IfOk, IfErr, IfNone, IfSome};
ghost use Rattle.calltext.specs.Grammar.{IsInRange, IsCommunicator, UpTo, rank_words};
ghost use Rattle.calltext.specs.RefusedWords.{refused_word, refused_words};
ghost use Rattle.calltext.specs.parts.Item.{IsItem, IsWrong};
ghost use Rattle.calltext.specs.WiderLimits.{AreLimits};
ghost use Rattle.calltext.specs.declared.line.CallLineFault.TheVariants.{Memory};

use crate::call::CallLine;
use crate::calls::call_of;
use crate::limits::Limits;
use crate::refused::RefusedWord;
use crate::words::is_rank;
use plaintext::words_of;
use std::alloc::{AllocError, Global};

/// What a line is, once the first rank has begun.
#[derive(Drop)]
pub enum Item {
    Call(CallLine),
    Rank,
}

/// Why a line can't stand in its place.
#[derive(Clone, Copy)]
pub enum CallLineFault {
    Memory,
    NotAscii,
    Syntax,
    OutOfProfile(RefusedWord),
    Range,
}

impl From<AllocError> for CallLineFault {
    ghost from_gives = { λ _ e. e ≡ Memory };

    fn from(_e: AllocError) -> CallLineFault {
        CallLineFault::Memory
    }
}

fn is_communicator(most: u32, number: Option<u32>) -> bool
    ensures { IsTrue result ↔ IsCommunicator most number }
{
    match number {
        None => true,
        Some(n) => n >= 1 && n <= most,
    }
}

fn is_at_most(most: u32, number: Option<u32>) -> bool
    ensures { IsTrue result ↔ UpTo most number }
{
    match number {
        None => true,
        Some(n) => n <= most,
    }
}

/// Whether a source, a tag and a communicator are within the limits.
fn pattern_is_in_range(
    limits: Limits,
    source: Option<u32>,
    tag: Option<u32>,
    communicator: Option<u32>,
) -> bool
    ensures { IsTrue result ↔ (UpTo limits.peer source × UpTo limits.tag tag × IsCommunicator limits.communicator communicator) }
{
    is_at_most(limits.peer, source)
        && is_at_most(limits.tag, tag)
        && is_communicator(limits.communicator, communicator)
}

/// Whether the call's numbers are within the limits.
fn is_in_range(limits: Limits, call: &CallLine) -> bool
    ensures { IsTrue result ↔ IsInRange limits call.now }
{
    match call {
        CallLine::Send {
            destination,
            tag,
            communicator,
            ..
        } => {
            *destination <= limits.peer
                && *tag <= limits.tag
                && is_communicator(limits.communicator, *communicator)
        }
        CallLine::Receive {
            source,
            tag,
            communicator,
            ..
        }
        | CallLine::MatchedProbe {
            source,
            tag,
            communicator,
            ..
        }
        | CallLine::Probe {
            source,
            tag,
            communicator,
        } => pattern_is_in_range(limits, *source, *tag, *communicator),
        CallLine::MatchedReceive { .. } | CallLine::Wait { .. } | CallLine::WaitAll { .. } => true,
        CallLine::SendReceive {
            destination,
            send_tag,
            source,
            receive_tag,
            communicator,
        } => {
            *destination <= limits.peer
                && *send_tag <= limits.tag
                && pattern_is_in_range(limits, *source, *receive_tag, *communicator)
        }
    }
}

/// Whether the words are the heading of the rank `next`, and that is below `total`.
fn rank_follows(words: &[&[u8]], next: u32, total: u32) -> bool
    requires { next ≤ 2147483647 }
    ensures { IsTrue result ↔ ((next < total) × (rank_words next ≡ map (λ w. w.now) words.now)) }
{
    next < total && is_rank(words, next)
}

/// The refused word that stands first.
fn refused_in(words: &[&[u8]]) -> Option<RefusedWord>
    ensures none { IfNone result ((place : ℕ) (others : List (List ℕ)) → place < length refused_words →
        refused_word place ∷ others ≢ map (λ x. x.now) words.now) }
    ensures some { IfSome result (λ place. (place < length refused_words) × (others : List (List ℕ)) ×
        (refused_word place ∷ others ≡ map (λ x. x.now) words.now)) }
{
    let [first, ..] = words else {
        return None;
    };
    let word = RefusedWord::find(first)?;
    Some(word)
}

/// The line, which an LF ends, as a call or as the heading of the rank `next`, which may stand
/// here if it is below `total`.
pub fn item_of(
    alloc: Global,
    limits: Limits,
    line: &[u8],
    next: u32,
    total: u32,
) -> Result<Item, CallLineFault>
    requires limits { AreLimits limits }
    requires next { next ≤ 2147483647 }
    ensures ok { IfOk result (λ item. IsItem limits item next total (line.now ++ 10 ∷ [])) }
    ensures err { IfErr result (λ fault. IsWrong limits fault next total (line.now ++ 10 ∷ [])) }
{
    if !line.is_ascii() {
        return Err(CallLineFault::NotAscii);
    }
    let words = words_of(alloc, line)?;
    let found = call_of(alloc, &words)?;
    if let Some(call) = found {
        if is_in_range(limits, &call) {
            return Ok(Item::Call(call));
        }
        return Err(CallLineFault::Range);
    }
    if rank_follows(&words, next, total) {
        return Ok(Item::Rank);
    }
    if let Some(word) = refused_in(&words) {
        return Err(CallLineFault::OutOfProfile(word));
    }
    Err(CallLineFault::Syntax)
}
