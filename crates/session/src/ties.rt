//! Which call of any source, and which send, hold a phase together that is too large for a search.
ghost use Rattle.std.specs.Prelude.{◌≡◌, IfOk, IfSome, IsTrue, Some, string_bytes, true};
ghost use Rattle.std.specs.List.{AllByRecursion};
ghost use Rattle.deciding.specs.Decisions.{takes_any_source_call};
ghost use Rattle.session.specs.Ties.{AreToldTies, IsTie, size_words, tie_line, tie_sentence, ties_text};

use crate::racing::call_words;
use callorder::{Call, LongProgram};
use calltext::read_long;
use cutting::{Phases, Tie};
use deciding::Caller;
use scene::line_numbers;
use std::alloc::{AllocError, Global};

/// A phase that is too large for a search, by the number of its text, from 1, how many events it
/// has, and a call of any source and a send that fits it, which nothing is known to order.
#[derive(Clone, Copy)]
pub struct NamedTie {
    pub phase: usize,
    pub events: usize,
    pub finder: Caller,
    pub send: Caller,
}

/// Whether the call is a receive, a matched probe or a probe of any source.
fn takes_any_source(call: &Call) -> bool
    ensures { result ≡ true → IsTrue (takes_any_source_call (Some call.now)) }
{
    match call.kind.pattern() {
        None => false,
        Some(pattern) => pattern.source.is_none(),
    }
}

/// The calls of a tie with their ranks, where the one takes any source, and the other is a send
/// that fits it. Nobody trusts how a program is cut, so that is tested.
fn named(program: &LongProgram, tie: Tie) -> Option<NamedTie>
    ensures { IfSome result (IsTie program.now) }
{
    let Some(finder) = program.call(tie.finder) else {
        return None;
    };
    let Some(send) = program.call(tie.send) else {
        return None;
    };
    if !takes_any_source(&finder) || !program.are_fit(tie.send, tie.finder) {
        return None;
    }
    Some(NamedTie {
        phase: tie.text.saturating_add(1),
        events: tie.events,
        finder: Caller {
            place: tie.finder,
            rank: finder.rank,
        },
        send: Caller {
            place: tie.send,
            rank: send.rank,
        },
    })
}

/// These ties with the ranks of their calls.
fn named_all(
    alloc: Global,
    program: &LongProgram,
    ties: &[Tie],
) -> Result<Vec<NamedTie>, AllocError>
    ensures { IfOk result (λ named. AllByRecursion (IsTie program.now) named.items) }
{
    let mut all = Vec::new(alloc);
    for tie in ties {
        if let Some(tie) = named(program, *tie) {
            all.push(tie)?;
        }
    }
    Ok(all)
}

/// How large a phase is.
fn size_words(alloc: Global, phase: usize, events: usize) -> Result<String, AllocError>
    ensures { IfOk result (λ words. string_bytes words ≡ size_words phase events) }
{
    let mut words = String::from_str(alloc, "phase ")?;
    words.push_str(&phase.to_string(alloc)?)?;
    words.push_str(" has ")?;
    words.push_str(&events.to_string(alloc)?)?;
    words.push_str(" events, at most 1024: ")?;
    Ok(words)
}

/// Which call and which send hold a phase together.
fn tie_sentence(alloc: Global, size: &str, finder: &str, send: &str) -> Result<String, AllocError>
    ensures { IfOk result (λ words. string_bytes words ≡ tie_sentence size.now finder.now send.now) }
{
    let mut words = String::from_str(alloc, size)?;
    words.push_str(finder)?;
    words.push_str(" takes any source, and ")?;
    words.push_str(send)?;
    words.push_str(" isn't known to come later\n")?;
    Ok(words)
}

/// The line of a tie.
fn tie_line(alloc: Global, lines: &[usize], tie: NamedTie) -> Result<String, AllocError>
    ensures { IfOk result (λ words. string_bytes words ≡ tie_line lines.now tie) }
{
    let size = size_words(alloc, tie.phase, tie.events)?;
    let finder = call_words(alloc, lines, tie.finder)?;
    let send = call_words(alloc, lines, tie.send)?;
    tie_sentence(alloc, &size, &finder, &send)
}

/// The lines of these ties. `lines` has the number of the line of each call of the program.
fn ties_text(alloc: Global, lines: &[usize], ties: &[NamedTie]) -> Result<String, AllocError>
    ensures { IfOk result (λ text. string_bytes text ≡ ties_text lines.now ties.now) }
{
    let mut text = String::new(alloc);
    for tie in ties {
        text.push_str(&tie_line(alloc, lines, *tie)?)?;
    }
    Ok(text)
}

/// What is told of phases of the program of a text that are too large for a search: a line for each
/// of which a tie is known whose calls are as they have to be.
pub fn told_ties(
    alloc: Global,
    text: &[u8],
    program: &LongProgram,
    phases: &Phases,
) -> Result<String, AllocError>
    ensures { IfOk result (λ told. AreToldTies text.now program.now (string_bytes told)) }
{
    if phases.ties.is_empty() {
        return Ok(String::new(alloc));
    }
    // The program was made of this text, so want of memory alone can be met.
    let Ok(source) = read_long(alloc, text) else {
        return Err(AllocError);
    };
    let lines = line_numbers(alloc, &source)?;
    let named = named_all(alloc, program, &phases.ties)?;
    ties_text(alloc, &lines, &named)
}
