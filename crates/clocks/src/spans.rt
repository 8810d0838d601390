//! Blocks: spans of calls of one rank, from a first receive or matched probe up to a last one.

ghost use Rattle.std.specs.Prelude.{◌≡◌, ◌≤◌, ◌<◌, ◌+◌, ◌^◌, ◌↔◌, ℕ, IfNone, IfOk, IfSome, IsTrue, Some, false, length, slice_set};
ghost use Rattle.callorder.specs.Programs.{call_at, are_of_one_rank};
ghost use Rattle.races.specs.Blocks.{is_finder};
ghost use Rattle.clocks.specs.Spans.{AreSpans, AreWidest, FetchesAtOnce, IsReceivedAtOnce, IsWaitFor, MayBegin, MayFollow, WaitsFrom, is_done_at_once_call, is_receive_call, pattern_at, returns_at_once};
ghost use Rattle.clocks.specs.parts.Clocks.{IsSingle, block_of};
ghost use Rattle.clocks.specs.parts.Spans.{AreNamedUpTo, AreNamedWith, IsClosed, IsLonger, IsOpenSpan, IsWithin, first_sender};

use callorder::{Kind, LongProgram, Pattern};
use calltext::Mode;
use semantics::State;
use std::alloc::{AllocError, Global};

/// The name of a call's block: its first call's place. What has no name in the list has its own
/// place as its name.
pub fn name(names: &[usize], call: usize) -> usize
    ensures { result ≡ block_of names.now call }
{
    names.get(call).copied().unwrap_or(call)
}

/// Whether the operation is done as soon as it is issued.
fn is_done_at_once(program: &LongProgram, operation: usize) -> bool
    ensures { result ≡ is_done_at_once_call (call_at program.now operation) }
{
    let Some(known) = program.call(operation) else {
        return false;
    };
    match known.kind {
        Kind::Send { mode, .. } => mode == Mode::Buffered,
        Kind::MatchedReceive { .. } => true,
        _ => false,
    }
}

/// Whether the call returns at once, whatever happens.
fn returns_at_once(program: &LongProgram, call: usize) -> bool
    ensures { result ≡ returns_at_once program.now call }
{
    let Some(known) = program.call(call) else {
        return false;
    };
    match known.kind {
        Kind::Send { mode, blocking, .. } => !blocking || mode == Mode::Buffered,
        Kind::Receive { blocking, .. } => !blocking,
        Kind::MatchedReceive { .. } => true,
        Kind::Wait { operation } => is_done_at_once(program, operation),
        _ => false,
    }
}

/// Whether each call from one place up to another returns at once.
fn return_at_once(program: &LongProgram, first: usize, end: usize) -> bool
    ensures all { IsTrue result → (c : ℕ) → first ≤ c → c < end → IsTrue (returns_at_once program.now c) }
    ensures some { result ≡ false → (c : ℕ) × (first ≤ c) × (c < end) × (returns_at_once program.now c ≡ false) }
{
    for call in first..end {
        if !returns_at_once(program, call) {
            return false;
        }
    }
    true
}

/// Whether the call is a receive, or a matched probe from which up to the receive on its handle
/// each call returns at once.
fn fetches_at_once(program: &LongProgram, call: usize) -> bool
    ensures { IsTrue result ↔ FetchesAtOnce program.now call }
{
    let Some(known) = program.call(call) else {
        return false;
    };
    match known.kind {
        Kind::Receive { .. } => true,
        Kind::MatchedProbe { receive, .. } => is_received_at_once(program, call, receive),
        _ => false,
    }
}

/// Whether the receive is of the rank of the probe and behind it, and each call between them
/// returns at once.
fn is_received_at_once(program: &LongProgram, probe: usize, receive: usize) -> bool
    ensures { IsTrue result ↔ IsReceivedAtOnce program.now probe receive }
{
    if receive <= probe {
        return false;
    }
    if !program.are_of_one_rank(probe, receive) {
        return false;
    }
    return_at_once(program, probe + 1, receive)
}

/// What the call finds, where it is a receive, a matched probe or a probe.
fn pattern_at(program: &LongProgram, call: usize) -> Option<Pattern>
    ensures { result ≡ pattern_at program.now call }
{
    match program.call(call) {
        None => None,
        Some(known) => known.kind.pattern(),
    }
}

/// Whether the call is a receive, a matched probe or a probe.
fn is_finder(program: &LongProgram, call: usize) -> bool
    ensures { result ≡ is_finder program.now call }
{
    pattern_at(program, call).is_some()
}

/// Whether the call is a receive.
fn is_receive(program: &LongProgram, call: usize) -> bool
    ensures { result ≡ is_receive_call (call_at program.now call) }
{
    match program.call(call) {
        None => false,
        Some(known) => matches!(known.kind, Kind::Receive { .. }),
    }
}

/// The receive that the call waits for, if it is a wait for one.
fn awaited(program: &LongProgram, call: usize) -> Option<usize>
    ensures some { IfSome result (λ receive. IsWaitFor program.now call receive) }
    ensures none { IfNone result ((receive : ℕ) → IsWaitFor program.now call receive → ⊥) }
{
    let Some(known) = program.call(call) else {
        return None;
    };
    match known.kind {
        Kind::Wait { operation } => {
            if is_receive(program, operation) {
                Some(operation)
            } else {
                None
            }
        }
        _ => None,
    }
}

/// Whether the call waits for a receive before it, from a place on.
fn waits_from(program: &LongProgram, first: usize, call: usize) -> bool
    ensures { IsTrue result ↔ WaitsFrom program.now first call }
{
    let Some(receive) = awaited(program, call) else {
        return false;
    };
    first <= receive && receive < call
}

/// Whether the call may stand in a span with this first call.
fn may_follow(program: &LongProgram, first: usize, call: usize) -> bool
    ensures { IsTrue result ↔ MayFollow program.now first call }
{
    if !program.are_of_one_rank(first, call) {
        return false;
    }
    if is_finder(program, call) {
        return fetches_at_once(program, call)
            && pattern_at(program, first) == pattern_at(program, call);
    }
    returns_at_once(program, call) || waits_from(program, first, call)
}

/// A span that may still grow.
#[derive(Clone, Copy)]
struct Span {
    /// Its first call.
    first: usize,
    /// Its last receive or matched probe.
    last: usize,
    /// A send whose message one of them has found.
    sender: Option<usize>,
    /// Whether its messages came from more than one rank.
    mixed: bool,
}

/// Whether a span may begin with the call.
fn may_begin(program: &LongProgram, call: usize) -> bool
    ensures { IsTrue result ↔ MayBegin program.now call }
{
    let Some(pattern) = pattern_at(program, call) else {
        return false;
    };
    pattern.source.is_none() && fetches_at_once(program, call)
}

/// The span that begins with the call, if one may.
fn begun(program: &LongProgram, state: &State, call: usize) -> Option<Span>
    requires { call < 2 ^ 63 }
    ensures some { IfSome result (λ span. IsOpenSpan program.now state.now (call + 1) span × (span.first ≡ call)) }
    ensures none { IfNone result (MayBegin program.now call → ⊥) }
{
    if !may_begin(program, call) {
        return None;
    }
    Some(Span {
        first: call,
        last: call,
        sender: state.partner(call),
        mixed: false,
    })
}

/// Whether the messages of two sends, where there are two, are of two ranks.
fn are_mixed(program: &LongProgram, one: Option<usize>, other: Option<usize>) -> bool
    ensures { result ≡ false → (a b : ℕ) → one ≡ Some a → other ≡ Some b → IsTrue (are_of_one_rank program.now a b) }
{
    match (one, other) {
        (Some(one), Some(other)) => !program.are_of_one_rank(one, other),
        _ => false,
    }
}

/// The span with this call, which stands behind it, if it may.
fn grown(program: &LongProgram, state: &State, span: Span, call: usize) -> Option<Span>
    requires { IsOpenSpan program.now state.now call span }
    ensures some { IfSome result (λ next. IsOpenSpan program.now state.now (call + 1) next × (next.first ≡ span.first)) }
    ensures none { IfNone result (MayFollow program.now span.first call → ⊥) }
{
    if !may_follow(program, span.first, call) {
        return None;
    }
    if !is_finder(program, call) {
        return Some(span);
    }
    Some(longer(program, span, state.partner(call), call))
}

/// The span with a call behind it that has found this message.
fn longer(program: &LongProgram, span: Span, found: Option<usize>, call: usize) -> Span
    ensures { IsLonger program.now span result found call }
{
    Span {
        first: span.first,
        last: call,
        sender: first_sender(span.sender, found),
        mixed: span.mixed || are_mixed(program, span.sender, found),
    }
}

/// The first of two sends that is there.
fn first_sender(one: Option<usize>, other: Option<usize>) -> Option<usize>
    ensures { result ≡ first_sender one other }
{
    match one {
        None => other,
        Some(send) => Some(send),
    }
}

/// Names the calls of the span by its first one. A span whose messages all come from one rank is
/// left as it is: no other send of that rank races for a receive that is a block of its own.
fn close(names: &mut Vec<usize>, span: Option<Span>)
    requires { IsWithin (length names.old.items) span }
    ensures count { length names.new.items ≡ length names.old.items }
    ensures names { IsClosed span (block_of names.old.items) (block_of names.new.items) }
{
    let Some(span) = span else {
        return;
    };
    if !span.mixed {
        return;
    }
    for place in span.first..span.last {
        rename(names, place + 1, span.first);
    }
}

fn rename(names: &mut Vec<usize>, place: usize, first: usize)
    ensures { names.new.items ≡ slice_set names.old.items place first }
{
    if let Some(name) = names.get_mut(place) {
        *name = first;
    }
}

/// The growing span behind one more call, and the names behind those that were closed.
fn go_on(
    names: &mut Vec<usize>,
    program: &LongProgram,
    state: &State,
    growing: Option<Span>,
    place: usize,
) -> Option<Span>
    requires small { place < 2 ^ 63 }
    requires named { AreNamedWith program.now state.now place names.old.items growing }
    ensures { AreNamedUpTo program.now state.now (place + 1) names.new.items result }
{
    if let Some(span) = growing {
        if let Some(longer) = grown(program, state, span, place) {
            return Some(longer);
        }
    }
    close(names, growing);
    begun(program, state, place)
}

/// A name for the block of each call, the place of the first call of its span, by what was found at
/// the end of a run. Spans are as wide as they may be. The only error is want of memory.
pub fn names_of(
    alloc: Global,
    program: &LongProgram,
    state: &State,
) -> Result<Vec<usize>, AllocError>
    ensures spans { IfOk result (λ names. AreSpans program.now (block_of names.items)) }
    ensures widest { IfOk result (λ names. AreWidest program.now state.now (block_of names.items)) }
{
    let mut names: Vec<usize> = Vec::new(alloc);
    let mut growing: Option<Span> = None;
    for place in 0..program.calls().len() {
        names.push(place)?;
        growing = go_on(&mut names, program, state, growing, place);
    }
    close(&mut names, growing);
    Ok(names)
}

/// Names by which each call is a block of its own.
pub fn no_names(alloc: Global, program: &LongProgram) -> Vec<usize>
    ensures spans { AreSpans program.now (block_of result.items) }
    ensures single { (c : ℕ) → IsSingle (block_of result.items) c }
{
    let _program = program;
    Vec::new(alloc)
}

/// Whether the call is a block of its own.
pub fn is_single(names: &[usize], call: usize) -> bool
    ensures single { IsTrue result → IsSingle (block_of names.now) call }
    ensures joined { result ≡ false → IsSingle (block_of names.now) call → ⊥ }
{
    let own = name(names, call);
    if call < names.len() {
        if name(names, call + 1) == own {
            return false;
        }
    }
    if call == 0 {
        return true;
    }
    name(names, call - 1) != own
}
