//! What decided a run: which sends were buffered, where that is free, and which message a wildcard
//! took, or a probe with a star saw, where another one fitted too.

ghost use Rattle.semantics.specs.Machine.{IsRun, opening};

use callorder::{LongProgram, Policy};
use semantics::{State, Step};
use std::alloc::{AllocError, Global};

/// A choice of a run. Its step and calls are named by their places, from 0.
#[derive(Drop)]
pub enum RunChoice {
    /// The send was buffered, which the policy leaves open.
    Buffered {
        step: usize,
        send: usize,
    },
    /// A wildcard took, or a probe with a star saw, the message of the send, where those of its
    /// rivals fitted too.
    Found {
        step: usize,
        send: usize,
        finder: usize,
        rivals: Vec<usize>,
    },
}

/// Whether the call is a receive, a matched probe or a probe with a star.
fn is_wildcard(program: &LongProgram, finder: usize) -> bool {
    match program.call(finder) {
        None => false,
        Some(call) => match call.kind.pattern() {
            None => false,
            Some(pattern) => pattern.source.is_none() || pattern.tag.is_none(),
        },
    }
}

/// The sends of one rank to another by a communicator, with a tag or any, in a list.
#[derive(Clone, Copy)]
struct Span {
    /// The destination, the communicator, the tag, or 0 where it is any, and the rank.
    envelope: (u32, u32, u32, u32),
    /// The place in the list of the first one that may not be matched yet.
    next: usize,
    /// The place behind the last one.
    end: usize,
}

/// Sends, those of one envelope together.
#[derive(Drop)]
struct Sends {
    listed: Vec<usize>,
    spans: Vec<Span>,
}

impl Sends {
    /// These, sorted, by their envelopes and places.
    fn of(alloc: Global, sends: &[(u32, u32, u32, u32, usize)]) -> Result<Sends, AllocError> {
        let mut listed = Vec::with_capacity(alloc, sends.len())?;
        let mut spans: Vec<Span> = Vec::new(alloc);
        for (place, send) in sends.iter().enumerate() {
            let envelope = (send.0, send.1, send.2, send.3);
            listed.push(send.4)?;
            match spans.last_mut() {
                Some(span) if span.envelope == envelope => span.end = place.saturating_add(1),
                _ => spans.push(Span {
                    envelope,
                    next: place,
                    end: place.saturating_add(1),
                })?,
            }
        }
        Ok(Sends { listed, spans })
    }

    /// The first send of the span that is not matched.
    fn first_free(&mut self, number: usize, state: &State) -> Option<usize> {
        let span = self.spans.get_mut(number)?;
        for place in span.next..span.end {
            let send = self.listed.get(place).copied()?;
            if state.partner(send).is_none() {
                span.next = place;
                return Some(send);
            }
        }
        span.next = span.end;
        None
    }

    /// Of each rank but one the first send with the destination, the communicator and the tag that
    /// is not matched.
    fn free(
        &mut self,
        alloc: Global,
        state: &State,
        to: (u32, u32, u32),
        but: u32,
    ) -> Result<Vec<usize>, AllocError> {
        let mut sends = Vec::new(alloc);
        let first = self
            .spans
            .partition_point(|span| span.envelope < (to.0, to.1, to.2, 0));
        for number in first..self.spans.len() {
            let Some(span) = self.spans.get(number).copied() else {
                return Ok(sends);
            };
            let envelope = span.envelope;
            if (envelope.0, envelope.1, envelope.2) != to {
                return Ok(sends);
            }
            if envelope.3 != but
                && let Some(send) = self.first_free(number, state)
            {
                sends.push(send)?;
            }
        }
        Ok(sends)
    }
}

/// The sends of a program by their tags, and with any tag.
#[derive(Drop)]
struct AllSends {
    tagged: Sends,
    any: Sends,
}

/// The sends of a program.
fn sends_of(alloc: Global, program: &LongProgram) -> Result<AllSends, AllocError> {
    let mut sends: Vec<(u32, u32, u32, u32, usize)> = Vec::new(alloc);
    for (place, call) in program.calls().iter().enumerate() {
        if let Some(message) = call.kind.message() {
            sends.push((
                message.destination,
                message.communicator,
                message.tag,
                call.rank,
                place,
            ))?;
        }
    }
    sends.sort()?;
    let tagged = Sends::of(alloc, &sends)?;
    for send in sends.iter_mut() {
        send.2 = 0;
    }
    sends.sort()?;
    let any = Sends::of(alloc, &sends)?;
    Ok(AllSends { tagged, any })
}

/// The sends of other ranks than that of the send, which the call finds, that fit the call too, of
/// each rank the first one that is not matched.
fn rivals(
    alloc: Global,
    program: &LongProgram,
    state: &State,
    sends: &mut AllSends,
    send: usize,
    finder: usize,
) -> Result<Vec<usize>, AllocError> {
    let (Some(own), Some(call)) = (program.call(send), program.call(finder)) else {
        return Ok(Vec::new(alloc));
    };
    let Some(pattern) = call.kind.pattern() else {
        return Ok(Vec::new(alloc));
    };
    if pattern.source.is_some() {
        return Ok(Vec::new(alloc));
    }
    let communicator = pattern.communicator;
    match pattern.tag {
        None => sends
            .any
            .free(alloc, state, (call.rank, communicator, 0), own.rank),
        Some(tag) => sends
            .tagged
            .free(alloc, state, (call.rank, communicator, tag), own.rank),
    }
}

/// What the call finds, where others fitted too.
fn found_by(
    alloc: Global,
    program: &LongProgram,
    state: &State,
    sends: &mut AllSends,
    step: usize,
    send: usize,
    finder: usize,
) -> Result<Option<RunChoice>, AllocError> {
    if !is_wildcard(program, finder) {
        return Ok(None);
    }
    let rivals = rivals(alloc, program, state, sends, send, finder)?;
    if rivals.is_empty() {
        return Ok(None);
    }
    Ok(Some(RunChoice::Found {
        step,
        send,
        finder,
        rivals,
    }))
}

/// What the step at a place decides in a state, if it does.
fn choice_of(
    alloc: Global,
    program: &LongProgram,
    state: &State,
    sends: &mut AllSends,
    place: usize,
    step: Step,
) -> Result<Option<RunChoice>, AllocError> {
    match step {
        Step::Issue {
            rank,
            buffered: true,
        } if program.policy() == Policy::Any => Ok(
            state
                .next_of(rank)
                .map(|send| RunChoice::Buffered { step: place, send }),
        ),
        Step::Issue { .. } => Ok(None),
        Step::Match { send, taker } => found_by(alloc, program, state, sends, place, send, taker),
        Step::See { send, probe } => found_by(alloc, program, state, sends, place, send, probe),
    }
}

/// The choices of a run, in the order of its steps. The only error is want of memory.
pub fn choices_of(
    alloc: Global,
    program: &LongProgram,
    steps: &[Step],
) -> Result<Vec<RunChoice>, AllocError>
    requires { IsRun program.now (opening program.now) steps.now }
{
    let mut choices = Vec::new(alloc);
    let mut sends = sends_of(alloc, program)?;
    let mut state = State::start(alloc, program)?;
    for (place, step) in steps.iter().enumerate() {
        let choice = choice_of(alloc, program, &state, &mut sends, place, *step)?;
        state.apply(program, *step);
        if let Some(choice) = choice {
            choices.push(choice)?;
        }
    }
    Ok(choices)
}
