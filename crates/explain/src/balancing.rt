//! A channel whose sends and receives differ in number, in a sentence.

use balance::Imbalance;
use callorder::{LongProgram, Message, Pattern};
use scene::{CallLabel, Scene};
use std::alloc::AllocError;

/// The most lines that are told of each side.
const MOST_LINES: usize = 8;

/// The calls that sentences on channels name.
#[derive(Clone, Copy)]
pub struct Calls<'a> {
    program: &'a LongProgram,
    labels: &'a [CallLabel],
    most: usize,
}

impl<'a> Calls<'a> {
    /// The calls of a program, as they are told; of each side the first lines.
    pub fn new(program: &'a LongProgram, labels: &'a [CallLabel]) -> Calls<'a> {
        Calls {
            program,
            labels,
            most: MOST_LINES,
        }
    }

    /// The calls of a scene.
    pub fn of(scene: &'a Scene<'_>) -> Calls<'a> {
        Calls {
            program: scene.program,
            labels: &scene.labels,
            most: scene.most(MOST_LINES),
        }
    }
}

/// The message of the first send, if there is a send.
fn message_of(calls: Calls<'_>, sides: &Imbalance) -> Option<Message> {
    calls.program.call(*sides.sends.first()?)?.kind.message()
}

/// What the first taker takes, if there is a taker.
fn pattern_of(calls: Calls<'_>, sides: &Imbalance) -> Option<Pattern> {
    calls.program.call(*sides.takers.first()?)?.kind.pattern()
}

/// Whether the calls at these places are all of the rank of this one.
fn are_of_one_rank(calls: Calls<'_>, places: &[usize], first: usize) -> bool {
    places
        .iter()
        .all(|call| calls.program.are_of_one_rank(first, *call))
}

/// Whether the sends at these places all have this tag.
fn have_tag(calls: Calls<'_>, places: &[usize], tag: u32) -> bool {
    places.iter().all(|call| match calls.program.call(*call) {
        None => false,
        Some(known) => match known.kind.message() {
            None => false,
            Some(message) => message.tag == tag,
        },
    })
}

/// The rank of a call.
fn rank_of(calls: Calls<'_>, call: usize) -> u32 {
    match calls.labels.get(call) {
        None => 0,
        Some(label) => label.rank(),
    }
}

/// Tells how many messages there are.
fn put_count(out: &mut String, count: usize) -> Result<(), AllocError> {
    let noun = if count == 1 { "message" } else { "messages" };
    write!(out, "{count} {noun}")
}

/// Tells a communicator that isn't 0.
fn put_communicator(out: &mut String, communicator: u32) -> Result<(), AllocError> {
    if communicator == 0 {
        return Ok(());
    }
    write!(out, " on communicator {communicator}")
}

/// Tells the lines of the calls at these places, each once, and of many the first ones.
fn put_lines(out: &mut String, calls: Calls<'_>, places: &[usize]) -> Result<(), AllocError> {
    let mut told: usize = 0;
    let mut last: usize = 0;
    for call in places {
        let line = match calls.labels.get(*call) {
            None => 0,
            Some(label) => label.line(),
        };
        if line != last {
            if told > 0 {
                out.push_str(", ")?;
            }
            if told == calls.most {
                return out.push_str("..");
            }
            write!(out, "{line}")?;
            told = told.saturating_add(1);
        }
        last = line;
    }
    Ok(())
}

/// Tells who sends how many messages, with which tag, to whom.
fn put_sent(
    out: &mut String,
    calls: Calls<'_>,
    sends: &[usize],
    message: &Message,
) -> Result<(), AllocError> {
    let first = sends.first().copied().unwrap_or(0);
    let rank = rank_of(calls, first);
    if are_of_one_rank(calls, sends, first) {
        write!(out, "  rank {rank} sends ")?;
    } else {
        out.push_str("  several ranks send ")?;
    }
    put_count(out, sends.len())?;
    if have_tag(calls, sends, message.tag) {
        let tag = message.tag;
        write!(out, " with tag {tag}")?;
    }
    put_communicator(out, message.communicator)?;
    let destination = message.destination;
    write!(out, " to rank {destination}, which receives ")
}

/// Tells who receives how many messages, with which tag, of whom, that nobody sends.
fn put_taken(
    out: &mut String,
    calls: Calls<'_>,
    takers: &[usize],
    pattern: &Pattern,
) -> Result<(), AllocError> {
    let rank = rank_of(calls, takers.first().copied().unwrap_or(0));
    write!(out, "  rank {rank} receives ")?;
    put_count(out, takers.len())?;
    if let Some(tag) = pattern.tag {
        write!(out, " with tag {tag}")?;
    }
    put_communicator(out, pattern.communicator)?;
    match pattern.source {
        None => out.push_str(" of any source, and nobody sends any"),
        Some(source) => write!(out, " of rank {source}, which sends none"),
    }
}

/// Tells the lines of one side, or of both.
fn put_places(out: &mut String, calls: Calls<'_>, sides: &Imbalance) -> Result<(), AllocError> {
    let many = sides.sends.len().saturating_add(sides.takers.len()) > 1;
    out.push_str(if many { ": lines " } else { ": line " })?;
    put_lines(out, calls, &sides.sends)?;
    if !sides.sends.is_empty() && !sides.takers.is_empty() {
        out.push_str(" and ")?;
    }
    put_lines(out, calls, &sides.takers)?;
    out.push('\n')
}

/// Tells a channel whose sends and receives differ in number, with the lines of both.
pub fn put_balance(
    out: &mut String,
    calls: Calls<'_>,
    sides: &Imbalance,
) -> Result<(), AllocError> {
    match (message_of(calls, sides), pattern_of(calls, sides)) {
        (Some(message), _) => {
            put_sent(out, calls, &sides.sends, &message)?;
            let count = sides.takers.len();
            if count == 0 {
                out.push_str("none")?;
            } else {
                write!(out, "{count}")?;
            }
        }
        (None, Some(pattern)) => put_taken(out, calls, &sides.takers, &pattern)?,
        (None, None) => return Ok(()),
    }
    put_places(out, calls, sides)
}
