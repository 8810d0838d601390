//! What a rank that waits needs, as a text tells it: the calls that could end its wait, what became
//! of them, and near misses.

use crate::text::MOST_TOLD;
use crate::wording::{put_call_of, put_line, put_number_of};
use callorder::{LongProgram, Message, Pattern};
use scene::Scene;
use std::alloc::{AllocError, Global};
use waits::{Fate, Mismatch, Need, Standing, fate_of, fitting, misses_in, need_of, operation_of};

/// The most calls of one rank that are told one by one, of those that are reached and of those that
/// aren't.
const MOST_CALLS: usize = 3;

/// The most near misses of one call that are told.
pub const MOST_MISSES: usize = 2;

/// Whether the call is a send.
fn is_send(program: &LongProgram, call: usize) -> bool {
    match program.call(call) {
        None => false,
        Some(known) => known.kind.message().is_some(),
    }
}

/// Tells in which call the rank of a call waits, if it does.
fn put_where(out: &mut String, scene: &Scene<'_>, call: usize) -> Result<(), AllocError> {
    let Some(label) = scene.labels.get(call) else {
        return Ok(());
    };
    let rank = label.rank();
    let Standing::Waits { call } = scene.standing(rank) else {
        return Ok(());
    };
    let Some(label) = scene.labels.get(call) else {
        return Ok(());
    };
    let line = label.line();
    write!(out, "rank {rank} waits in line {line}")
}

/// Tells by which call a call that fits is taken, or which message it took.
fn put_taken(
    out: &mut String,
    scene: &Scene<'_>,
    call: usize,
    other: usize,
) -> Result<(), AllocError> {
    out.push_str(if is_send(scene.program, call) {
        "taken by "
    } else {
        "took the message of "
    })?;
    put_number_of(out, scene, other)
}

/// Tells a call that fits, and what became of it.
fn put_candidate(out: &mut String, scene: &Scene<'_>, call: usize) -> Result<(), AllocError> {
    out.push_str("    ")?;
    put_call_of(out, scene, call)?;
    out.push_str(": ")?;
    match fate_of(scene.program, &scene.state, call) {
        Fate::Taken(other) => put_taken(out, scene, call, other)?,
        Fate::NotIssued => {
            out.push_str("not reached: ")?;
            put_where(out, scene, call)?;
        }
        Fate::Open => out.push_str("not matched yet")?,
    }
    out.push('\n')
}

/// Tells many calls of one rank that fit by their number and their lines.
fn put_folded(
    out: &mut String,
    scene: &Scene<'_>,
    calls: &[usize],
    reached: bool,
) -> Result<(), AllocError> {
    let (Some(first), Some(last)) = (calls.first(), calls.last()) else {
        return Ok(());
    };
    let (Some(from), Some(to)) = (scene.labels.get(*first), scene.labels.get(*last)) else {
        return Ok(());
    };
    let count = calls.len();
    let noun = if is_send(scene.program, *first) {
        "sends"
    } else {
        "receives"
    };
    let rank = from.rank();
    write!(out, "    {count} {noun} of rank {rank} would match ")?;
    let (from, to) = (from.line(), to.line());
    write!(out, "(lines {from} to {to}), ")?;
    if reached {
        return out.push_str("all taken\n");
    }
    out.push_str("none reached: ")?;
    put_where(out, scene, *first)?;
    out.push('\n')
}

/// The calls among these that are reached, or those that aren't.
fn of_fate(
    alloc: Global,
    scene: &Scene<'_>,
    calls: &[usize],
    reached: bool,
) -> Result<Vec<usize>, AllocError> {
    let mut found = Vec::new(alloc);
    for call in calls {
        let is_reached = fate_of(scene.program, &scene.state, *call) != Fate::NotIssued;
        if is_reached == reached {
            found.push(*call)?;
        }
    }
    Ok(found)
}

/// Tells these calls of one rank, one by one where they are few.
fn put_calls(
    out: &mut String,
    scene: &Scene<'_>,
    calls: &[usize],
    reached: bool,
) -> Result<(), AllocError> {
    if calls.len() > scene.most(MOST_CALLS) {
        return put_folded(out, scene, calls, reached);
    }
    for call in calls {
        put_candidate(out, scene, *call)?;
    }
    Ok(())
}

/// Tells these calls, which are of one rank.
fn put_of_rank(
    out: &mut String,
    alloc: Global,
    scene: &Scene<'_>,
    calls: &[usize],
) -> Result<(), AllocError> {
    let taken = of_fate(alloc, scene, calls, true)?;
    let ahead = of_fate(alloc, scene, calls, false)?;
    put_calls(out, scene, &taken, true)?;
    put_calls(out, scene, &ahead, false)
}

/// Whether the call at a place of a list, which is in rank order, is the first of its rank there.
fn begins_rank(program: &LongProgram, calls: &[usize], place: usize) -> bool {
    if place == 0 {
        return true;
    }
    match (calls.get(place - 1), calls.get(place)) {
        (Some(before), Some(call)) => !program.are_of_one_rank(*before, *call),
        _ => true,
    }
}

/// The calls of a list from this place on, up to the first of another rank.
fn of_one_rank<'a>(program: &LongProgram, calls: &'a [usize], place: usize) -> &'a [usize] {
    let (_earlier, later) = calls.split_at(place.min(calls.len()));
    let count = later
        .iter()
        .take_while(|other| program.are_of_one_rank(later[0], **other))
        .count();
    let (own, _others) = later.split_at(count.min(later.len()));
    own
}

/// Tells of how many ranks beyond those that a list tells calls fit, if there are more.
fn put_other_ranks(out: &mut String, scene: &Scene<'_>, count: usize) -> Result<(), AllocError> {
    let more = count.saturating_sub(scene.most(MOST_TOLD));
    if more == 0 {
        return Ok(());
    }
    let noun = if more == 1 { "rank" } else { "ranks" };
    writeln!(out, "    and calls of {more} more {noun}")
}

/// Tells the calls that fit with an operation, and what became of them.
fn put_candidates(
    out: &mut String,
    alloc: Global,
    scene: &Scene<'_>,
    operation: usize,
) -> Result<(), AllocError> {
    let calls = fitting(alloc, scene.program, operation)?;
    if calls.is_empty() {
        return out.push_str(if is_send(scene.program, operation) {
            "    no receive or matched probe of the program fits\n"
        } else {
            "    no send of the program fits\n"
        });
    }
    let mut ranks: usize = 0;
    for place in 0..calls.len() {
        if begins_rank(scene.program, &calls, place) {
            if ranks < scene.most(MOST_TOLD) {
                let own = of_one_rank(scene.program, &calls, place);
                put_of_rank(out, alloc, scene, own)?;
            }
            ranks = ranks.saturating_add(1);
        }
    }
    put_other_ranks(out, scene, ranks)
}

/// Tells what a send does, as far as a part is concerned.
fn put_sent(out: &mut String, message: &Message, part: Mismatch) -> Result<(), AllocError> {
    match part {
        Mismatch::Destination => {
            let destination = message.destination;
            write!(out, "sends to rank {destination}")
        }
        Mismatch::Communicator => {
            let communicator = message.communicator;
            write!(out, "sends on communicator {communicator}")
        }
        Mismatch::Source => out.push_str("sends"),
        Mismatch::Tag => {
            let tag = message.tag;
            write!(out, "sends tag {tag}")
        }
    }
}

/// Tells the number that a part of a pattern wants, if it wants one.
fn put_wanted(out: &mut String, front: &str, number: Option<u32>) -> Result<(), AllocError> {
    let Some(number) = number else {
        return Ok(());
    };
    out.push_str(front)?;
    write!(out, "{number}")
}

/// Tells what a receive, a matched probe or a probe does, as far as a part is concerned.
fn put_looked_for(out: &mut String, pattern: &Pattern, part: Mismatch) -> Result<(), AllocError> {
    match part {
        Mismatch::Destination => out.push_str("waits"),
        Mismatch::Communicator => put_wanted(
            out,
            "waits on communicator ",
            Some(pattern.communicator),
        ),
        Mismatch::Source => put_wanted(out, "waits for rank ", pattern.source),
        Mismatch::Tag => put_wanted(out, "waits for tag ", pattern.tag),
    }
}

/// Tells the rank of a call, what the call does, as far as a part is concerned, and its line.
fn put_side(
    out: &mut String,
    scene: &Scene<'_>,
    call: usize,
    part: Mismatch,
) -> Result<(), AllocError> {
    let (Some(known), Some(label)) = (scene.program.call(call), scene.labels.get(call)) else {
        return Ok(());
    };
    let rank = label.rank();
    write!(out, "rank {rank} ")?;
    if let Some(message) = known.kind.message() {
        put_sent(out, &message, part)?;
    }
    if let Some(pattern) = known.kind.pattern() {
        put_looked_for(out, &pattern, part)?;
    }
    let line = label.line();
    write!(out, " (line {line})")
}

/// Tells how a call misses an operation that waits.
fn put_miss(
    out: &mut String,
    scene: &Scene<'_>,
    operation: usize,
    other: usize,
) -> Result<(), AllocError> {
    let Some(part) = misses_in(scene.program, operation, other) else {
        return Ok(());
    };
    out.push_str("    near miss: ")?;
    put_side(out, scene, other, part)?;
    out.push_str(", ")?;
    put_side(out, scene, operation, part)?;
    out.push('\n')
}

/// Whether the two calls were told as a near miss before: both are waited for, and the other one by
/// an earlier rank, of which nothing else is told than of this one.
fn is_told_before(scene: &Scene<'_>, operation: usize, other: usize) -> bool {
    let (Some(own), Some(label)) = (scene.labels.get(operation), scene.labels.get(other)) else {
        return false;
    };
    if label.rank() >= own.rank() || scene.lacks(label.rank()) != scene.lacks(own.rank()) {
        return false;
    }
    match scene.standing(label.rank()) {
        Standing::Waits { call } => operation_of(scene.program, call) == other,
        Standing::Finished | Standing::Ready => false,
    }
}

/// Tells the first near misses of an operation, if there are any.
fn put_misses(
    out: &mut String,
    alloc: Global,
    scene: &Scene<'_>,
    operation: usize,
) -> Result<(), AllocError> {
    let likely = scene.likely_misses(alloc, operation)?;
    for other in likely.iter().take(scene.most(MOST_MISSES)) {
        if !is_told_before(scene, operation, *other) {
            put_miss(out, scene, operation, *other)?;
        }
    }
    Ok(())
}

/// Tells by which matched probe a send was found, and where its receive stands.
fn put_fetch(
    out: &mut String,
    scene: &Scene<'_>,
    operation: usize,
    receive: usize,
) -> Result<(), AllocError> {
    let Some(probe) = scene.state.partner(operation) else {
        return Ok(());
    };
    out.push_str("    matched with ")?;
    put_call_of(out, scene, probe)?;
    out.push_str("\n    whose receive, ")?;
    put_line(out, scene, receive)?;
    out.push_str(", is not reached: ")?;
    put_where(out, scene, receive)?;
    out.push('\n')
}

/// Tells what a rank that waits in a call needs: of a match the calls that fit, and those that miss
/// in one part alone where none is left that could match.
pub fn put_need(
    out: &mut String,
    alloc: Global,
    scene: &Scene<'_>,
    call: usize,
) -> Result<(), AllocError> {
    let operation = operation_of(scene.program, call);
    match need_of(scene.program, &scene.state, operation) {
        None => Ok(()),
        Some(Need::Match) => {
            put_candidates(out, alloc, scene, operation)?;
            put_misses(out, alloc, scene, operation)
        }
        Some(Need::Fetch { receive }) => put_fetch(out, scene, operation, receive),
    }
}
