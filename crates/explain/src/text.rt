//! The text that explains a deadlock.

ghost use Rattle.std.specs.Prelude.{◌≡◌, IfOk};
ghost use Rattle.semantics.specs.Machine.{IsStuckRun};
ghost use Rattle.frequency.specs.Frequencies.{IsFrequency};
ghost use Rattle.explain.specs.Often.{TellsBelow, always_line, often_line};

use crate::alike::{AlikeRanks, groups_of};
use crate::balancing::{Calls, put_balance};
use crate::needing::put_need;
use crate::wording::{put_call_of, put_line, put_number_of, put_numbers};
use callorder::LongProgram;
use calltext::{LongSource, Policy};
use frequency::Frequency;
use scene::{MOST_OF_LARGE, Parting, RunChoice, Scene, choices_of, needed, parting_of, scene_of};
use semantics::Step;
use std::alloc::{AllocError, Global};
use waits::{Standing, fitting, operation_of};

/// The heading of channels that don't balance.
const BALANCE: &str = "sends and receives that differ in number:";

/// The most ranks, and the most messages, that a list tells.
pub const MOST_TOLD: usize = 8;

/// The most ranks that wait alike and are told each.
const MOST_ALIKE: usize = 3;

/// The most parts of a list of ranks: a rank, or a row of them.
const MOST_PARTS: usize = 6;

/// The most messages that are named where a wildcard took another one.
const MOST_RIVALS: usize = 3;

/// Tells how many there are beyond those that a list tells at most, if there are more.
fn put_more(out: &mut String, most: usize, count: usize) -> Result<(), AllocError> {
    let more = count.saturating_sub(most);
    if more == 0 {
        return Ok(());
    }
    writeln!(out, "  and {more} more")
}

/// Tells, behind a list on one line, how many there are beyond those that it tells at most, if
/// there are more.
fn put_more_behind(out: &mut String, most: usize, count: usize) -> Result<(), AllocError> {
    let more = count.saturating_sub(most);
    if more == 0 {
        return Ok(());
    }
    write!(out, " and {more} more")
}

/// Tells which call of the next rank would end what a rank of a cycle waits for.
fn put_needed(
    out: &mut String,
    scene: &Scene<'_>,
    rank: u32,
    operation: usize,
    next: u32,
) -> Result<(), AllocError> {
    let Some(needed) = needed(scene.program, &scene.state, operation, next) else {
        return Ok(());
    };
    out.push_str(if scene.awaited_by(rank).len() > 1 {
        ", which needs one of several, as "
    } else {
        ", which needs "
    })?;
    put_line(out, scene, needed)?;
    write!(out, " of rank {next}; not reached")
}

/// Tells in which call a rank of a cycle waits, and what that needs of the next rank.
fn put_link(out: &mut String, scene: &Scene<'_>, rank: u32, next: u32) -> Result<(), AllocError> {
    let Standing::Waits { call } = scene.standing(rank) else {
        return Ok(());
    };
    let operation = operation_of(scene.program, call);
    write!(out, "rank {rank} waits in ")?;
    put_line(out, scene, call)?;
    if !scene.are_in_one_line(call, operation) {
        out.push_str(" for ")?;
        put_line(out, scene, operation)?;
    }
    put_needed(out, scene, rank, operation, next)?;
    out.push('\n')
}

/// Tells the links of the cycle from one place up to another, in a line for each.
fn put_links(
    out: &mut String,
    scene: &Scene<'_>,
    from: usize,
    to: usize,
) -> Result<(), AllocError> {
    let ranks = &scene.cycle;
    for place in from..to.min(ranks.len()) {
        let rank = ranks[place];
        out.push_str(if place == 0 { "cycle: " } else { "       " })?;
        put_link(out, scene, rank, scene.next_at(place).unwrap_or(rank))?;
    }
    Ok(())
}

/// Tells the cycle of a large program: whole where it is short, else its first links and its last
/// ones.
fn put_long_cycle(out: &mut String, scene: &Scene<'_>) -> Result<(), AllocError> {
    let count = scene.cycle.len();
    if count <= MOST_OF_LARGE {
        return put_links(out, scene, 0, count);
    }
    put_links(out, scene, 0, MOST_TOLD)?;
    let more = count.saturating_sub(MOST_OF_LARGE);
    writeln!(out, "       and {more} more ranks")?;
    put_links(out, scene, count.saturating_sub(MOST_TOLD), count)
}

/// Tells a cycle of ranks that wait for one another, if there is one, in a line for each of its
/// ranks.
fn put_cycle(out: &mut String, scene: &Scene<'_>) -> Result<(), AllocError> {
    if scene.large && !scene.whole {
        return put_long_cycle(out, scene);
    }
    let most = scene.most(MOST_TOLD);
    put_links(out, scene, 0, most)?;
    put_more(out, most, scene.cycle.len())
}

/// Tells calls by their numbers, parted by commas, and of many how many more there are.
fn put_rivals(out: &mut String, scene: &Scene<'_>, rivals: &[usize]) -> Result<(), AllocError> {
    let most = scene.most(MOST_RIVALS);
    for (place, rival) in rivals.iter().take(most).enumerate() {
        if place > 0 {
            out.push_str(", ")?;
        }
        put_number_of(out, scene, *rival)?;
    }
    put_more_behind(out, most, rivals.len())
}

/// Tells that a receive or matched probe took the message of a send, or that a probe saw it, and
/// begins a line below.
fn put_finding(
    out: &mut String,
    scene: &Scene<'_>,
    finder: usize,
    send: usize,
) -> Result<(), AllocError> {
    out.push_str("  ")?;
    put_call_of(out, scene, finder)?;
    out.push_str(if scene.program.is_probe(finder) {
        " saw the message of "
    } else {
        " took the message of "
    })?;
    put_call_of(out, scene, send)?;
    out.push_str("\n    ")
}

/// Tells a choice.
fn put_choice(out: &mut String, scene: &Scene<'_>, choice: &RunChoice) -> Result<(), AllocError> {
    match choice {
        RunChoice::Buffered { send, .. } => {
            out.push_str("  ")?;
            put_call_of(out, scene, *send)?;
            out.push_str(" was buffered\n")
        }
        RunChoice::Found {
            send,
            finder,
            rivals,
            ..
        } => {
            put_finding(out, scene, *finder, *send)?;
            put_rivals(out, scene, rivals)?;
            out.push_str(" fitted too\n")
        }
    }
}

/// Tells what the steps decided, in their order.
fn choices_text(
    alloc: Global,
    scene: &Scene<'_>,
    choices: &[RunChoice],
) -> Result<String, AllocError> {
    let mut out = String::new(alloc);
    let most = scene.most_of_large();
    for choice in choices.iter().take(most) {
        put_choice(&mut out, scene, choice)?;
    }
    put_more(&mut out, most, choices.len())?;
    Ok(out)
}

/// The first receive or matched probe behind a probe, in its rank, that the send fits, if there is
/// one.
fn next_taker(program: &LongProgram, send: usize, probe: usize) -> Option<usize> {
    for call in probe..program.calls().len() {
        if !program.are_of_one_rank(call, probe) {
            return None;
        }
        if program.takes(send, call) {
            return Some(call);
        }
    }
    None
}

/// The send whose message a probe saw, and the receive or matched probe that stands behind it to
/// take that message, with the send of the other message that it took.
fn exchange_of(scene: &Scene<'_>, probe: usize) -> Option<(usize, usize, usize)> {
    if !scene.program.is_probe(probe) {
        return None;
    }
    let send = scene.state.partner(probe)?;
    let taker = next_taker(scene.program, send, probe)?;
    let other = scene.state.partner(taker)?;
    if other == send {
        None
    } else {
        Some((send, taker, other))
    }
}

/// Tells that a receive or matched probe took another message than the one that a probe before it
/// saw.
fn put_exchange(
    out: &mut String,
    scene: &Scene<'_>,
    probe: usize,
    exchange: (usize, usize, usize),
) -> Result<(), AllocError> {
    let (send, taker, other) = exchange;
    put_finding(out, scene, taker, other)?;
    put_number_of(out, scene, probe)?;
    out.push_str(" had seen the message of ")?;
    put_number_of(out, scene, send)?;
    out.push('\n')
}

/// Tells the receives and matched probes that took another message than the one that a probe right
/// before them, among the calls of their rank that the message fits, had seen.
fn exchanges(alloc: Global, scene: &Scene<'_>) -> Result<String, AllocError> {
    let mut out = String::new(alloc);
    let most = scene.most_of_large();
    let mut told: usize = 0;
    for place in 0..scene.labels.len() {
        if let Some(exchange) = exchange_of(scene, place) {
            if told < most {
                put_exchange(&mut out, scene, place, exchange)?;
            }
            told = told.saturating_add(1);
        }
    }
    put_more(&mut out, most, told)?;
    Ok(out)
}

/// Tells in which call a rank waits, the operation that it waits for, where that is another call's,
/// and what this needs.
fn put_waiting(
    out: &mut String,
    alloc: Global,
    scene: &Scene<'_>,
    rank: u32,
    call: usize,
) -> Result<(), AllocError> {
    write!(out, "  rank {rank} waits in ")?;
    put_line(out, scene, call)?;
    let operation = operation_of(scene.program, call);
    if !scene.are_in_one_line(call, operation) {
        out.push_str(" for ")?;
        put_line(out, scene, operation)?;
    }
    out.push('\n')?;
    put_need(out, alloc, scene, call)
}

/// Tells where a rank stands that isn't finished, and for what it waits.
fn put_standing(
    out: &mut String,
    alloc: Global,
    scene: &Scene<'_>,
    rank: u32,
) -> Result<(), AllocError> {
    match scene.standing(rank) {
        Standing::Finished => Ok(()),
        Standing::Ready => writeln!(out, "  rank {rank} could go on"),
        Standing::Waits { call } => put_waiting(out, alloc, scene, rank, call),
    }
}

/// Tells where ranks stand that wait alike: each, where they are few, and else the first one.
fn put_group(
    out: &mut String,
    alloc: Global,
    scene: &Scene<'_>,
    group: &AlikeRanks,
) -> Result<(), AllocError> {
    let count = group.ranks.len();
    if count > scene.most(MOST_ALIKE) {
        write!(out, "  {count} ranks (")?;
        put_numbers(out, &group.ranks, MOST_PARTS)?;
        out.push_str(") wait in the same way; the first:\n")?;
        return put_standing(out, alloc, scene, group.first);
    }
    for rank in &group.ranks {
        put_standing(out, alloc, scene, *rank)?;
    }
    Ok(())
}

/// Tells where the ranks stand that aren't finished, of those that wait for nobody, or of the
/// others; those that wait alike together.
fn standings(alloc: Global, scene: &Scene<'_>, lack: bool) -> Result<String, AllocError> {
    let mut out = String::new(alloc);
    let most = scene.most(MOST_TOLD);
    let groups = groups_of(alloc, scene, lack)?;
    for group in groups.iter().take(most) {
        put_group(&mut out, alloc, scene, group)?;
    }
    let mut more: usize = 0;
    for group in groups.iter().skip(most) {
        more = more.saturating_add(group.ranks.len());
    }
    if more > 0 {
        writeln!(out, "  and {more} more ranks")?;
    }
    Ok(out)
}

/// Tells the ranks that are finished, on one line.
fn put_finished(out: &mut String, scene: &Scene<'_>) -> Result<(), AllocError> {
    let most = scene.most_of_large();
    let mut before = "  finished: ";
    let mut count: usize = 0;
    for rank in 0..scene.program.ranks() {
        if scene.standing(rank) == Standing::Finished {
            if count < most {
                write!(out, "{before}rank {rank}")?;
                before = ", ";
            }
            count = count.saturating_add(1);
        }
    }
    put_more_behind(out, most, count)?;
    if count > 0 {
        out.push('\n')?;
    }
    Ok(())
}

/// Tells why a rank that waits in this call waits for nobody.
fn put_nobody(
    out: &mut String,
    alloc: Global,
    scene: &Scene<'_>,
    call: usize,
) -> Result<(), AllocError> {
    let candidates = fitting(alloc, scene.program, operation_of(scene.program, call))?;
    out.push_str(if candidates.is_empty() {
        "nobody: nothing fits"
    } else {
        "nobody: all that fitted is gone"
    })
}

/// Tells a rank for which this one waits.
fn put_rank(out: &mut String, rank: u32, waiting: u32) -> Result<(), AllocError> {
    if rank == waiting {
        out.push_str("itself")
    } else {
        write!(out, "rank {rank}")
    }
}

/// Tells the ranks, parted by commas, for which this one waits; any of several is enough.
fn put_ranks(out: &mut String, scene: &Scene<'_>, waiting: u32) -> Result<(), AllocError> {
    let ranks = scene.awaited_by(waiting);
    let most = scene.most_of_large();
    if ranks.len() > 1 {
        out.push_str("any of ")?;
    }
    for (place, rank) in ranks.iter().take(most).enumerate() {
        if place > 0 {
            out.push_str(", ")?;
        }
        put_rank(out, *rank, waiting)?;
    }
    put_more_behind(out, most, ranks.len())
}

/// Tells for whom a rank waits that waits in this call.
fn put_awaited(
    out: &mut String,
    alloc: Global,
    scene: &Scene<'_>,
    rank: u32,
    call: usize,
) -> Result<(), AllocError> {
    write!(out, "  rank {rank} waits for ")?;
    if scene.awaited_by(rank).is_empty() {
        put_nobody(out, alloc, scene, call)?;
    } else {
        put_ranks(out, scene, rank)?;
    }
    out.push('\n')
}

/// Tells for whom each rank waits.
fn waiters(alloc: Global, scene: &Scene<'_>) -> Result<String, AllocError> {
    let mut out = String::new(alloc);
    let most = scene.most(MOST_TOLD);
    let mut told: usize = 0;
    for rank in 0..scene.program.ranks() {
        if let Standing::Waits { call } = scene.standing(rank) {
            if told < most {
                put_awaited(&mut out, alloc, scene, rank, call)?;
            }
            told = told.saturating_add(1);
        }
    }
    put_more(&mut out, most, told)?;
    Ok(out)
}

/// Tells a send whose message nobody received, and the matched probe that found it, if one did.
fn put_message(out: &mut String, scene: &Scene<'_>, send: usize) -> Result<(), AllocError> {
    out.push_str("  ")?;
    put_call_of(out, scene, send)?;
    if let Some(probe) = scene.state.partner(send) {
        out.push_str(", found by ")?;
        put_number_of(out, scene, probe)?;
    }
    out.push('\n')
}

/// Tells the messages that are sent and that nobody received.
fn messages(alloc: Global, scene: &Scene<'_>) -> Result<String, AllocError> {
    let mut out = String::new(alloc);
    let most = scene.most(MOST_TOLD);
    let mut told: usize = 0;
    for place in 0..scene.labels.len() {
        if scene.is_unreceived(place) {
            if told < most {
                put_message(&mut out, scene, place)?;
            }
            told = told.saturating_add(1);
        }
    }
    put_more(&mut out, most, told)?;
    Ok(out)
}

/// Adds a part below its heading, if there is something to tell.
fn put_part(out: &mut String, heading: &str, part: &String) -> Result<(), AllocError> {
    if part.is_empty() {
        return Ok(());
    }
    out.push_str(heading)?;
    out.push('\n')?;
    out.push_str(part.as_str())
}

/// Tells the channels whose messages and receives differ in number: those of which a rank waits for
/// a call, or the others.
fn balance(alloc: Global, scene: &Scene<'_>, awaited: bool) -> Result<String, AllocError> {
    let mut out = String::new(alloc);
    let most = scene.most(MOST_TOLD);
    let mut told: usize = 0;
    for sides in &scene.imbalances {
        if scene.is_awaited(sides) == awaited {
            if told < most {
                put_balance(&mut out, Calls::of(scene), sides)?;
            }
            told = told.saturating_add(1);
        }
    }
    put_more(&mut out, most, told)?;
    Ok(out)
}

/// Tells what the deadlock comes from.
fn put_cause(
    out: &mut String,
    alloc: Global,
    scene: &Scene<'_>,
    lacks: &String,
) -> Result<(), AllocError> {
    put_part(out, BALANCE, &balance(alloc, scene, true)?)?;
    put_cycle(out, scene)?;
    put_part(out, "what can't come:", lacks)
}

/// Tells what is known of the end of the run; `other` is whether some ranks are told before.
fn put_end(
    out: &mut String,
    alloc: Global,
    scene: &Scene<'_>,
    other: bool,
) -> Result<(), AllocError> {
    let heading = "receives that took another message than a probe saw:";
    put_part(out, heading, &exchanges(alloc, scene)?)?;
    let heading = if other {
        "where the other ranks stand:"
    } else {
        "where each rank stands:"
    };
    let mut standings = standings(alloc, scene, false)?;
    put_finished(&mut standings, scene)?;
    put_part(out, heading, &standings)?;
    put_part(out, "who waits for whom:", &waiters(alloc, scene)?)?;
    let heading = "messages that nobody received:";
    put_part(out, heading, &messages(alloc, scene)?)?;
    put_part(out, BALANCE, &balance(alloc, scene, false)?)
}

/// That the deadlock comes in every run that the program's policy allows.
fn always_line(policy: Policy) -> &'static str
    ensures { result.now ≡ always_line policy }
{
    match policy {
        Policy::Any => "deadlock in every run (proved)\n",
        Policy::Never => "deadlock in every run with policy none (proved)\n",
        Policy::Always => "deadlock in every run with policy all (proved)\n",
    }
}

/// The first line of a text on a deadlock, which says whether it comes in every run.
fn often_line(policy: Policy, frequency: &Frequency) -> &'static str
    ensures { result.now ≡ often_line policy frequency.now }
{
    match frequency {
        Frequency::Always => always_line(policy),
        Frequency::Sometimes(_) => "deadlock in some runs; others end well\n",
        Frequency::Unknown => {
            "deadlock in every run that was tried; whether others end well isn't known\n"
        }
    }
}

/// The parts of a text below its first line.
fn below_line(
    alloc: Global,
    line: &str,
    front: &str,
    decided: &str,
    back: &str,
) -> Result<Vec<u8>, AllocError>
    ensures { IfOk result (λ told. TellsBelow line.now decided.now told.items) }
{
    let mut told = Vec::from_slice(alloc, line.as_bytes())?;
    told.extend_from_slice(front.as_bytes())?;
    told.extend_from_slice(decided.as_bytes())?;
    told.extend_from_slice(back.as_bytes())?;
    Ok(told)
}

/// Tells where the run parts from one that ends well.
fn put_parting(
    out: &mut String,
    scene: &Scene<'_>,
    parting: Option<Parting>,
) -> Result<(), AllocError> {
    out.push_str("where they part first:\n  ")?;
    match parting {
        None => out.push_str("the order of the steps alone\n"),
        Some(Parting::Buffered { send, first }) => {
            put_call_of(out, scene, send)?;
            out.push_str(if first {
                " is buffered here, and not in a run that ends well\n"
            } else {
                " isn't buffered here, and is in a run that ends well\n"
            })
        }
        Some(
            Parting::Found {
                finder,
                send,
                other,
            },
        ) => {
            put_call_of(out, scene, finder)?;
            out.push_str(" finds the message of ")?;
            put_call_of(out, scene, send)?;
            out.push_str("\n    and that of ")?;
            put_call_of(out, scene, other)?;
            out.push_str(" in a run that ends well\n")
        }
    }
}

/// Tells where the run first parts from one that ends well, where there is such a one.
fn put_parting_from(
    out: &mut String,
    alloc: Global,
    scene: &Scene<'_>,
    program: &LongProgram,
    steps: &[Step],
    frequency: &Frequency,
) -> Result<(), AllocError>
    requires stuck { IsStuckRun program.now steps.now }
    requires frequency { IsFrequency program.now frequency.now }
{
    let Frequency::Sometimes(others) = frequency else {
        return Ok(());
    };
    let parting = parting_of(alloc, scene, program, steps, others)?;
    put_parting(out, scene, parting)
}

/// What stands below the first line, and above what decided the run.
fn front_of(
    alloc: Global,
    scene: &Scene<'_>,
    program: &LongProgram,
    steps: &[Step],
    frequency: &Frequency,
    lacks: &String,
) -> Result<String, AllocError>
    requires stuck { IsStuckRun program.now steps.now }
    requires frequency { IsFrequency program.now frequency.now }
{
    let count = steps.len();
    let noun = if count == 1 { "step" } else { "steps" };
    let mut out = format!(in alloc; "deadlock after {count} {noun}\n")?;
    put_parting_from(&mut out, alloc, scene, program, steps, frequency)?;
    put_cause(&mut out, alloc, scene, lacks)?;
    Ok(out)
}

/// What stands below what decided the run: what the steps decided, and the end; `other` is whether
/// some ranks are told before.
fn back_of(
    alloc: Global,
    scene: &Scene<'_>,
    choices: &[RunChoice],
    other: bool,
) -> Result<String, AllocError> {
    let mut out = String::new(alloc);
    let heading = "choices on the way:";
    put_part(&mut out, heading, &choices_text(alloc, scene, choices)?)?;
    put_end(&mut out, alloc, scene, other)?;
    Ok(out)
}

/// The text, in plain ASCII, that explains a run of a program that ends stuck: whether every run
/// does that the policy allows, as `frequency` tells, and where some end well, where the run first
/// parts from such a one;
/// channels whose sends and receives differ in number; a cycle of ranks that wait for one another,
/// and the ranks for which nothing can come; then `decided`, a text on what decided it; the choices
/// on the way; receives that took another message than a probe before them saw; where the other
/// ranks stand and for what they wait; who waits for whom; and which messages nobody received. Long
/// lists are cut, and told by their number, unless each is wanted whole. `text` is the program's
/// text, `source` what it says, and `program` its calls. The only error is want of memory.
pub fn explanation(
    alloc: Global,
    text: &[u8],
    source: &LongSource,
    program: &LongProgram,
    steps: &[Step],
    frequency: &Frequency,
    decided: &str,
    whole: bool,
) -> Result<Vec<u8>, AllocError>
    requires stuck { IsStuckRun program.now steps.now }
    requires frequency { IsFrequency program.now frequency.now }
    ensures { IfOk result (λ told. TellsBelow (often_line program.now.policy frequency.now) decided.now told.items) }
{
    let scene = scene_of(alloc, text, source, program, steps, whole)?;
    let choices = choices_of(alloc, program, steps)?;
    let lacks = standings(alloc, &scene, true)?;
    let front = front_of(alloc, &scene, program, steps, frequency, &lacks)?;
    let back = back_of(alloc, &scene, &choices, !lacks.is_empty())?;
    let line = often_line(program.policy(), frequency);
    below_line(alloc, line, front.as_str(), decided, back.as_str())
}
