//! The JSON object that explains a run which ends stuck.

ghost use Rattle.std.specs.Prelude.{◌≡◌, ◌++◌, IfOk, OnOk, map};
ghost use Rattle.semantics.specs.Machine.{IsStuckRun};
ghost use Rattle.frequency.specs.Frequencies.{IsFrequency};
ghost use Rattle.explain_json.specs.Objects.{AreDecided, IsJoined, IsObject, object_head, runs_word, verdict_member};

use callorder::LongProgram;
use calltext::LongSource;
use frequency::Frequency;
use scene::{CallLabel, Parting, RunChoice, Scene, choices_of, part_word, parting_of, scene_of};
use semantics::Step;
use serde::Serialize;
use serde_json::{Error, to_string};
use std::alloc::{AllocError, Global};
use waits::{Fate, Standing, fate_of, fitting, misses_in, operation_of};
use writing::{Part as TextPart, put_characters, put_parts};

/// A call as the program's text has it.
#[derive(Drop, Serialize)]
struct Line {
    call: usize,
    rank: u32,
    line: usize,
    words: String,
}

/// A call that fits, and what became of it.
#[derive(Clone, Copy, Serialize)]
struct Fit {
    call: usize,
    fate: &'static str,
    with: Option<usize>,
}

/// A call that misses in one part alone.
#[derive(Clone, Copy, Serialize)]
struct Miss {
    call: usize,
    part: &'static str,
}

/// Where a rank stands.
#[derive(Drop, Serialize)]
struct Rank {
    rank: u32,
    finished: bool,
    call: Option<usize>,
    operation: Option<usize>,
    waits_for: Vec<u32>,
    fits: Vec<Fit>,
    near_misses: Vec<Miss>,
}

/// A choice: a send that was buffered though the policy leaves that open, or which message a
/// wildcard took, or a probe saw, where others fitted too.
#[derive(Drop, Serialize)]
struct Decision {
    step: usize,
    kind: &'static str,
    call: usize,
    of: Option<usize>,
    others: Vec<usize>,
}

/// A choice that decided a run: a send that was buffered, or not, or a call that found a message.
#[derive(Clone, Copy, Serialize)]
pub struct ChoiceMade {
    /// `buffered`, `not buffered` or `finds`.
    pub kind: &'static str,
    /// The number of the call, from 1.
    pub call: usize,
    /// Its rank, from 0.
    pub rank: u32,
    /// Its line, from 1.
    pub line: usize,
    /// The rank whose message it finds.
    pub source: Option<u32>,
    /// The tag of that message.
    pub tag: Option<u32>,
}

/// A choice that decided a run, and what is known of it.
#[derive(Clone, Copy)]
pub struct Decider {
    /// The choice.
    pub choice: ChoiceMade,
    /// What is known of runs that do otherwise, in letters and signs that stand for themselves.
    pub verdict: &'static str,
}

/// All that decided a run.
#[derive(Drop)]
pub struct Deciders {
    /// What is known of them together.
    pub extent: &'static str,
    /// Each of them.
    pub choices: Vec<Decider>,
}

/// The numbers of the sends and the receives of a channel, which differ in how many they are.
#[derive(Drop, Serialize)]
struct Unbalanced {
    sends: Vec<usize>,
    receives: Vec<usize>,
}

/// Where the run first parts from one that ends well.
#[derive(Clone, Copy, Serialize)]
struct Part {
    kind: &'static str,
    call: usize,
    of: Option<usize>,
    other: Option<usize>,
}

/// What is told of a deadlock above the list of what decided it.
#[derive(Drop, Serialize)]
struct Above<'a> {
    steps: usize,
    calls: Vec<Line>,
    ranks: Vec<Rank>,
    cycle: Vec<u32>,
    extent: &'a str,
}

/// What is told below that list.
#[derive(Drop, Serialize)]
struct Below {
    choices: Vec<Decision>,
    parting: Option<Part>,
    unreceived: Vec<usize>,
    unbalanced: Vec<Unbalanced>,
}

/// The number of a call, or of a step, by its place.
fn number_of(place: usize) -> usize {
    place.saturating_add(1)
}

/// The line of a call.
fn line_of(alloc: Global, label: &CallLabel) -> Result<Line, AllocError> {
    let mut words = String::new(alloc);
    put_characters(&mut words, label.words())?;
    Ok(Line {
        call: label.number(),
        rank: label.rank(),
        line: label.line(),
        words,
    })
}

/// The lines of all calls, in their order.
fn lines_of(alloc: Global, scene: &Scene<'_>) -> Result<Vec<Line>, AllocError> {
    let mut lines = Vec::new(alloc);
    for label in &scene.labels {
        lines.push(line_of(alloc, label)?)?;
    }
    Ok(lines)
}

/// What became of a call that fits.
fn fit_of(scene: &Scene<'_>, call: usize) -> Fit {
    let (fate, with) = match fate_of(scene.program, &scene.state, call) {
        Fate::Taken(other) => ("taken", Some(number_of(other))),
        Fate::NotIssued => ("not reached", None),
        Fate::Open => ("not matched", None),
    };
    Fit {
        call: number_of(call),
        fate,
        with,
    }
}

/// The calls that fit with an operation.
fn fits_of(alloc: Global, scene: &Scene<'_>, operation: usize) -> Result<Vec<Fit>, AllocError> {
    let calls = fitting(alloc, scene.program, operation)?;
    calls.iter().map(|call| fit_of(scene, *call)).collect(alloc)
}

/// In which part a call misses an operation.
fn miss_of(scene: &Scene<'_>, operation: usize, call: usize) -> Miss {
    let part = match misses_in(scene.program, operation, call) {
        None => "none",
        Some(part) => part_word(part),
    };
    Miss {
        call: number_of(call),
        part,
    }
}

/// The near misses of an operation.
fn misses_of(alloc: Global, scene: &Scene<'_>, operation: usize) -> Result<Vec<Miss>, AllocError> {
    let likely = scene.likely_misses(alloc, operation)?;
    likely
        .iter()
        .map(|call| miss_of(scene, operation, *call))
        .collect(alloc)
}

/// A rank that waits for nothing, or is finished.
fn resting(alloc: Global, rank: u32, finished: bool) -> Rank {
    Rank {
        rank,
        finished,
        call: None,
        operation: None,
        waits_for: Vec::new(alloc),
        fits: Vec::new(alloc),
        near_misses: Vec::new(alloc),
    }
}

/// A rank that waits in a call.
fn waiting(alloc: Global, scene: &Scene<'_>, rank: u32, call: usize) -> Result<Rank, AllocError> {
    let operation = operation_of(scene.program, call);
    Ok(Rank {
        rank,
        finished: false,
        call: Some(number_of(call)),
        operation: Some(number_of(operation)),
        waits_for: Vec::from_slice(alloc, scene.awaited_by(rank))?,
        fits: fits_of(alloc, scene, operation)?,
        near_misses: misses_of(alloc, scene, operation)?,
    })
}

/// Where a rank stands.
fn rank_of(alloc: Global, scene: &Scene<'_>, rank: u32) -> Result<Rank, AllocError> {
    match scene.standing(rank) {
        Standing::Finished => Ok(resting(alloc, rank, true)),
        Standing::Ready => Ok(resting(alloc, rank, false)),
        Standing::Waits { call } => waiting(alloc, scene, rank, call),
    }
}

/// Where the ranks stand, in their order.
fn ranks_of(alloc: Global, scene: &Scene<'_>) -> Result<Vec<Rank>, AllocError> {
    let mut ranks = Vec::new(alloc);
    for rank in 0..scene.program.ranks() {
        ranks.push(rank_of(alloc, scene, rank)?)?;
    }
    Ok(ranks)
}

/// The numbers of calls by their places.
fn numbers_of(alloc: Global, places: &[usize]) -> Result<Vec<usize>, AllocError> {
    places.iter().map(|place| number_of(*place)).collect(alloc)
}

/// A choice of a run.
fn decision_of(
    alloc: Global,
    scene: &Scene<'_>,
    choice: &RunChoice,
) -> Result<Decision, AllocError> {
    match choice {
        RunChoice::Buffered { step, send } => Ok(Decision {
            step: number_of(*step),
            kind: "buffered",
            call: number_of(*send),
            of: None,
            others: Vec::new(alloc),
        }),
        RunChoice::Found {
            step,
            send,
            finder,
            rivals,
        } => Ok(Decision {
            step: number_of(*step),
            kind: if scene.program.is_probe(*finder) {
                "saw"
            } else {
                "took"
            },
            call: number_of(*finder),
            of: Some(number_of(*send)),
            others: numbers_of(alloc, rivals)?,
        }),
    }
}

/// The choices of a run, in the order of its steps.
fn decisions_of(
    alloc: Global,
    scene: &Scene<'_>,
    choices: &[RunChoice],
) -> Result<Vec<Decision>, AllocError> {
    let mut decisions = Vec::new(alloc);
    for choice in choices {
        decisions.push(decision_of(alloc, scene, choice)?)?;
    }
    Ok(decisions)
}

/// The numbers of the sends whose message was sent and that nobody received.
fn unreceived_of(alloc: Global, scene: &Scene<'_>) -> Result<Vec<usize>, AllocError> {
    let mut numbers = Vec::new(alloc);
    for place in 0..scene.labels.len() {
        if scene.is_unreceived(place) {
            numbers.push(number_of(place))?;
        }
    }
    Ok(numbers)
}

/// The channels whose sends and receives differ in number.
fn unbalanced_of(alloc: Global, scene: &Scene<'_>) -> Result<Vec<Unbalanced>, AllocError> {
    let mut unbalanced = Vec::new(alloc);
    for sides in &scene.imbalances {
        unbalanced.push(Unbalanced {
            sends: numbers_of(alloc, &sides.sends)?,
            receives: numbers_of(alloc, &sides.takers)?,
        })?;
    }
    Ok(unbalanced)
}

/// In which of the runs that the program's policy allows it gets stuck.
fn runs_word(frequency: &Frequency) -> &'static str
    ensures { result.now ≡ runs_word frequency.now }
{
    match frequency {
        Frequency::Always => "every",
        Frequency::Sometimes(_) => "some",
        Frequency::Unknown => "unknown",
    }
}

/// Where a run parts from another one.
fn part_of(parting: Parting) -> Part {
    match parting {
        Parting::Buffered { send, first } => Part {
            kind: if first { "buffered" } else { "not buffered" },
            call: number_of(send),
            of: None,
            other: None,
        },
        Parting::Found {
            finder,
            send,
            other,
        } => Part {
            kind: "finds",
            call: number_of(finder),
            of: Some(number_of(send)),
            other: Some(number_of(other)),
        },
    }
}

/// Where a run first parts from one that ends well, where there is such a one.
fn parting_from(
    alloc: Global,
    scene: &Scene<'_>,
    program: &LongProgram,
    steps: &[Step],
    frequency: &Frequency,
) -> Result<Option<Part>, AllocError>
    requires stuck { IsStuckRun program.now steps.now }
    requires frequency { IsFrequency program.now frequency.now }
{
    let Frequency::Sometimes(others) = frequency else {
        return Ok(None);
    };
    let parting = parting_of(alloc, scene, program, steps, others)?;
    Ok(parting.map(part_of))
}

/// What is told above the list of what decided a run.
fn above_list(
    alloc: Global,
    scene: &Scene<'_>,
    steps: &[Step],
    deciders: &Deciders,
) -> Result<Vec<u8>, AllocError> {
    let above = Above {
        steps: steps.len(),
        calls: lines_of(alloc, scene)?,
        ranks: ranks_of(alloc, scene)?,
        cycle: Vec::from_slice(alloc, &scene.cycle)?,
        extent: deciders.extent,
    };
    members_of(alloc, to_string(alloc, &above))
}

/// What is told below it.
fn below_list(
    alloc: Global,
    scene: &Scene<'_>,
    program: &LongProgram,
    steps: &[Step],
    frequency: &Frequency,
) -> Result<Vec<u8>, AllocError>
    requires stuck { IsStuckRun program.now steps.now }
    requires frequency { IsFrequency program.now frequency.now }
{
    let choices = choices_of(alloc, program, steps)?;
    let below = Below {
        choices: decisions_of(alloc, scene, &choices)?,
        parting: parting_from(alloc, scene, program, steps, frequency)?,
        unreceived: unreceived_of(alloc, scene)?,
        unbalanced: unbalanced_of(alloc, scene)?,
    };
    members_of(alloc, to_string(alloc, &below))
}

/// The members of an object that was written: its text without the brackets around them.
fn members_of(alloc: Global, written: Result<String, Error>) -> Result<Vec<u8>, AllocError> {
    // The writer fails for want of memory alone.
    let Ok(text) = written else {
        return Err(AllocError);
    };
    let bytes = text.as_bytes();
    let end = bytes.len().saturating_sub(1);
    Vec::from_slice(alloc, &bytes[end.min(1)..end])
}

/// What stands before a choice in the list, from 0, and its members.
fn choice_front(alloc: Global, place: usize, choice: &ChoiceMade) -> Result<Vec<u8>, AllocError> {
    let members = members_of(alloc, to_string(alloc, choice))?;
    let mut front = Vec::new(alloc);
    front.extend_from_slice(if place == 0 { b"{" } else { b",{" })?;
    front.extend_from_slice(&members)?;
    Ok(front)
}

/// Adds a choice to the list of what decided a run.
fn put_decided<'a>(out: &mut Vec<u8>, front: &'a [u8], verdict: &'a str) -> Result<(), AllocError>
    ensures { OnOk result (out.new.items ≡ out.old.items ++ (front.now ++ verdict_member verdict.now)) }
{
    put_parts(
        out,
        &[
            TextPart::Bytes(front),
            TextPart::Text(",\"verdict\":\""),
            TextPart::Text(verdict),
            TextPart::Text("\"}"),
        ],
    )?;
    Ok(())
}

/// The list of what decided a run, without its brackets.
fn decided_text(alloc: Global, deciders: &[Decider]) -> Result<Vec<u8>, AllocError>
    ensures { IfOk result (λ text. AreDecided (map (λ d. d.verdict.now) deciders.now) text.items) }
{
    let mut out = Vec::new(alloc);
    for (place, decider) in deciders.iter().enumerate() {
        let front = choice_front(alloc, place, &decider.choice)?;
        put_decided(&mut out, &front, decider.verdict)?;
    }
    Ok(out)
}

/// The beginning of the object, which says in which runs the program gets stuck.
fn head_of(alloc: Global, frequency: &Frequency) -> Result<Vec<u8>, AllocError>
    ensures { IfOk result (λ head. head.items ≡ object_head frequency.now) }
{
    let mut head = Vec::from_slice(alloc, b"{\"answer\":\"deadlock\",\"status\":1,\"runs\":\"")?;
    head.extend_from_slice(runs_word(frequency).as_bytes())?;
    head.extend_from_slice(b"\",")?;
    Ok(head)
}

/// The object: its beginning, the members above the list of what decided the run, that list, and
/// the members below it.
fn joined<'a>(
    head: Vec<u8>,
    above: &'a [u8],
    decided: &'a [u8],
    below: &'a [u8],
) -> Result<Vec<u8>, AllocError>
    ensures { IfOk result (λ text. IsJoined head.items above.now decided.now text.items) }
{
    let mut text = head;
    put_parts(
        &mut text,
        &[
            TextPart::Bytes(above),
            TextPart::Text(",\"decided\":["),
            TextPart::Bytes(decided),
            TextPart::Text("],"),
            TextPart::Bytes(below),
            TextPart::Text("}\n"),
        ],
    )?;
    Ok(text)
}

/// The JSON object, on one line, that explains a run of a program that ends stuck: whether every
/// run does that the policy allows; its calls with their lines and words; for each rank whether it is finished, the call
/// that it waits in, the operation that this waits for, the ranks that it waits for, the calls that
/// fit and what became of each, and near misses; a cycle of ranks; what decided it, with what is
/// known of each; the choices on the way; where the run first parts from one that ends well; which
/// messages nobody received; and channels whose sends and receives differ in number. All but the
/// first list, and what decided it, name calls by their numbers alone. `text` is the program's
/// text, `source` what it says, and `program` its calls. The only error is want of memory.
pub fn object_text(
    alloc: Global,
    text: &[u8],
    source: &LongSource,
    program: &LongProgram,
    steps: &[Step],
    frequency: &Frequency,
    deciders: &Deciders,
) -> Result<Vec<u8>, AllocError>
    requires stuck { IsStuckRun program.now steps.now }
    requires frequency { IsFrequency program.now frequency.now }
    ensures { IfOk result (λ told. IsObject frequency.now (map (λ d. d.verdict.now) deciders.now.choices.items) told.items) }
{
    let scene = scene_of(alloc, text, source, program, steps, true)?;
    let above = above_list(alloc, &scene, steps, deciders)?;
    let decided = decided_text(alloc, &deciders.choices)?;
    let below = below_list(alloc, &scene, program, steps, frequency)?;
    let head = head_of(alloc, frequency)?;
    joined(head, &above, &decided, &below)
}
