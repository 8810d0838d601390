//! Whether choices are needed for a program to hang.

ghost use Rattle.std.specs.Prelude.{◌≡◌, [], true, IfErr, IfOk, OnOk, IsTrue};
ghost use Rattle.callorder.specs.Resolving.{IsTextOf};
ghost use Rattle.semantics.specs.Machine.{IsStuckRun};
ghost use Rattle.checker.specs.Parts.{IsNoRun};
ghost use Rattle.choices.specs.parts.Weights.{AreChoicesOf, AreOthers};
ghost use Rattle.choices.specs.Weights.{AreWeighed, HangsWith, IsChoiceOf, IsWeighed};

use crate::asking::{Way, hangs_with, way_with};
use crate::finding::choices_of;
use crate::items::{AskingLimits, Choice, ChoiceNeed, Decided, Weighed};
use crate::otherwise::with_issue;
use crate::sufficing::choose;
use callorder::LongProgram;
use checker::{NoRun, Reason, stuck_run_of};
use narrowing::ChoiceTaken;
use options::Options;
use semantics::Step;
use std::alloc::{AllocError, Global};
use std::sync::Wait;
use std::thread::Threads;

/// The most calls of a program for which a search looks into other ways.
const MOST_CALLS: usize = 256;

/// Whether all is known so far, and this way never hangs.
fn is_known(known: bool, way: Way) -> bool
    ensures { IsTrue result → (known ≡ true) × (way ≡ Way.Never) }
{
    known && way == Way::Never
}

/// Whether the program hangs this way.
fn is_hanging(way: Way) -> bool
    ensures { IsTrue result → way ≡ Way.Hangs }
{
    way == Way::Hangs
}

/// Whether there are other ways.
fn has_some(others: &[ChoiceTaken]) -> bool
    ensures { IsTrue result → others.now ≡ [] → ⊥ }
{
    !others.is_empty()
}

/// What is known of a choice's other ways.
fn others_of<R: Threads + Wait + Sync>(
    rt: &R,
    alloc: Global,
    text: &[u8],
    program: &LongProgram,
    choice: &Choice,
    search: Option<Options>,
) -> Result<ChoiceNeed, AllocError>
    ensures { IfOk result (AreOthers text.now program.now choice.now) }
{
    let mut known = has_some(&choice.others);
    for other in &choice.others {
        let way = way_with(rt, alloc, text, program, choice, *other, search)?;
        if is_hanging(way) {
            return Ok(ChoiceNeed::No);
        }
        known = is_known(known, way);
    }
    if known {
        return Ok(ChoiceNeed::Known);
    }
    Ok(ChoiceNeed::Tried)
}

/// The steps, with this one as it is of a send in buffered mode, where the choice is that the send
/// was buffered.
fn steps_with(alloc: Global, steps: &[Step], choice: &Choice) -> Result<Vec<Step>, AllocError> {
    if choice.taken == ChoiceTaken::Buffered {
        return with_issue(alloc, steps, choice.step, choice.rank, false);
    }
    Vec::from_slice(alloc, steps)
}

/// Whether the program hangs with the choice pinned as in the run.
fn hangs_pinned(
    alloc: Global,
    text: &[u8],
    steps: &[Step],
    choice: &Choice,
) -> Result<bool, AllocError>
    ensures { IfOk result (λ is. IsTrue is → HangsWith text.now choice.now.line choice.now.taken) }
{
    let pinned = steps_with(alloc, steps, choice)?;
    hangs_with(alloc, text, choice.line, choice.taken, &pinned)
}

/// Whether a choice of a run is needed.
fn need_of<R: Threads + Wait + Sync>(
    rt: &R,
    alloc: Global,
    text: &[u8],
    program: &LongProgram,
    steps: &[Step],
    choice: &Choice,
    search: Option<Options>,
) -> Result<ChoiceNeed, AllocError>
    requires program { IsTextOf text.now program.now }
    requires choice { IsChoiceOf program.now choice.now }
    ensures { IfOk result (IsWeighed text.now choice.now) }
{
    if !hangs_pinned(alloc, text, steps, choice)? {
        return Ok(ChoiceNeed::NotAsked);
    }
    others_of(rt, alloc, text, program, choice, search)
}

/// What is known of a choice; where no question is left, it is not asked.
fn weigh<R: Threads + Wait + Sync>(
    rt: &R,
    alloc: Global,
    text: &[u8],
    program: &LongProgram,
    steps: &[Step],
    choice: Choice,
    search: Option<Options>,
    left: &mut u32,
) -> Result<Weighed, AllocError>
    requires program { IsTextOf text.now program.now }
    requires choice { IsChoiceOf program.now choice }
    ensures { IfOk result (λ weighed. IsWeighed text.now weighed.choice weighed.need) }
{
    if *left == 0 {
        return Ok(Weighed {
            choice,
            need: ChoiceNeed::NotAsked,
        });
    }
    *left = left.saturating_sub(choice.others.len().min(64) as u32);
    let need = need_of(rt, alloc, text, program, steps, &choice, search)?;
    Ok(Weighed { choice, need })
}

/// Adds a choice of the program, if it is to be kept.
fn keep(
    found: &mut Vec<Choice>,
    program: &LongProgram,
    choice: Choice,
    keeps: bool,
) -> Result<(), AllocError>
    requires { IsChoiceOf program.now choice }
    ensures { OnOk result (AreChoicesOf program.now found.old.items → AreChoicesOf program.now found.new.items) }
{
    let _program = program;
    if keeps {
        found.push(choice)?;
    }
    Ok(())
}

/// The choices of the program at these places, from 0.
fn at_places(
    alloc: Global,
    program: &LongProgram,
    choices: Vec<Choice>,
    places: &[usize],
) -> Result<Vec<Choice>, AllocError>
    requires { AreChoicesOf program.now choices.items }
    ensures { IfOk result (λ kept. AreChoicesOf program.now kept.items) }
{
    let mut found = Vec::new(alloc);
    let mut place = 0usize;
    for choice in choices {
        keep(&mut found, program, choice, places.contains(&place))?;
        place = place.saturating_add(1);
    }
    Ok(found)
}

/// What is known of choices.
fn weigh_all<R: Threads + Wait + Sync>(
    rt: &R,
    alloc: Global,
    text: &[u8],
    program: &LongProgram,
    steps: &[Step],
    choices: Vec<Choice>,
    search: Option<Options>,
    ways: u32,
) -> Result<Vec<Weighed>, AllocError>
    requires program { IsTextOf text.now program.now }
    requires choices { AreChoicesOf program.now choices.items }
    ensures { IfOk result (λ all. AreWeighed text.now all.items) }
{
    let mut left = ways;
    let mut all = Vec::new(alloc);
    for choice in choices {
        let weighed = weigh(rt, alloc, text, program, steps, choice, search, &mut left)?;
        all.push(weighed)?;
    }
    Ok(all)
}

/// How much a search may do that looks into another way: nothing where the program is large.
fn search_for(program: &LongProgram, limits: AskingLimits) -> Option<Options> {
    if program.calls().len() > MOST_CALLS {
        return None;
    }
    Some(limits.search)
}

/// What decided this run of the text's program, which ends stuck, as [`decide`] tells it. The only
/// refusal is want of memory.
pub fn decide_run<R: Threads + Wait + Sync>(
    rt: &R,
    alloc: Global,
    text: &[u8],
    program: &LongProgram,
    steps: &[Step],
    limits: AskingLimits,
) -> Result<Decided, AllocError>
    requires stuck { IsStuckRun program.now steps.now }
    requires program { IsTextOf text.now program.now }
    ensures { IfOk result (λ decided. AreWeighed text.now decided.choices.items) }
{
    let choices = choices_of(alloc, text, program, steps)?;
    let mut left = limits.walks;
    let enough = choose(alloc, text, &choices, &mut left)?;
    let search = search_for(program, limits);
    let kept = at_places(alloc, program, choices, &enough.kept)?;
    let weighed = weigh_all(rt, alloc, text, program, steps, kept, search, limits.ways)?;
    Ok(Decided {
        extent: enough.extent,
        choices: weighed,
        least: enough.least,
    })
}

/// What decided the run that an evidence shows: choices that suffice for the program to hang, and
/// which of them are needed.
///
/// The choices of a run are the standard sends that it buffered, and those that it did not, where
/// the policy leaves that open, and the messages that wildcards found where one of another rank or
/// tag of the whole program fits too. Each is pinned by other words in place of its line: a send in
/// buffered or synchronous mode, that of a `sendrecv` in the four calls that the line stands for,
/// or a source and a tag in the place of stars. Choices suffice where each walk that was taken of
/// the program with all of them pinned ended stuck; they are found by dropping others, first many
/// at once, then each in turn.
///
/// Each choice that suffices with the others is then asked about alone. It is told only where its
/// line, pinned as in the run, makes a program that has a run that ends stuck. It is known to be
/// needed where no run ends stuck with the line of any other way, which a search has shown of each:
/// then every run of the program that ends stuck makes the choice so
/// ([`known_is_taken`](crate::known_is_taken)). It is not needed where a run with such a line is one
/// of the program itself that ends stuck and doesn't make the choice so, and tried where none was
/// found. Programs of more than 256 calls are not searched, only walked.
///
/// An evidence that shows no run that ends stuck is refused as `replay` refuses it; else the only
/// refusal is want of memory.
pub fn decide<R: Threads + Wait + Sync>(
    rt: &R,
    alloc: Global,
    text: &[u8],
    evidence: &[u8],
    limits: AskingLimits,
) -> Result<Decided, NoRun>
    ensures decided { IfOk result (λ decided. AreWeighed text.now decided.choices.items) }
    ensures why { IfErr result (IsNoRun text.now evidence.now) }
{
    let run = match stuck_run_of(alloc, text, evidence) {
        Ok(run) => run,
        Err(why) => return Err(why),
    };
    match decide_run(rt, alloc, text, &run.program, run.schedule.steps(), limits) {
        Ok(decided) => Ok(decided),
        Err(AllocError) => Err(NoRun::Refused(Reason::Memory)),
    }
}
