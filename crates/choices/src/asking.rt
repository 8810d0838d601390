//! What is known of a text with one line pinned.

ghost use Rattle.std.specs.Prelude.{IfOk, IsTrue};
ghost use Rattle.narrowing.specs.Narrowed.{IsNarrowed};
ghost use Rattle.semantics.specs.Machine.{IsStuckRun};
ghost use Rattle.prover.specs.Answers.{CanHang};
ghost use Rattle.choices.specs.parts.Weights.{IsWay, IsWayWith};
ghost use Rattle.choices.specs.Weights.{HangsOtherwise, HangsWith, IsNarrowedText};

use crate::items::Choice;
use crate::otherwise::{hangs_otherwise, widened};
use crate::pinning::with_choice;
use callorder::{LongProgram, Program};
use checker::{NoRun, program_of, stuck_run_of};
use narrowing::{ChoiceTaken, is_narrowed};
use prover::{Answer, Gate, Options, Reason, Until, Why, prove, walk_ends};
use semantics::{End, ReplayFault, Step, replay};
use std::alloc::{AllocError, Global};
use std::sync::Wait;
use std::thread::Threads;

/// What is known of another way of a choice.
#[derive(Clone, Copy, PartialEq, Eq)]
pub enum Way {
    /// Some run of the program ends stuck in which the choice isn't made as it was.
    Hangs,
    /// No run ends stuck of the program in which the call leaves open no more than this way.
    Never,
    /// Neither is known.
    Open,
}

/// Lets a search go on at once.
struct AtOnce;

impl Gate for AtOnce {
    fn before(&self, _worker: u32, _cube: u32) {}
}

/// Whether the run that an evidence shows of a pinned text, in which a choice is made this way, is
/// one of the program that ends stuck in which the choice isn't made as it was.
fn shown(
    alloc: Global,
    pinned: &[u8],
    evidence: &[u8],
    program: &LongProgram,
    choice: &Choice,
    taken: ChoiceTaken,
) -> Result<bool, AllocError>
    ensures { IfOk result (λ is. IsTrue is → HangsOtherwise program.now choice.now) }
{
    let run = match stuck_run_of(alloc, pinned, evidence) {
        Ok(run) => run,
        Err(NoRun::Refused(Reason::Memory)) => return Err(AllocError),
        Err(_refused) => return Ok(false),
    };
    let steps = widened(alloc, program, choice.call, taken, run.schedule.steps())?;
    hangs_otherwise(alloc, program, choice, &steps)
}

/// What the run that an evidence shows of a pinned text tells of a choice.
fn told_by_run(
    alloc: Global,
    pinned: &[u8],
    evidence: &[u8],
    program: &LongProgram,
    choice: &Choice,
    taken: ChoiceTaken,
) -> Result<Way, AllocError>
    ensures { IfOk result (IsWay pinned.now program.now choice.now) }
{
    if shown(alloc, pinned, evidence, program, choice, taken)? {
        return Ok(Way::Hangs);
    }
    Ok(Way::Open)
}

/// What a search finds of a pinned text, in which a choice of the program is made this way.
fn searched<R: Threads + Wait + Sync>(
    rt: &R,
    alloc: Global,
    pinned: &[u8],
    program: &LongProgram,
    choice: &Choice,
    taken: ChoiceTaken,
    search: Options,
) -> Result<Way, AllocError>
    ensures { IfOk result (IsWay pinned.now program.now choice.now) }
{
    match prove(rt, alloc, pinned, search, &AtOnce) {
        Answer::NoDeadlock(_evidence) => Ok(Way::Never),
        Answer::Deadlock(evidence) => {
            let evidence = evidence.joined(alloc)?;
            told_by_run(alloc, pinned, &evidence, program, choice, taken)
        }
        Answer::Unknown(Why::Memory) => Err(AllocError),
        Answer::Unknown(_why) => Ok(Way::Open),
        Answer::Refused(_reason) => Ok(Way::Open),
    }
}

/// Whether some walk of a text's program ends stuck.
fn walks_hang(alloc: Global, text: &[u8]) -> Result<bool, AllocError> {
    match walk_ends(alloc, text, Until::Stuck) {
        Ok(ends) => Ok(ends.stuck),
        Err(Reason::Memory) => Err(AllocError),
        Err(_reason) => Ok(false),
    }
}

/// The least search, which takes walks first.
fn least_search() -> Options {
    Options::make(1, 0, 1).unwrap_or(Options::default())
}

/// Whether the second program is the first one, but that this call of it leaves open no more than
/// this way.
fn is_narrowed_to(program: &LongProgram, call: usize, way: ChoiceTaken, narrowed: &Program) -> bool
    ensures { IsTrue result → IsNarrowed program.now call way narrowed.now }
{
    is_narrowed(program, call, way, narrowed)
}

/// Whether the text is that of the program in which this call leaves open no more than this way.
fn is_narrowed_text(
    alloc: Global,
    program: &LongProgram,
    call: usize,
    way: ChoiceTaken,
    text: &[u8],
) -> Result<bool, AllocError>
    ensures { IfOk result (λ is. IsTrue is → IsNarrowedText program.now call way text.now) }
{
    match program_of(alloc, text) {
        Ok(narrowed) => Ok(is_narrowed_to(program, call, way, &narrowed)),
        Err(Reason::Memory) => Err(AllocError),
        Err(_reason) => Ok(false),
    }
}

/// What is known of a pinned text, in which a choice of the program is made this way: by a search,
/// or where none is given by walks alone. Where one of them ends stuck, a search finds it before it
/// makes a formula.
fn asked<R: Threads + Wait + Sync>(
    rt: &R,
    alloc: Global,
    pinned: &[u8],
    program: &LongProgram,
    choice: &Choice,
    taken: ChoiceTaken,
    search: Option<Options>,
) -> Result<Way, AllocError>
    ensures { IfOk result (IsWay pinned.now program.now choice.now) }
{
    if let Some(search) = search {
        return searched(rt, alloc, pinned, program, choice, taken, search);
    }
    if !walks_hang(alloc, pinned)? {
        return Ok(Way::Open);
    }
    searched(rt, alloc, pinned, program, choice, taken, least_search())
}

/// What is known of the program of the text with other words in the place of a choice's line, which
/// leave open no more than this way: by a search, or where none is given by walks alone. That no
/// run of it ends stuck is told only where those words narrow the choice's call and change no
/// other; that one hangs, only where it is a run of the text's program, too, and the choice isn't
/// made as it was at its end.
pub fn way_with<R: Threads + Wait + Sync>(
    rt: &R,
    alloc: Global,
    text: &[u8],
    program: &LongProgram,
    choice: &Choice,
    taken: ChoiceTaken,
    search: Option<Options>,
) -> Result<Way, AllocError>
    ensures { IfOk result (IsWayWith text.now program.now choice.now taken) }
{
    let found = with_choice(alloc, text, choice.line, taken)?;
    let Some(pinned) = found else {
        return Ok(Way::Open);
    };
    if !is_narrowed_text(alloc, program, choice.call, taken, &pinned)? {
        return Ok(Way::Open);
    }
    asked(rt, alloc, &pinned, program, choice, taken, search)
}

/// Whether the steps are a run of the text's program that ends stuck.
fn is_run_of(alloc: Global, text: &[u8], steps: &[Step]) -> Result<bool, AllocError>
    ensures { IfOk result (λ is. IsTrue is → CanHang text.now) }
{
    match program_of(alloc, text) {
        Ok(program) => is_run(alloc, &program, steps),
        Err(Reason::Memory) => Err(AllocError),
        Err(_reason) => Ok(false),
    }
}

/// Whether the steps are a run of the program that ends stuck.
pub fn is_run(alloc: Global, program: &LongProgram, steps: &[Step]) -> Result<bool, AllocError>
    ensures { IfOk result (λ is. IsTrue is → IsStuckRun program.now steps.now) }
{
    match replay(alloc, program, steps) {
        Ok(End::Stuck) => Ok(true),
        Ok(_) => Ok(false),
        Err(ReplayFault::Memory) => Err(AllocError),
        Err(ReplayFault::NotEnabled { at: _ }) => Ok(false),
    }
}

/// Whether the steps are a run that ends stuck of the program of the text with other words in the
/// place of its line of this number, from 1, which leave open no more than this.
pub fn hangs_with(
    alloc: Global,
    text: &[u8],
    number: usize,
    taken: ChoiceTaken,
    steps: &[Step],
) -> Result<bool, AllocError>
    ensures { IfOk result (λ is. IsTrue is → HangsWith text.now number taken) }
{
    let found = with_choice(alloc, text, number, taken)?;
    let Some(pinned) = found else {
        return Ok(false);
    };
    is_run_of(alloc, &pinned, steps)
}
