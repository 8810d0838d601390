//! A decision by one run that tells how far it is.

ghost use Rattle.std.specs.Prelude.{◌≡◌, ◌⊎◌, IfErr, IfOk, IsTrue};
ghost use Rattle.std.specs.Io.KnownBytes.{Appends};
ghost use Rattle.calltext.specs.Grammar.{long};
ghost use Rattle.callorder.specs.Resolving.{IsTextOfWithin};
ghost use Rattle.semantics.specs.Machine.{after_all, opening};
ghost use Rattle.leastrun.specs.LeastBuffered.{IsLeastBufferedRun};
ghost use Rattle.deciding.specs.Decisions.{IsDecided, IsUndecided};
ghost use Rattle.deciding.specs.Stages.{TellsStages, stage_line};
ghost use Rattle.files.specs.Contents.{AppendsPart};

use crate::decision::{Decision, judge_run};
use crate::texts::{Undecided, program_of};
use callorder::LongProgram;
use files::store;
use leastrun::least_buffered_run;
use semantics::{State, Step};
use std::alloc::{AllocError, Global};
use std::io::Write;
use writing::put_number;

/// How far a decision is.
#[derive(Clone, Copy, Debug, PartialEq, Eq)]
pub enum Stage {
    /// The text is read: it has this number of ranks and of calls.
    Read { ranks: u32, calls: usize },
    /// One run was made, of this number of steps.
    Ran { steps: usize },
}

/// The line that tells it.
fn line_of_stage(alloc: Global, stage: Stage) -> Result<Vec<u8>, AllocError>
    ensures { IfOk result (λ line. line.items ≡ stage_line stage) }
{
    let mut line = Vec::new(alloc);
    match stage {
        Stage::Read { ranks, calls } => {
            line.extend_from_slice(b"progress: ")?;
            put_number(&mut line, calls as u128)?;
            line.extend_from_slice(b" calls of ")?;
            put_number(&mut line, ranks as u128)?;
            line.extend_from_slice(b" ranks are read\n")?;
        }
        Stage::Ran { steps } => {
            line.extend_from_slice(b"progress: one run has ")?;
            put_number(&mut line, steps as u128)?;
            line.extend_from_slice(b" steps\n")?;
        }
    }
    Ok(line)
}

/// Tells a stage by its line, and answers whether the whole line was told: where the output fails a
/// beginning of it is, and where memory runs out nothing.
fn tell_stage<E: Write>(alloc: Global, stage: Stage, err: &mut E) -> bool
    ensures whole { IsTrue result → Appends (E.contents err.old) (E.contents err.new) (stage_line stage) }
    ensures told { Appends (E.contents err.old) (E.contents err.new) (stage_line stage)
        ⊎ AppendsPart (E.contents err.old) (E.contents err.new) (stage_line stage) }
{
    let Ok(line) = line_of_stage(alloc, stage) else {
        return false;
    };
    match store(err, &line) {
        Ok(()) => true,
        Err(_fault) => false,
    }
}

/// A program, with the run of it that buffers as little as the policy allows, and the state at its
/// end.
#[derive(Drop)]
struct Ran {
    program: LongProgram,
    steps: Vec<Step>,
    end: State,
}

/// The program of a text with that run, told by a line each. A fault of the output is not told, and
/// nothing more is told after it.
fn run_telling<E: Write>(alloc: Global, text: &[u8], err: &mut E) -> Result<Ran, Undecided>
    ensures program { IfOk result (λ ran. IsTextOfWithin long text.now ran.program) }
    ensures run { IfOk result (λ ran. IsLeastBufferedRun ran.program ran.steps.items) }
    ensures end { IfOk result (λ ran. ran.end ≡ after_all (opening ran.program) ran.steps.items) }
    ensures why { IfErr result (IsUndecided text.now) }
    ensures told { TellsStages text.now (E.contents err.old) (E.contents err.new) }
{
    let program = program_of(alloc, text)?;
    let ranks = program.ranks();
    let calls = program.calls().len();
    let is_told = tell_stage(alloc, Stage::Read { ranks, calls }, err);
    let Ok((steps, end)) = least_buffered_run(alloc, &program) else {
        return Err(Undecided::Memory);
    };
    if is_told {
        let steps = steps.len();
        tell_stage(alloc, Stage::Ran { steps }, err);
    }
    Ok(Ran {
        program,
        steps,
        end,
    })
}

/// Decides as [`decide`](crate::decide) does, and tells meanwhile, by a line each, that the text is
/// read, with its ranks and calls, and that the run is made, with its steps. A fault of the output
/// is not told, and nothing more is told after it.
pub fn decide_telling<E: Write>(
    alloc: Global,
    text: &[u8],
    err: &mut E,
) -> Result<Decision, Undecided>
    ensures decided { IsDecided text.now result }
    ensures told { TellsStages text.now (E.contents err.old) (E.contents err.new) }
{
    let Ran {
        program,
        steps,
        end,
    } = run_telling(alloc, text, err)?;
    match judge_run(alloc, &program, steps, &end) {
        Ok(decision) => Ok(decision),
        Err(AllocError) => Err(Undecided::Memory),
    }
}
