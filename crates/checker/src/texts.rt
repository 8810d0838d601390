//! What the two texts are of, and the schedules among them.

ghost use Rattle.std.specs.Prelude.{◌≡◌, ◌⊎◌, IfOk, IfErr};
ghost use Rattle.calltext.specs.Readable.{IsText};
ghost use Rattle.callorder.specs.Resolving.{IsTextOf};
ghost use Rattle.semantics.specs.Machine.{IsStuckRun};
ghost use Rattle.checker.specs.Parts.{IsNoRun};
ghost use Rattle.checker.specs.Verdicts.{AreShown, IsProgramReason, IsUnshown};

use crate::reason::{NoRun, Reason};
use callorder::Program;
use calltext::{Source, read};
use prooflog::{Evidence, Schedule, read_evidence};
use semantics::{End, ReplayFault, replay};
use std::alloc::Global;

/// What a program's text says, and the program.
#[derive(Drop)]
pub struct ReadProgram {
    pub source: Source,
    pub program: Program,
}

/// A program, and a schedule that is a run of it that ends stuck.
#[derive(Drop)]
pub struct StuckRun {
    /// What the program's text says.
    pub source: Source,
    /// The program.
    pub program: Program,
    /// The steps of the run, from the opening state on.
    pub schedule: Schedule,
}

/// What the bytes say, and the program that they are the text of, or the first reason why there is
/// none.
pub fn read_program(alloc: Global, program: &[u8]) -> Result<ReadProgram, Reason>
    ensures source { IfOk result (λ both. IsText program.now both.source) }
    ensures program { IfOk result (λ both. IsTextOf program.now both.program) }
    ensures reason { IfErr result (λ reason. IsProgramReason program.now reason) }
{
    let source = read(alloc, program)?;
    let program = Program::resolve(alloc, &source)?;
    Ok(ReadProgram { source, program })
}

/// The program that the bytes are the text of, or the first reason why there is none: want of
/// memory, a fault of the text, or a fault of its call lines.
pub fn program_of(alloc: Global, program: &[u8]) -> Result<Program, Reason>
    ensures program { IfOk result (λ p. IsTextOf program.now p) }
    ensures reason { IfErr result (λ reason. IsProgramReason program.now reason) }
{
    let both = read_program(alloc, program)?;
    Ok(both.program)
}

/// Whether the schedule is a run of the program that ends stuck; else why not.
fn check_stuck(alloc: Global, program: &Program, schedule: &Schedule) -> Result<(), Reason>
    ensures stuck { IfOk result (λ done. IsStuckRun program.now schedule.now) }
    ensures reason { IfErr result (λ reason. (reason ≡ Reason.Memory) ⊎ IsUnshown reason program.now schedule.now) }
{
    match replay(alloc, program, schedule.steps()) {
        Ok(End::Stuck) => Ok(()),
        Ok(End::Finished) => Err(Reason::NotStuck(End::Finished)),
        Ok(End::Live) => Err(Reason::NotStuck(End::Live)),
        Err(ReplayFault::NotEnabled { at }) => Err(Reason::Replay { at }),
        Err(ReplayFault::Memory) => Err(Reason::Memory),
    }
}

/// The run of the program that the schedule is, where it ends stuck; else the first reason why it
/// is none.
pub fn stuck_run(alloc: Global, of: ReadProgram, schedule: Schedule) -> Result<StuckRun, Reason>
    ensures run { IfOk result (λ run. run ≡ record { source = of.source; program = of.program; schedule = schedule }) }
    ensures stuck { IfOk result (λ run. IsStuckRun of.program schedule) }
    ensures reason { IfErr result (λ reason. (reason ≡ Reason.Memory) ⊎ IsUnshown reason of.program schedule) }
{
    let ReadProgram { source, program } = of;
    check_stuck(alloc, &program, &schedule)?;
    Ok(StuckRun {
        source,
        program,
        schedule,
    })
}

/// The program and the schedule that the two texts are of, with what the program's text says, where
/// the schedule is a run of the program that ends stuck; else the first reason why not. A
/// refutation's lines are read, and not checked.
pub fn stuck_run_of(alloc: Global, program: &[u8], evidence: &[u8]) -> Result<StuckRun, NoRun>
    ensures shown { IfOk result (λ run. AreShown program.now evidence.now run.source run.program run.schedule) }
    ensures why { IfErr result (λ why. IsNoRun program.now evidence.now why) }
{
    let read = match read_program(alloc, program) {
        Ok(read) => read,
        Err(reason) => return Err(NoRun::Refused(reason)),
    };
    match read_evidence(alloc, evidence) {
        Ok(Evidence::Schedule(schedule)) => match stuck_run(alloc, read, schedule) {
            Ok(run) => Ok(run),
            Err(reason) => Err(NoRun::Refused(reason)),
        },
        Ok(Evidence::Refutation(_refutation)) => Err(NoRun::NotASchedule),
        Err(fault) => Err(NoRun::Refused(Reason::from(fault))),
    }
}
