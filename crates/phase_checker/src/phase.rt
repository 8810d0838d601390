//! Phases: programs that never get stuck, and what bears on others that follow them.

ghost use Rattle.std.specs.Prelude.{◌≡◌, ◌↔◌, true};
ghost use Rattle.calltext.specs.Grammar.{long};
ghost use Rattle.callorder.specs.ProgramRules.{IsProgramWithin};
ghost use Rattle.semantics.specs.Headline.{NoStuckRun};
ghost use Rattle.races.specs.Races.{NamesSources};
ghost use Rattle.phases.specs.Conditions.{LeavesNothing};

use crate::reason::NotAPhase;
use callorder::{Call, LongProgram};
use checker::{PieceGate, Reason, Verdict, verdict_in};
use deciding::{Decision, decide_program, program_of};
use leastrun::names_sources;
use phases::{deal, leaves_nothing};
use sealing::{Loose, loose_ends};
use std::alloc::{AllocError, Global};
use std::thread::Threads;

/// A program no run of which gets stuck, with what is known of its messages. Each was judged:
/// [`Phase::decided`] and [`Phase::judged`] alone make one.
#[derive(Drop)]
pub struct Phase {
    program: LongProgram,
    /// Each receive, matched probe and probe names its source.
    named: bool,
    /// Each rank takes on each communicator as many messages as are sent to it there.
    even: bool,
    pub ghost program_kept: { ∥ IsProgramWithin long program ∥₁ },
    pub ghost never: { NoStuckRun program },
    pub ghost sources: { (named ≡ true) ↔ NamesSources program },
    pub ghost messages: { (even ≡ true) ↔ LeavesNothing program },
}

impl Phase {
    ghost use Rattle.std.specs.Prelude.{◌≢◌, ◌<◌, ◌≤◌, length, false, IfOk, IfErr};
    ghost use Rattle.callorder.specs.Programs.{MpiProgram};
    ghost use Rattle.callorder.specs.Resolving.{IsTextOfWithin};
    ghost use Rattle.phases.specs.Rests.{IsFront, IsRest, behind};
    ghost use Rattle.sealing.specs.Sealing.{AreLoose};
    ghost use Rattle.checker.specs.Headline.{IsNeverStuck};
    ghost use Rattle.checker.specs.Verdicts.{Judges, RefutesProgram};
    ghost use Rattle.phase_checker.specs.Reasons.{IsNoPhase};

    /// The phase that this program is. The only error is want of memory.
    fn of(alloc: Global, program: LongProgram) -> Result<Phase, AllocError>
        requires { NoStuckRun program }
        ensures { IfOk result (λ phase. phase.program ≡ program) }
    {
        let _calls = program.calls();
        let named = names_sources(&program);
        let even = leaves_nothing(alloc, &program)?;
        Ok(Phase {
            program,
            named,
            even,
        })
    }

    /// The phase of a text, judged by one run; else why that shows none. The text has no limit but
    /// memory's and that numbers have 31 bits.
    ///
    /// `Deadlock` comes only where some run of the text's program gets stuck, and `Race` only where
    /// the run finishes and doesn't stand for all others.
    pub fn decided(alloc: Global, text: &[u8]) -> Result<Phase, NotAPhase>
        ensures phase { IfOk result (λ phase. IsTextOfWithin long text.now phase.program) }
        ensures why { IfErr result (IsNoPhase text.now) }
    {
        let program = program_of(alloc, text)?;
        match decide_program(alloc, &program) {
            Ok(Decision::NoDeadlock) => match Phase::of(alloc, program) {
                Ok(phase) => Ok(phase),
                Err(AllocError) => Err(NotAPhase::Memory),
            },
            Ok(Decision::Deadlock(_steps)) => Err(NotAPhase::Deadlock),
            Ok(Decision::Race(race)) => Err(NotAPhase::Race(race)),
            Err(AllocError) => Err(NotAPhase::Memory),
        }
    }

    /// The phase of a text no run of whose program gets stuck. The only error is want of memory.
    fn refuted(alloc: Global, text: &[u8]) -> Result<Phase, Verdict>
        requires { IsNeverStuck text.now }
        ensures phase { IfOk result (λ phase. IsTextOfWithin long text.now phase.program) }
        ensures memory { IfErr result (λ verdict. verdict ≡ Verdict.Refused Reason.Memory) }
    {
        let Ok(program) = program_of(alloc, text) else {
            return Err(Verdict::Refused(Reason::Memory));
        };
        match Phase::of(alloc, program) {
            Ok(phase) => Ok(phase),
            Err(AllocError) => Err(Verdict::Refused(Reason::Memory)),
        }
    }

    /// The phase of a text, judged by an evidence that refutes it; else the checker's verdict,
    /// which is never `NoDeadlock`. The text has the checker's limits. The lines of the evidence
    /// are checked in so many pieces, 1 to 64, as by [`verdict_in`].
    pub fn judged<R: Threads + Sync, G: PieceGate + Sync>(
        rt: &R,
        alloc: Global,
        text: &[u8],
        evidence: &[u8],
        pieces: usize,
        gate: &G,
    ) -> Result<Phase, Verdict>
        requires some { 0 < pieces }
        requires few { pieces ≤ 64 }
        ensures phase { IfOk result (λ phase. IsTextOfWithin long text.now phase.program) }
        ensures refuted { IfOk result (λ phase. RefutesProgram text.now evidence.now) }
        ensures other { IfErr result (λ verdict. verdict ≢ Verdict.NoDeadlock) }
        ensures judges { IfErr result (Judges text.now evidence.now) }
    {
        match verdict_in(rt, alloc, text, evidence, pieces, gate) {
            Verdict::NoDeadlock => Phase::refuted(alloc, text),
            Verdict::Deadlock => Err(Verdict::Deadlock),
            Verdict::Refused(reason) => Err(Verdict::Refused(reason)),
        }
    }

    /// Takes the phase's calls off what is left of a program, as [`deal`] does.
    pub(crate) fn deal(&self, program: &LongProgram, next: &mut [usize]) -> bool
        requires places { length next.old ≡ program.now.ranks }
        ensures refused { result ≡ false → next.new ≡ next.old }
        ensures front { (q : MpiProgram) → IsRest program.now next.old q → (result ≡ true) ↔ IsFront q self.now.program }
        ensures rest { (q : MpiProgram) → IsRest program.now next.old q → result ≡ true →
            IsRest program.now next.new (behind q self.now.program) }
    {
        deal(program, &self.program, next)
    }

    /// The calls of all ranks, in rank order.
    pub(crate) fn calls(&self) -> &[Call]
        ensures { result.now ≡ self.now.program.calls }
    {
        self.program.calls()
    }

    /// What ranks could send to a receive or probe of any source that has found nothing yet where
    /// they are finished, as far as is told: nothing where each names its source. The only error is
    /// want of memory.
    pub(crate) fn loose_ends(&self, alloc: Global) -> Result<Vec<Loose>, AllocError>
        ensures { IfOk result (λ list. AreLoose self.now.program list.items) }
    {
        if self.names_sources() {
            return Ok(Vec::new(alloc));
        }
        loose_ends(alloc, &self.program)
    }

    /// Whether each receive, matched probe and probe names its source.
    pub fn names_sources(&self) -> bool
        ensures { (result ≡ true) ↔ NamesSources self.now.program }
    {
        self.named
    }

    /// Whether each rank takes on each communicator as many messages as are sent to it there.
    pub fn leaves_nothing(&self) -> bool
        ensures { (result ≡ true) ↔ LeavesNothing self.now.program }
    {
        self.even
    }
}
