//! How walks of all manners end.

ghost use Rattle.std.specs.Prelude.{◌≡◌, ◌||◌, IfOk, IfErr, IsTrue};
ghost use Rattle.checker.specs.Verdicts.{IsProgramReason};
ghost use Rattle.prover.specs.Answers.{AreWalkEnds};
ghost use Rattle.prover.specs.Ends.{AreEndsOf};

use crate::explore::is_stuck;
use crate::manner::{manner_at, manners};
use crate::walk::walk;
use callorder::LongProgram;
use checker::{Reason, program_of};
use std::alloc::{AllocError, Global};

/// Until when walks are taken.
#[derive(Clone, Copy, PartialEq, Eq)]
pub enum Until {
    /// Until one ends stuck.
    Stuck,
    /// Until one ends with all ranks finished.
    Finished,
    /// Until one ends stuck and another one with all ranks finished.
    Both,
}

/// How walks of a program ended.
#[derive(Clone, Copy, PartialEq, Eq)]
pub struct WalkEnds {
    /// Whether some walk ended stuck.
    pub stuck: bool,
    /// Whether some walk ended with all ranks finished.
    pub finished: bool,
    /// How many walks were taken.
    pub walks: u32,
}

/// Whether no further walk is wanted.
fn is_enough(until: Until, ends: WalkEnds) -> bool {
    match until {
        Until::Stuck => ends.stuck,
        Until::Finished => ends.finished,
        Until::Both => ends.stuck && ends.finished,
    }
}

/// How walks ended, once one more is taken.
fn with_walk(
    alloc: Global,
    program: &LongProgram,
    turn: u32,
    before: WalkEnds,
) -> Result<WalkEnds, AllocError>
    requires { AreEndsOf program.now before }
    ensures holds { IfOk result (AreEndsOf program.now) }
    ensures some { IfOk result (λ ends. IsTrue (ends.stuck || ends.finished)) }
{
    let steps = walk(alloc, program, manner_at(turn))?;
    let walks = before.walks.saturating_add(1);
    if is_stuck(alloc, program, &steps)? {
        return Ok(WalkEnds {
            stuck: true,
            finished: before.finished,
            walks,
        });
    }
    Ok(WalkEnds {
        stuck: before.stuck,
        finished: true,
        walks,
    })
}

/// How the walks of a program end, one manner after another.
fn ends_of(alloc: Global, program: &LongProgram, until: Until) -> Result<WalkEnds, AllocError>
    ensures holds { IfOk result (AreEndsOf program.now) }
    ensures some { IfOk result (λ ends. IsTrue (ends.stuck || ends.finished)) }
{
    let mut ends = WalkEnds {
        stuck: false,
        finished: false,
        walks: 0,
    };
    for turn in 0..manners(program.ranks()) {
        ends = with_walk(alloc, program, turn, ends)?;
        if is_enough(until, ends) {
            return Ok(ends);
        }
    }
    Ok(ends)
}

/// Takes walks of the program of a text, in one manner after another, and tells how they ended; it
/// stops early where what is wanted is known. A walk is a run that goes on until no step is
/// enabled, so it ends stuck or with all ranks finished. There are as many manners as the program
/// has ranks, and five more. Where no walk of a kind is told, there may still be such a run. The
/// text of no program is refused for its first fault; the only other refusal is want of memory.
pub fn walk_ends(alloc: Global, program: &[u8], until: Until) -> Result<WalkEnds, Reason>
    ensures ends { IfOk result (AreWalkEnds program.now) }
    ensures reason { IfErr result (IsProgramReason program.now) }
{
    let known = match program_of(alloc, program) {
        Ok(known) => known,
        Err(reason) => return Err(reason),
    };
    match ends_of(alloc, &known, until) {
        Ok(ends) => Ok(ends),
        Err(AllocError) => Err(Reason::Memory),
    }
}
