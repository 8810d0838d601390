//! The formula of a program, within the limits.

ghost use Rattle.std.specs.Prelude.{◌≡◌, ◌⊎◌, IfOk, IfErr};
ghost use Rattle.formula.specs.Numbering.{formula_of};
ghost use Rattle.checker.specs.Verdicts.{HasFormula, HasNoFormula};

use crate::reason::Reason;
use callorder::Program;
use candidates::pairs;
use encode::{Encoded, encode};
use nonovertake::earlier;
use std::alloc::Global;
use std::thread::Threads;

/// The program with its formula, or why it has none: want of memory, more than 8,192 fitting pairs,
/// more than 1,024 events, or more than 4,000,000 clauses. The first limit that is passed is told.
pub fn formula_of(
    rt: &(impl Threads + Sync),
    alloc: Global,
    program: Program,
) -> Result<Encoded, Reason>
    ensures of { IfOk result (λ encoded. encoded.program ≡ program) }
    ensures formula { IfOk result (λ encoded. encoded.formula ≡ formula_of program) }
    ensures within { IfOk result (λ encoded. HasFormula program) }
    ensures reason { IfErr result (λ reason. (reason ≡ Reason.Memory) ⊎ HasNoFormula reason program) }
{
    let pairs = pairs(alloc, &program)?;
    let Ok(earlier) = earlier(rt, alloc, &program, &pairs) else {
        return Err(Reason::Memory);
    };
    match encode(alloc, program, pairs, &earlier) {
        Ok(encoded) => Ok(encoded),
        Err(refused) => Err(Reason::from(refused.fault)),
    }
}
