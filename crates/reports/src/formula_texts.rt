//! The formula of a program's text.

ghost use Rattle.std.specs.Prelude.{IfOk, IfErr};
ghost use Rattle.prover.specs.Answers.{HasNoFormulaText};
ghost use Rattle.reports.specs.FormulaTexts.{HasDimacsText, HasFormulaText};
ghost use Rattle.prover.specs.parts.Searches.{IsFormulaOf};

use checker::{Reason, formula_of, program_of};
use encode::Encoded;
use exports::dimacs_text;
use prooflog::write_formula;
use std::alloc::Global;
use std::mem;
use std::thread::Threads;

/// The program of a text, with its formula, or the first reason why there is none.
fn encoded_of(rt: &(impl Threads + Sync), alloc: Global, program: &[u8]) -> Result<Encoded, Reason>
    ensures encoded { IfOk result (IsFormulaOf program.now) }
    ensures reason { IfErr result (HasNoFormulaText program.now) }
{
    let program = match program_of(alloc, program) {
        Ok(program) => program,
        Err(reason) => return Err(reason),
    };
    match formula_of(rt, alloc, program) {
        Ok(encoded) => Ok(encoded),
        Err(reason) => Err(reason),
    }
}

/// The text of the formula of a program's text: the line `formula V C`, with the numbers of its
/// variables and clauses, and a line for each clause, the word `clause` and its literals. A
/// program's text is refused as `verdict` refuses it; then a program with more than 8,192 fitting
/// pairs, more than 1,024 events or more than 4,000,000 clauses is.
pub fn formula_text(
    rt: &(impl Threads + Sync),
    alloc: Global,
    program: &[u8],
) -> Result<Vec<u8>, Reason>
    ensures text { IfOk result (λ text. HasFormulaText program.now text.items) }
    ensures reason { IfErr result (λ reason. HasNoFormulaText program.now reason) }
{
    let encoded = match encoded_of(rt, alloc, program) {
        Ok(encoded) => encoded,
        Err(reason) => return Err(reason),
    };
    let text = write_formula(alloc, encoded.formula());
    mem::drop(encoded);
    match text {
        Ok(text) => Ok(text),
        Err(_) => Err(Reason::Memory),
    }
}

/// The text of the same formula in the DIMACS format, with a comment line for each variable that
/// tells what it stands for. A program is refused as by [`formula_text`].
pub fn dimacs_formula(
    rt: &(impl Threads + Sync),
    alloc: Global,
    program: &[u8],
) -> Result<Vec<u8>, Reason>
    ensures text { IfOk result (λ text. HasDimacsText program.now text.items) }
    ensures reason { IfErr result (λ reason. HasNoFormulaText program.now reason) }
{
    let encoded = match encoded_of(rt, alloc, program) {
        Ok(encoded) => encoded,
        Err(reason) => return Err(reason),
    };
    let text = dimacs_text(alloc, &encoded);
    mem::drop(encoded);
    match text {
        Ok(text) => Ok(text),
        Err(_) => Err(Reason::Memory),
    }
}
