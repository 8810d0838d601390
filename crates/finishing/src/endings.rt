//! The clauses that say that all ranks finish.

ghost use Rattle.std.specs.Prelude.{◌≡◌, ◌++◌, [], map, IfOk, OnOk};
ghost use Rattle.std.specs.List.{flat_map};
ghost use Rattle.candidates.specs.Pairs.{takers_of};
ghost use Rattle.formula.specs.declared.facts.Fact.TheVariants.{Matched as matched};
ghost use Rattle.formula.specs.declared.facts.Statement.TheVariants.{Holds as is_true};
ghost use Rattle.formula.specs.Families.{sends_of, last_calls};
ghost use Rattle.finishing.specs.Formula.{is_met, all_calls_are_issued, last_calls_have_returned, all_ranks_finish};

use callorder::Program;
use formula::{Condition, Fact, Statement};
use formula_families::Symbolic;
use formula_tables::{is_last, when_returned};
use std::alloc::{AllocError, Global};

/// The send is matched with some taker.
fn is_taken(alloc: Global, program: &Program, send: usize) -> Result<Vec<Statement>, AllocError>
    ensures { IfOk result (λ clause. clause.items ≡ map (λ taker. is_true (matched send taker)) (takers_of program.now send)) }
{
    (0..program.calls().len())
        .filter(|taker| program.takes(send, *taker))
        .map(|taker| Statement::Holds(Fact::Matched(send, taker)))
        .collect(alloc)
}

/// The taker is matched with some send, or the probe has seen one.
fn has_found(alloc: Global, program: &Program, finder: usize) -> Result<Vec<Statement>, AllocError>
    ensures { IfOk result (λ clause. clause.items ≡ map (λ send. is_true (matched send finder)) (sends_of program.now finder)) }
{
    (0..program.calls().len())
        .filter(|send| program.are_fit(*send, finder))
        .map(|send| Statement::Holds(Fact::Matched(send, finder)))
        .collect(alloc)
}

/// Adds that what the condition waits for is there.
fn push_met(
    clauses: &mut Symbolic<Statement>,
    alloc: Global,
    program: &Program,
    condition: &Condition,
) -> Result<(), AllocError>
    ensures { OnOk result (clauses.new ≡ clauses.old ++ is_met program.now condition.now) }
{
    match *condition {
        Condition::AtOnce => {}
        Condition::IfMatched(finder) => {
            let clause = has_found(alloc, program, finder)?;
            clauses.add(clause.as_slice())?;
        }
        Condition::IfFetched(send) => {
            let clause = is_taken(alloc, program, send)?;
            clauses.add(clause.as_slice())?;
        }
        Condition::IfBufferedOrFetched(send) => {
            let mut clause = is_taken(alloc, program, send)?;
            clause.push(Statement::Holds(Fact::Buffered(send)))?;
            clauses.add(clause.as_slice())?;
        }
    }
    Ok(())
}

/// Adds that each call is issued.
fn push_issued(clauses: &mut Symbolic<Statement>, program: &Program) -> Result<(), AllocError>
    ensures { OnOk result (clauses.new ≡ clauses.old ++ all_calls_are_issued program.now) }
{
    for call in 0..program.calls().len() {
        clauses.add(&[Statement::Holds(Fact::Issued(call))])?;
    }
    Ok(())
}

/// The last calls of the ranks that have a call, rising.
fn last_calls(alloc: Global, program: &Program) -> Result<Vec<usize>, AllocError>
    ensures { IfOk result (λ calls. calls.items ≡ last_calls program.now) }
{
    (0..program.calls().len())
        .filter(|call| is_last(program, *call))
        .collect(alloc)
}

/// Adds that the last call of each rank has returned.
fn push_returned(
    clauses: &mut Symbolic<Statement>,
    alloc: Global,
    program: &Program,
) -> Result<(), AllocError>
    ensures { OnOk result (clauses.new ≡ clauses.old ++ last_calls_have_returned program.now) }
{
    let calls = last_calls(alloc, program)?;
    for call in calls.as_slice() {
        push_met(clauses, alloc, program, &when_returned(program, *call))?;
    }
    Ok(())
}

/// The clauses that say that all ranks finish. The only error is want of memory.
pub fn all_ranks_finish(alloc: Global, program: &Program) -> Result<Symbolic<Statement>, AllocError>
    ensures { IfOk result (λ clauses. clauses ≡ all_ranks_finish program.now) }
{
    let mut clauses = Symbolic::new(alloc);
    push_issued(&mut clauses, program)?;
    push_returned(&mut clauses, alloc, program)?;
    Ok(clauses)
}
