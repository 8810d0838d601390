//! Lists of statements on the pairs of a call.

ghost use Rattle.std.specs.Prelude.{◌≡◌, ◌++◌, map, OnOk};
ghost use Rattle.formula.specs.declared.facts.Fact.TheVariants.{Matched as matched};
ghost use Rattle.formula.specs.declared.facts.Statement.TheVariants.{Holds as is_true};

use formula::{Fact, Statement};
use std::alloc::AllocError;

/// Adds that the send is matched with each of the takers. The only error is want of memory.
pub fn push_takers(
    clause: &mut Vec<Statement>,
    send: usize,
    takers: &[usize],
) -> Result<(), AllocError>
    ensures { OnOk result (clause.new.items ≡ clause.old.items ++ map (λ taker. is_true (matched send taker)) takers.now) }
{
    for taker in takers {
        clause.push(Statement::Holds(Fact::Matched(send, *taker)))?;
    }
    Ok(())
}

/// Adds that the taker is matched with each of the sends. The only error is want of memory.
pub fn push_sends(
    clause: &mut Vec<Statement>,
    taker: usize,
    sends: &[usize],
) -> Result<(), AllocError>
    ensures { OnOk result (clause.new.items ≡ clause.old.items ++ map (λ send. is_true (matched send taker)) sends.now) }
{
    for send in sends {
        clause.push(Statement::Holds(Fact::Matched(*send, taker)))?;
    }
    Ok(())
}
