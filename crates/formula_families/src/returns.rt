//! Clauses on calls that have returned.

ghost use Rattle.std.specs.Prelude.{◌≡◌, ◌∷◌, [], ◌++◌, map, OnOk};
ghost use Rattle.std.specs.List.{flat_map};
ghost use Rattle.candidates.specs.Pairs.{takers_of};
ghost use Rattle.formula.specs.declared.facts.Fact.TheVariants.{Issued as issued, Matched as matched};
ghost use Rattle.formula.specs.declared.facts.Statement.TheVariants.{Holds as is_true, Fails as is_false, Earlier as is_earlier};
ghost use Rattle.formula.specs.declared.facts.RunEvent.TheVariants.{Issue as issue_of};
ghost use Rattle.formula.specs.declared.facts.Condition.TheVariants.{IfMatched as if_matched};
ghost use Rattle.formula.specs.Families.{fetch_of, receive_on_handle, where_fetched, where_returned_under, where_returned, handle_is_received_on, is_fetched_before, is_returned_before};

use crate::lists::{push_sends, push_takers};
use crate::symbolic::Symbolic;
use formula::{Condition, Fact, RunEvent, Statement};
use formula_tables::{ProgramTables, fetch_of, receive_on_handle, when_returned};
use std::alloc::{AllocError, Global};

/// Where the call is issued and the send is fetched, the statement is right.
fn where_fetched(
    clauses: &mut Symbolic<Statement>,
    source: &ProgramTables<'_>,
    call: usize,
    send: usize,
    statement: &Statement,
) -> Result<(), AllocError>
    ensures { OnOk result (clauses.new ≡ clauses.old ++ where_fetched source.now call send statement.now) }
{
    let unissued = Statement::Fails(Fact::Issued(call));
    for taker in source.takers_of(send) {
        let unmatched = Statement::Fails(Fact::Matched(send, *taker));
        match receive_on_handle(source.program(), *taker) {
            None => clauses.add(&[unissued, unmatched, *statement])?,
            Some(receive) => {
                let unreceived = Statement::Fails(Fact::Issued(receive));
                clauses.add(&[unissued, unmatched, *statement, unreceived])?;
            }
        }
    }
    Ok(())
}

/// Where the call is issued and the taker is matched, or the probe has seen a message, the
/// statement is right.
fn where_matched(
    clauses: &mut Symbolic<Statement>,
    call: usize,
    taker: usize,
    sends: &[usize],
    statement: &Statement,
) -> Result<(), AllocError>
    ensures { OnOk result (clauses.new ≡ clauses.old ++ map (λ send.
        is_false (issued call) ∷ is_false (matched send taker) ∷ statement.now ∷ []) sends.now) }
{
    let unissued = Statement::Fails(Fact::Issued(call));
    for send in sends {
        let unmatched = Statement::Fails(Fact::Matched(*send, taker));
        clauses.add(&[unissued, unmatched, *statement])?;
    }
    Ok(())
}

/// Adds the clauses that say: where the call is issued and has returned, the statement is right.
/// The only error is want of memory.
pub fn where_returned(
    clauses: &mut Symbolic<Statement>,
    source: &ProgramTables<'_>,
    call: usize,
    statement: &Statement,
) -> Result<(), AllocError>
    ensures { OnOk result (clauses.new ≡ clauses.old ++ where_returned source.now call statement.now) }
{
    let unissued = Statement::Fails(Fact::Issued(call));
    match when_returned(source.program(), call) {
        Condition::AtOnce => clauses.add(&[unissued, *statement])?,
        Condition::IfMatched(taker) => {
            let sends = source.sends_of(taker);
            where_matched(clauses, call, taker, sends, statement)?;
        }
        Condition::IfFetched(send) => {
            where_fetched(clauses, source, call, send, statement)?;
        }
        Condition::IfBufferedOrFetched(send) => {
            let unbuffered = Statement::Fails(Fact::Buffered(send));
            clauses.add(&[unissued, unbuffered, *statement])?;
            where_fetched(clauses, source, call, send, statement)?;
        }
    }
    Ok(())
}

/// Where the call is issued and the send is matched with the taker, what fetches the message is
/// earlier, or the rest of the clause is right.
fn fetched_earlier(
    clauses: &mut Symbolic<Statement>,
    alloc: Global,
    source: &ProgramTables<'_>,
    call: usize,
    pair: (usize, usize),
    otherwise: &[Statement],
) -> Result<(), AllocError>
    ensures { OnOk result (clauses.new ≡
        clauses.old ++ ((is_false (issued call) ∷ is_false (matched pair.0 pair.1) ∷ is_earlier (fetch_of
        source.now pair.1) (issue_of call) ∷ []) ++ otherwise.now) ∷ handle_is_received_on call pair.0 pair.1
        otherwise.now (receive_on_handle source.now pair.1)) }
{
    let unissued = Statement::Fails(Fact::Issued(call));
    let unmatched = Statement::Fails(Fact::Matched(pair.0, pair.1));
    let fetch = fetch_of(source.program(), pair.1);
    let earlier = Statement::Earlier(fetch, RunEvent::Issue(call));
    let mut clause = vec![in alloc; unissued, unmatched, earlier]?;
    clause.extend_from_slice(otherwise)?;
    clauses.add(clause.as_slice())?;
    if let Some(receive) = receive_on_handle(source.program(), pair.1) {
        let received = Statement::Holds(Fact::Issued(receive));
        let mut clause = vec![in alloc; unissued, unmatched, received]?;
        clause.extend_from_slice(otherwise)?;
        clauses.add(clause.as_slice())?;
    }
    Ok(())
}

/// Where the call is issued, the send is fetched before, or the rest of the clause is right.
fn is_fetched_before(
    clauses: &mut Symbolic<Statement>,
    alloc: Global,
    source: &ProgramTables<'_>,
    call: usize,
    send: usize,
    otherwise: &[Statement],
) -> Result<(), AllocError>
    ensures { OnOk result (clauses.new ≡ clauses.old ++ is_fetched_before source.now call send otherwise.now) }
{
    let takers = source.takers_of(send);
    let mut clause = vec![in alloc; Statement::Fails(Fact::Issued(call))]?;
    push_takers(&mut clause, send, takers)?;
    clause.extend_from_slice(otherwise)?;
    clauses.add(clause.as_slice())?;
    for taker in takers {
        fetched_earlier(clauses, alloc, source, call, (send, *taker), otherwise)?;
    }
    Ok(())
}

/// Where the call is issued, the taker is matched, or the probe has seen a message, before.
fn is_matched_before(
    clauses: &mut Symbolic<Statement>,
    alloc: Global,
    source: &ProgramTables<'_>,
    call: usize,
    taker: usize,
) -> Result<(), AllocError>
    ensures { OnOk result (clauses.new ≡ clauses.old ++ is_returned_before source.now call (if_matched taker)) }
{
    let unissued = Statement::Fails(Fact::Issued(call));
    let mut clause = vec![in alloc; unissued]?;
    push_sends(&mut clause, taker, source.sends_of(taker))?;
    clauses.add(clause.as_slice())?;
    let earlier = Statement::Earlier(RunEvent::Match(taker), RunEvent::Issue(call));
    clauses.add(&[unissued, earlier])?;
    Ok(())
}

/// Adds the clauses that say: where the call is issued, the condition holds before. The only error
/// is want of memory.
pub fn is_returned_before(
    clauses: &mut Symbolic<Statement>,
    alloc: Global,
    source: &ProgramTables<'_>,
    call: usize,
    condition: &Condition,
) -> Result<(), AllocError>
    ensures { OnOk result (clauses.new ≡ clauses.old ++ is_returned_before source.now call condition.now) }
{
    match *condition {
        Condition::AtOnce => {}
        Condition::IfMatched(taker) => is_matched_before(clauses, alloc, source, call, taker)?,
        Condition::IfFetched(send) => is_fetched_before(clauses, alloc, source, call, send, &[])?,
        Condition::IfBufferedOrFetched(send) => {
            let buffered = Statement::Holds(Fact::Buffered(send));
            is_fetched_before(clauses, alloc, source, call, send, &[buffered])?;
        }
    }
    Ok(())
}
