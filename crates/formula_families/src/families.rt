//! The families of clauses, call by call and pair by pair.

ghost use Rattle.std.specs.Prelude.{◌≡◌, ◌∷◌, [], ◌++◌, ℕ, length, map, if◌then◌else◌, OnOk, IfOk};
ghost use Rattle.formula.specs.declared.facts.Fact.TheVariants.{Unfinished as unfinished};
ghost use Rattle.formula.specs.declared.facts.Statement.TheVariants.{Holds as is_true, Fails as is_false};
ghost use Rattle.formula.specs.Families.{last_calls, rank_of, is_standard, where_returned, buffered_under, issued_after, issued_after_return_of, issue_does_not_wait, family_of, first_families, last_families};
ghost use Rattle.formula.specs.declared.families.Family.TheVariants.{SomeUnfinished, Sees};
ghost use Rattle.formula_families.specs.parts.Blocks.{block, said_of_pair};
ghost use Rattle.formula_families.specs.Blocks.{clauses_of, size_of, where_taken, where_seen, where_last};
ghost use Rattle.candidates.specs.Pairs.{pairs_of, pair_at};

use crate::symbolic::Symbolic;
use crate::{matches, returns};
use callorder::Program;
use calltext::Policy;
use formula::{Fact, Family, RunEvent, Statement};
use formula_tables::{ProgramTables, is_last, is_standard, previous, rank_of, when_returned};
use std::alloc::{AllocError, Global};

/// The clauses of a family for one call or for one pair.
#[derive(Clone, Copy, PartialEq, Eq)]
pub struct Block {
    /// The family.
    pub family: Family,
    /// The place of the call among those of the program, or of the pair among the pairs, from 0.
    pub place: usize,
}

/// Where the call is issued, the one before it is, and earlier.
fn issued_after(
    clauses: &mut Symbolic<Statement>,
    call: usize,
    before: Option<usize>,
) -> Result<(), AllocError>
    ensures { OnOk result (clauses.new ≡ clauses.old ++ issued_after call before) }
{
    if let Some(before) = before {
        let unissued = Statement::Fails(Fact::Issued(call));
        let issued = Statement::Holds(Fact::Issued(before));
        let earlier = Statement::Earlier(RunEvent::Issue(before), RunEvent::Issue(call));
        clauses.add(&[unissued, issued])?;
        clauses.add(&[earlier])?;
    }
    Ok(())
}

/// Where the call is issued, the one before it has returned before.
fn issued_after_return_of(
    clauses: &mut Symbolic<Statement>,
    alloc: Global,
    source: &ProgramTables<'_>,
    call: usize,
    before: Option<usize>,
) -> Result<(), AllocError>
    ensures { OnOk result (clauses.new ≡ clauses.old ++ issued_after_return_of source.now call before) }
{
    if let Some(before) = before {
        let condition = when_returned(source.program(), before);
        returns::is_returned_before(clauses, alloc, source, call, &condition)?;
    }
    Ok(())
}

/// The call is issued where there is none before it, or where the one before it has returned.
fn issue_does_not_wait(
    clauses: &mut Symbolic<Statement>,
    source: &ProgramTables<'_>,
    call: usize,
    before: Option<usize>,
) -> Result<(), AllocError>
    ensures { OnOk result (clauses.new ≡ clauses.old ++ issue_does_not_wait source.now call before) }
{
    let issued = Statement::Holds(Fact::Issued(call));
    match before {
        None => clauses.add(&[issued])?,
        Some(before) => returns::where_returned(clauses, source, before, &issued)?,
    }
    Ok(())
}

/// A rank whose last call has returned isn't unfinished. There is no clause for a call that isn't
/// the last one of its rank.
fn is_finished(
    clauses: &mut Symbolic<Statement>,
    source: &ProgramTables<'_>,
    call: usize,
) -> Result<(), AllocError>
    ensures { OnOk result (clauses.new ≡ clauses.old ++ where_last source.now call
        (where_returned source.now call (is_false (unfinished (rank_of source.now call))))) }
{
    if is_last(source.program(), call) {
        let rank = rank_of(source.program(), call);
        let finished = Statement::Fails(Fact::Unfinished(rank));
        returns::where_returned(clauses, source, call, &finished)?;
    }
    Ok(())
}

/// The last calls of the ranks that have a call, rising.
fn last_calls(alloc: Global, program: &Program) -> Result<Vec<usize>, AllocError>
    ensures { IfOk result (λ calls. calls.items ≡ last_calls program.now) }
{
    (0..program.calls().len())
        .filter(|call| is_last(program, *call))
        .collect(alloc)
}

/// Some rank is unfinished.
fn some_is_unfinished(
    clauses: &mut Symbolic<Statement>,
    alloc: Global,
    source: &ProgramTables<'_>,
) -> Result<(), AllocError>
    ensures { OnOk result (clauses.new ≡ clauses.old ++ (map (λ c.
        is_true (unfinished (rank_of source.now c))) (last_calls source.now)) ∷ []) }
{
    let calls = last_calls(alloc, source.program())?;
    let mut clause = Vec::new(alloc);
    for call in calls.as_slice() {
        let rank = rank_of(source.program(), *call);
        clause.push(Statement::Holds(Fact::Unfinished(rank)))?;
    }
    clauses.add(clause.as_slice())?;
    Ok(())
}

/// A rank whose last call has returned isn't unfinished; and behind all calls, some rank is.
fn add_unfinished(
    clauses: &mut Symbolic<Statement>,
    alloc: Global,
    source: &ProgramTables<'_>,
    place: usize,
) -> Result<(), AllocError>
    ensures { OnOk result (clauses.new ≡ clauses.old ++ clauses_of source.now (block SomeUnfinished place)) }
{
    if place < source.len() {
        is_finished(clauses, source, place)?;
        return Ok(());
    }
    some_is_unfinished(clauses, alloc, source)?;
    Ok(())
}

/// What the policy says of a standard send. There is no clause for another call.
fn buffered_as_allowed(
    clauses: &mut Symbolic<Statement>,
    source: &ProgramTables<'_>,
    call: usize,
) -> Result<(), AllocError>
    ensures { OnOk result (clauses.new ≡
        clauses.old ++ (if is_standard source.now call then buffered_under source.now.policy call else [])) }
{
    if is_standard(source.program(), call) {
        match source.program().policy() {
            Policy::Any => {}
            Policy::Never => clauses.add(&[Statement::Fails(Fact::Buffered(call))])?,
            Policy::Always => clauses.add(&[Statement::Holds(Fact::Buffered(call))])?,
        }
    }
    Ok(())
}

/// Adds what the family says of the pair at a place, whatever it is.
fn add_pair(
    clauses: &mut Symbolic<Statement>,
    alloc: Global,
    source: &ProgramTables<'_>,
    family: Family,
    place: usize,
) -> Result<(), AllocError>
    ensures { OnOk result (clauses.new ≡
        clauses.old ++ said_of_pair source.now (family_of family).says (pair_at (pairs_of source.now) place)) }
{
    let (send, finder) = source.pair(place);
    match family {
        Family::MatchOrder => matches::issued_before_match(clauses, send, finder)?,
        Family::MatchedOnce => matches::without_later_pairs(clauses, source, send, finder)?,
        Family::SendOrder => matches::sends_are_matched_before(clauses, alloc, source, place)?,
        Family::TakerOrder => matches::takers_are_matched_before(clauses, alloc, source, place)?,
        Family::NoPairWaits => matches::pair_does_not_wait(clauses, alloc, source, send, finder)?,
        Family::Sees => matches::see_clauses(clauses, alloc, source, place)?,
        Family::IssueOrder
        | Family::ReturnOrder
        | Family::NoIssueWaits
        | Family::SomeUnfinished
        | Family::Buffering => {}
    }
    Ok(())
}

/// Adds what the family says of the pair at a place, if it is one of a send and a taker.
fn add_where_taken(
    clauses: &mut Symbolic<Statement>,
    alloc: Global,
    source: &ProgramTables<'_>,
    family: Family,
    place: usize,
) -> Result<(), AllocError>
    ensures { let pair = pair_at (pairs_of source.now) place in OnOk result (clauses.new ≡
        clauses.old ++ where_taken source.now pair (said_of_pair source.now (family_of family).says pair)) }
{
    let (_send, finder) = source.pair(place);
    if !source.program().is_probe(finder) {
        add_pair(clauses, alloc, source, family, place)?;
    }
    Ok(())
}

/// Adds what is said of a see, for the pair at a place, if it is one of a send and a probe.
fn add_where_seen(
    clauses: &mut Symbolic<Statement>,
    alloc: Global,
    source: &ProgramTables<'_>,
    place: usize,
) -> Result<(), AllocError>
    ensures { let pair = pair_at (pairs_of source.now) place in OnOk result (clauses.new ≡
        clauses.old ++ where_seen source.now pair (said_of_pair source.now (family_of Sees).says pair)) }
{
    let (_send, finder) = source.pair(place);
    if source.program().is_probe(finder) {
        add_pair(clauses, alloc, source, Family::Sees, place)?;
    }
    Ok(())
}

/// Adds the clauses of a family for the call or the pair at a place.
fn add_block(
    clauses: &mut Symbolic<Statement>,
    alloc: Global,
    source: &ProgramTables<'_>,
    family: Family,
    place: usize,
) -> Result<(), AllocError>
    ensures { OnOk result (clauses.new ≡ clauses.old ++ clauses_of source.now (block family place)) }
{
    let before = previous(source.program(), place);
    match family {
        Family::IssueOrder => issued_after(clauses, place, before)?,
        Family::ReturnOrder => issued_after_return_of(clauses, alloc, source, place, before)?,
        Family::MatchOrder => add_where_taken(clauses, alloc, source, family, place)?,
        Family::MatchedOnce => add_where_taken(clauses, alloc, source, family, place)?,
        Family::SendOrder => add_where_taken(clauses, alloc, source, family, place)?,
        Family::TakerOrder => add_where_taken(clauses, alloc, source, family, place)?,
        Family::NoPairWaits => add_where_taken(clauses, alloc, source, family, place)?,
        Family::NoIssueWaits => issue_does_not_wait(clauses, source, place, before)?,
        Family::SomeUnfinished => add_unfinished(clauses, alloc, source, place)?,
        Family::Buffering => buffered_as_allowed(clauses, source, place)?,
        Family::Sees => add_where_seen(clauses, alloc, source, place)?,
    }
    Ok(())
}

/// Puts the clauses of the block in place of those that stand there. The only error is want of
/// memory.
pub fn put_block(
    clauses: &mut Symbolic<Statement>,
    alloc: Global,
    source: &ProgramTables<'_>,
    of: &Block,
) -> Result<(), AllocError>
    ensures { OnOk result (clauses.new ≡ clauses_of source.now of.now) }
{
    clauses.clear();
    add_block(clauses, alloc, source, of.family, of.place)?;
    Ok(())
}

/// How many blocks the family has: their places are the numbers below.
pub fn size_of(source: &ProgramTables<'_>, family: Family) -> usize
    ensures { result ≡ size_of source.now family }
{
    match family {
        Family::IssueOrder | Family::ReturnOrder | Family::NoIssueWaits | Family::Buffering => {
            source.len()
        }
        Family::SomeUnfinished => source.program().calls().len() + 1,
        Family::MatchOrder
        | Family::MatchedOnce
        | Family::SendOrder
        | Family::TakerOrder
        | Family::NoPairWaits
        | Family::Sees => source.pair_count(),
    }
}

/// Whether some clause of the family states which of two events is earlier.
pub fn states_order(family: Family) -> bool
    ensures { result ≡ (family_of family).states_order }
{
    match family {
        Family::NoPairWaits | Family::NoIssueWaits | Family::SomeUnfinished | Family::Buffering =>
            false,
        Family::IssueOrder
        | Family::ReturnOrder
        | Family::MatchOrder
        | Family::MatchedOnce
        | Family::SendOrder
        | Family::TakerOrder
        | Family::Sees => true,
    }
}

/// The families before the clauses on the order of events, in the order of the formula.
pub fn first_families() -> &'static [Family]
    ensures { result.now ≡ first_families }
{
    &[
        Family::IssueOrder,
        Family::ReturnOrder,
        Family::MatchOrder,
        Family::MatchedOnce,
        Family::SendOrder,
        Family::TakerOrder,
        Family::NoPairWaits,
        Family::NoIssueWaits,
        Family::SomeUnfinished,
    ]
}

/// The families behind them.
pub fn last_families() -> &'static [Family]
    ensures { result.now ≡ last_families }
{
    &[Family::Buffering, Family::Sees]
}
