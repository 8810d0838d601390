//! Clauses on the match of a pair.

ghost use Rattle.std.specs.Prelude.{◌≡◌, ◌∷◌, [], ◌++◌, map, filter, nat_lt, not, ◌==◌, IfOk, OnOk};
ghost use Rattle.std.specs.List.{flat_map};
ghost use Rattle.candidates.specs.Pairs.{takers_of, pairs_of, pair_at};
ghost use Rattle.nonovertake.specs.Earlier.{earlier_sends, earlier_takers};
ghost use Rattle.formula.specs.declared.facts.Fact.TheVariants.{Issued as issued, Matched as matched};
ghost use Rattle.formula.specs.declared.facts.Statement.TheVariants.{Holds as is_true, Fails as is_false, Earlier as is_earlier};
ghost use Rattle.formula.specs.declared.facts.RunEvent.TheVariants.{Match as match_of};
ghost use Rattle.formula.specs.Families.{sends_of, see_clauses, issued_before_match, without_later_pairs, send_is_matched_before, taker_is_matched_before, pair_does_not_wait};

use crate::lists::{push_sends, push_takers};
use crate::symbolic::Symbolic;
use formula::{Fact, RunEvent, Statement};
use formula_tables::ProgramTables;
use std::alloc::{AllocError, Global};

/// Adds the clauses that say: where the pair is matched, or seen, both calls are issued, and
/// before. The only error is want of memory.
pub fn issued_before_match(
    clauses: &mut Symbolic<Statement>,
    send: usize,
    taker: usize,
) -> Result<(), AllocError>
    ensures { OnOk result (clauses.new ≡ clauses.old ++ issued_before_match send taker) }
{
    let unmatched = Statement::Fails(Fact::Matched(send, taker));
    let matching = RunEvent::Match(taker);
    let send_issued = Statement::Holds(Fact::Issued(send));
    let taker_issued = Statement::Holds(Fact::Issued(taker));
    let send_earlier = Statement::Earlier(RunEvent::Issue(send), matching);
    let taker_earlier = Statement::Earlier(RunEvent::Issue(taker), matching);
    clauses.add(&[unmatched, send_issued])?;
    clauses.add(&[unmatched, taker_issued])?;
    clauses.add(&[unmatched, send_earlier])?;
    clauses.add(&[unmatched, taker_earlier])?;
    Ok(())
}

/// Of the pair and a later one of its send, one isn't matched.
fn without_later_takers(
    clauses: &mut Symbolic<Statement>,
    send: usize,
    taker: usize,
    takers: &[usize],
) -> Result<(), AllocError>
    ensures { OnOk result (clauses.new ≡ clauses.old ++ map (λ other.
        is_false (matched send taker) ∷ is_false (matched send other) ∷ []) (filter (nat_lt taker)
        takers.now)) }
{
    let unmatched = Statement::Fails(Fact::Matched(send, taker));
    for other in takers {
        if taker < *other {
            let other = Statement::Fails(Fact::Matched(send, *other));
            clauses.add(&[unmatched, other])?;
        }
    }
    Ok(())
}

/// Of the pair and a later one of its taker, one isn't matched.
fn without_later_sends(
    clauses: &mut Symbolic<Statement>,
    send: usize,
    taker: usize,
    sends: &[usize],
) -> Result<(), AllocError>
    ensures { OnOk result (clauses.new ≡ clauses.old ++ map (λ other.
        is_false (matched send taker) ∷ is_false (matched other taker) ∷ []) (filter (nat_lt send) sends.now)) }
{
    let unmatched = Statement::Fails(Fact::Matched(send, taker));
    for other in sends {
        if send < *other {
            let other = Statement::Fails(Fact::Matched(*other, taker));
            clauses.add(&[unmatched, other])?;
        }
    }
    Ok(())
}

/// Where the probe has seen the send and the send is matched with a taker, the probe saw it before.
fn seen_before_taken(
    clauses: &mut Symbolic<Statement>,
    send: usize,
    probe: usize,
    takers: &[usize],
) -> Result<(), AllocError>
    ensures { OnOk result (clauses.new ≡ clauses.old ++ map (λ taker.
        is_false (matched send probe) ∷ is_false (matched send taker) ∷ is_earlier (match_of probe) (match_of
        taker) ∷ []) takers.now) }
{
    let unseen = Statement::Fails(Fact::Matched(send, probe));
    for taker in takers {
        let unmatched = Statement::Fails(Fact::Matched(send, *taker));
        let seen_earlier = Statement::Earlier(RunEvent::Match(probe), RunEvent::Match(*taker));
        clauses.add(&[unseen, unmatched, seen_earlier])?;
    }
    Ok(())
}

/// Adds the clauses that say what a see of the pair at this place asks for, and where one isn't
/// waited for. The only error is want of memory.
pub fn see_clauses(
    clauses: &mut Symbolic<Statement>,
    alloc: Global,
    source: &ProgramTables<'_>,
    place: usize,
) -> Result<(), AllocError>
    ensures { let pair = pair_at (pairs_of source.now) place in OnOk result (clauses.new ≡
        clauses.old ++ see_clauses source.now pair.0 pair.1) }
{
    let (send, probe) = source.pair(place);
    issued_before_match(clauses, send, probe)?;
    seen_before_taken(clauses, send, probe, source.takers_of(send))?;
    without_later_sends(clauses, send, probe, source.sends_of(probe))?;
    sends_are_matched_before(clauses, alloc, source, place)?;
    takers_are_matched_before(clauses, alloc, source, place)?;
    pair_does_not_wait(clauses, alloc, source, send, probe)?;
    Ok(())
}

/// Adds the clauses that say: the pair isn't matched together with a later pair of the same send or
/// taker. The only error is want of memory.
pub fn without_later_pairs(
    clauses: &mut Symbolic<Statement>,
    source: &ProgramTables<'_>,
    send: usize,
    taker: usize,
) -> Result<(), AllocError>
    ensures { OnOk result (clauses.new ≡ clauses.old ++ without_later_pairs source.now send taker) }
{
    without_later_takers(clauses, send, taker, source.takers_of(send))?;
    without_later_sends(clauses, send, taker, source.sends_of(taker))?;
    Ok(())
}

/// The calls but one.
fn others(alloc: Global, calls: &[usize], but: usize) -> Result<Vec<usize>, AllocError>
    ensures { IfOk result (λ others. others.items ≡ filter (λ other. not (other == but)) calls.now) }
{
    calls
        .iter()
        .copied()
        .filter(|other| *other != but)
        .collect(alloc)
}

/// Where the pair is matched and the earlier send with another taker, the other match is earlier.
fn matched_earlier(
    clauses: &mut Symbolic<Statement>,
    pair: (usize, usize),
    earlier: usize,
    others: &[usize],
) -> Result<(), AllocError>
    ensures { OnOk result (clauses.new ≡ clauses.old ++ map (λ other.
        is_false (matched pair.0 pair.1) ∷ is_false (matched earlier other) ∷ is_earlier (match_of other)
        (match_of pair.1) ∷ []) others.now) }
{
    let unmatched = Statement::Fails(Fact::Matched(pair.0, pair.1));
    for other in others {
        let other_unmatched = Statement::Fails(Fact::Matched(earlier, *other));
        let other_earlier = Statement::Earlier(RunEvent::Match(*other), RunEvent::Match(pair.1));
        clauses.add(&[unmatched, other_unmatched, other_earlier])?;
    }
    Ok(())
}

/// Where the pair is matched, the earlier send is matched with another taker, and earlier.
fn send_is_matched_before(
    clauses: &mut Symbolic<Statement>,
    alloc: Global,
    source: &ProgramTables<'_>,
    pair: (usize, usize),
    earlier: usize,
) -> Result<(), AllocError>
    ensures { OnOk result (clauses.new ≡ clauses.old ++ send_is_matched_before source.now pair.0 pair.1 earlier) }
{
    let others = others(alloc, source.takers_of(earlier), pair.1)?;
    let unmatched = Statement::Fails(Fact::Matched(pair.0, pair.1));
    let mut clause = vec![in alloc; unmatched]?;
    push_takers(&mut clause, earlier, others.as_slice())?;
    clauses.add(clause.as_slice())?;
    matched_earlier(clauses, pair, earlier, others.as_slice())?;
    Ok(())
}

/// Adds the clauses that say: where the pair at this place is matched, each earlier send that fits
/// its taker is matched with another taker, and earlier. The only error is want of memory.
pub fn sends_are_matched_before(
    clauses: &mut Symbolic<Statement>,
    alloc: Global,
    source: &ProgramTables<'_>,
    place: usize,
) -> Result<(), AllocError>
    ensures { let pair = pair_at (pairs_of source.now) place in OnOk result (clauses.new ≡
        clauses.old ++ flat_map (send_is_matched_before source.now pair.0 pair.1) (earlier_sends source.now
        pair.0 pair.1)) }
{
    let pair = source.pair(place);
    for earlier in source.earlier_sends(place) {
        send_is_matched_before(clauses, alloc, source, pair, *earlier)?;
    }
    Ok(())
}

/// Where the pair is matched, the earlier taker is matched with another send, and earlier.
fn taker_is_matched_before(
    clauses: &mut Symbolic<Statement>,
    alloc: Global,
    source: &ProgramTables<'_>,
    pair: (usize, usize),
    earlier: usize,
) -> Result<(), AllocError>
    ensures { OnOk result (clauses.new ≡ clauses.old ++ taker_is_matched_before source.now pair.0 pair.1 earlier) }
{
    let others = others(alloc, source.sends_of(earlier), pair.0)?;
    let unmatched = Statement::Fails(Fact::Matched(pair.0, pair.1));
    let mut clause = vec![in alloc; unmatched]?;
    push_sends(&mut clause, earlier, others.as_slice())?;
    clauses.add(clause.as_slice())?;
    let matched_earlier = Statement::Earlier(RunEvent::Match(earlier), RunEvent::Match(pair.1));
    clauses.add(&[unmatched, matched_earlier])?;
    Ok(())
}

/// Adds the clauses that say: where the pair at this place is matched, each earlier taker that its
/// send fits is matched with another send, and earlier. The only error is want of memory.
pub fn takers_are_matched_before(
    clauses: &mut Symbolic<Statement>,
    alloc: Global,
    source: &ProgramTables<'_>,
    place: usize,
) -> Result<(), AllocError>
    ensures { let pair = pair_at (pairs_of source.now) place in OnOk result (clauses.new ≡
        clauses.old ++ flat_map (taker_is_matched_before source.now pair.0 pair.1) (earlier_takers source.now
        pair.0 pair.1)) }
{
    let pair = source.pair(place);
    for earlier in source.earlier_takers(place) {
        taker_is_matched_before(clauses, alloc, source, pair, *earlier)?;
    }
    Ok(())
}

/// Adds the clause that says: where both calls are issued, the send or the taker is matched, or the
/// probe has seen. The only error is want of memory.
pub fn pair_does_not_wait(
    clauses: &mut Symbolic<Statement>,
    alloc: Global,
    source: &ProgramTables<'_>,
    send: usize,
    taker: usize,
) -> Result<(), AllocError>
    ensures { OnOk result (clauses.new ≡ clauses.old ++ pair_does_not_wait source.now send taker) }
{
    let send_unissued = Statement::Fails(Fact::Issued(send));
    let taker_unissued = Statement::Fails(Fact::Issued(taker));
    let mut clause = vec![in alloc; send_unissued, taker_unissued]?;
    push_takers(&mut clause, send, source.takers_of(send))?;
    push_sends(&mut clause, taker, source.sends_of(taker))?;
    clauses.add(clause.as_slice())?;
    Ok(())
}
