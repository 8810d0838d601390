//! The formula of the runs that finish.

ghost use Rattle.std.specs.Prelude.{◌≡◌, ◌++◌, ◌∷◌, [], if◌then◌else◌, filter, IfOk, IfSome, OnOk};
ghost use Rattle.std.specs.List.{list_all};
ghost use Rattle.formula.specs.Numbering.{numbered};
ghost use Rattle.finishing.specs.Formula.{is_unfinished_fact, is_unfinished_meaning, says_unfinished, says_more, all_ranks_finish, finishing_formula_of};

use crate::endings::all_ranks_finish;
use clauses::{Clause, Formula, Lit};
use encode::{EncodeFault, Encoded, normal_forms};
use formula::{Fact, Meaning, Statement};
use formula_families::Symbolic;
use formula_tables::Variables;
use std::alloc::{AllocError, Global};

/// Whether the fact is that a rank is unfinished.
fn is_unfinished_fact(fact: &Fact) -> bool
    ensures { result ≡ is_unfinished_fact fact.now }
{
    match *fact {
        Fact::Issued(_) | Fact::Buffered(_) | Fact::Matched(_, _) => false,
        Fact::Unfinished(_) => true,
    }
}

/// Whether a variable of this meaning stands for the fact that a rank is unfinished.
fn is_unfinished_meaning(meaning: Option<Meaning>) -> bool
    ensures { result ≡ is_unfinished_meaning meaning }
{
    match meaning {
        None => false,
        Some(Meaning::OfFact(fact)) => is_unfinished_fact(&fact),
        Some(Meaning::ClockBit(_, _)) => false,
        Some(Meaning::Before(_, _)) => false,
        Some(Meaning::SameBits(_, _, _)) => false,
    }
}

/// Whether the literal says that a rank is unfinished.
fn says_unfinished(encoded: &Encoded, literal: &Lit) -> bool
    ensures { result ≡ says_unfinished encoded.now.program literal.now }
{
    literal.is_positive() && is_unfinished_meaning(encoded.meaning(literal.variable()))
}

/// Whether each of the literals says that a rank is unfinished.
fn say_unfinished(encoded: &Encoded, literals: &[Lit]) -> bool
    ensures { result ≡ list_all (says_unfinished encoded.now.program) literals.now }
{
    literals
        .iter()
        .all(|literal| says_unfinished(encoded, literal))
}

/// Whether the clause says something else than that one of some ranks is unfinished.
fn says_more(encoded: &Encoded, clause: &Clause) -> bool
    ensures { result ≡ says_more encoded.now.program clause.now }
{
    !say_unfinished(encoded, clause.literals())
}

/// Adds a copy of the clause, where it says more.
fn push_kept(
    kept: &mut Vec<Clause>,
    alloc: Global,
    encoded: &Encoded,
    clause: &Clause,
) -> Result<(), AllocError>
    ensures { OnOk result (kept.new.items ≡ kept.old.items ++ (if says_more encoded.now.program clause.now then clause.now ∷ [] else [])) }
{
    if says_more(encoded, clause) {
        let copy = clause.copy(alloc)?;
        kept.push(copy)?;
    }
    Ok(())
}

/// Copies of the clauses of the formula of stuck runs that say more.
fn kept_clauses(alloc: Global, encoded: &Encoded) -> Result<Vec<Clause>, AllocError>
    ensures { IfOk result (λ kept. kept.items ≡ filter (says_more encoded.now.program) encoded.now.formula.clauses) }
{
    let mut kept = Vec::new(alloc);
    for clause in encoded.formula().clauses() {
        push_kept(&mut kept, alloc, encoded, clause)?;
    }
    Ok(kept)
}

/// The normal forms of these clauses; none where there are more than 4,000,000.
fn few_normal_forms(
    alloc: Global,
    variables: &Variables<'_>,
    clauses: &Symbolic<Statement>,
) -> Result<Option<Vec<Clause>>, AllocError>
    ensures { IfOk result (λ found. IfSome found (λ forms. forms.items ≡ numbered variables.now clauses.now)) }
{
    match normal_forms(alloc, variables, clauses) {
        Ok(forms) => Ok(Some(forms)),
        Err(EncodeFault::Memory) => Err(AllocError),
        Err(EncodeFault::TooManyEvents) => Ok(None),
        Err(EncodeFault::TooManyClauses) => Ok(None),
    }
}

/// The clauses that say that all ranks finish, in their normal forms; none where there are more
/// than 4,000,000.
fn ending_clauses(alloc: Global, encoded: &Encoded) -> Result<Option<Vec<Clause>>, AllocError>
    ensures { IfOk result (λ found. IfSome found (λ clauses.
        clauses.items ≡ numbered encoded.now.program (all_ranks_finish encoded.now.program))) }
{
    let endings = all_ranks_finish(alloc, encoded.program())?;
    let variables = encoded.variables(alloc)?;
    few_normal_forms(alloc, &variables, &endings)
}

/// The formula of the runs that finish, by that of the stuck runs: without the clause that some
/// rank is unfinished, and with clauses that say that all ranks finish. Its variables stand for
/// what those of the formula of stuck runs stand for.
///
/// None is made where the clauses that say that all ranks finish are more than 4,000,000, or where
/// one of them has a variable that isn't the formula's. The only error is want of memory: the
/// formula of stuck runs is copied.
pub fn finishing_formula(alloc: Global, encoded: &Encoded) -> Result<Option<Formula>, AllocError>
    ensures { IfOk result (λ found. IfSome found (λ formula. formula ≡ finishing_formula_of encoded.now.program)) }
{
    let variables = encoded.formula().variables();
    let endings = ending_clauses(alloc, encoded)?;
    let Some(mut endings) = endings else {
        return Ok(None);
    };
    let mut clauses = kept_clauses(alloc, encoded)?;
    clauses.append(&mut endings)?;
    Ok(Formula::make(variables, clauses).ok())
}
