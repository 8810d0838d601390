//! The text of a formula.

ghost use Rattle.std.specs.Prelude.{◌≡◌, ◌++◌, ◌∷◌, [], IfOk, OnOk};
ghost use Rattle.std.specs.List.{flat_map};
ghost use Rattle.prooflog.specs.Refutations.{literal_word};
ghost use Rattle.exports.specs.Dimacs.{dimacs_heading, dimacs_clause, dimacs_formula, dimacs_text};

use crate::comments::put_comments;
use crate::events::events_of;
use crate::words::{put_number, put_word};
use clauses::{Clause, Formula, Lit};
use encode::Encoded;
use std::alloc::{AllocError, Global};

/// Writes the heading of a formula with so many variables and clauses.
fn put_heading(out: &mut Vec<u8>, variables: u32, clauses: usize) -> Result<(), AllocError>
    ensures { OnOk result (out.new.items ≡ out.old.items ++ dimacs_heading variables clauses) }
{
    out.push(b'p')?;
    put_word(out, "cnf")?;
    put_number(out, variables as u128)?;
    put_number(out, clauses as u128)?;
    out.push(b'\n')?;
    Ok(())
}

/// Writes the literal's word and a space.
fn put_literal(out: &mut Vec<u8>, literal: &Lit) -> Result<(), AllocError>
    ensures { OnOk result (out.new.items ≡ out.old.items ++ (literal_word literal.now ++ 32 ∷ [])) }
{
    if !literal.is_positive() {
        out.push(b'-')?;
    }
    plaintext::put_number(out, literal.variable())?;
    out.push(b' ')?;
    Ok(())
}

fn put_literals(out: &mut Vec<u8>, literals: &[Lit]) -> Result<(), AllocError>
    ensures { OnOk result (out.new.items ≡ out.old.items ++ flat_map (λ l. literal_word l ++ 32 ∷ []) literals.now) }
{
    for literal in literals {
        put_literal(out, literal)?;
    }
    Ok(())
}

/// Writes the line of the clause.
fn put_clause(out: &mut Vec<u8>, clause: &Clause) -> Result<(), AllocError>
    ensures { OnOk result (out.new.items ≡ out.old.items ++ dimacs_clause clause.now) }
{
    put_literals(out, clause.literals())?;
    out.extend_from_slice(b"0\n")?;
    Ok(())
}

fn put_clauses(out: &mut Vec<u8>, clauses: &[Clause]) -> Result<(), AllocError>
    ensures { OnOk result (out.new.items ≡ out.old.items ++ flat_map dimacs_clause clauses.now) }
{
    for clause in clauses {
        put_clause(out, clause)?;
    }
    Ok(())
}

/// Writes the formula.
fn put_formula(out: &mut Vec<u8>, formula: &Formula) -> Result<(), AllocError>
    ensures { OnOk result (out.new.items ≡ out.old.items ++ dimacs_formula formula.now) }
{
    put_heading(out, formula.variables(), formula.len())?;
    put_clauses(out, formula.clauses())?;
    Ok(())
}

/// The text of a program's formula in the DIMACS format.
///
/// First comes for each variable, in the order of their numbers, a comment line `c V ..` that tells
/// what it stands for: `issued C`, `buffered C`, `matched S T` of a send and a taker,
/// `unfinished R`, `seen S P` of a send and a probe, `bit I of E`, `E before E`, or
/// `N equal bits of E and E`. An event E is `issue C`, `match T` or `see P`. Calls are numbered
/// from 1, ranks from 0, and the bits of a clock from 1, the highest. Then come the heading
/// `p cnf V C`, with the numbers of variables and of clauses, and a line for each clause, its
/// literals and a 0. The only error is want of memory.
pub fn dimacs_text(alloc: Global, encoded: &Encoded) -> Result<Vec<u8>, AllocError>
    ensures { IfOk result (λ text. text.items ≡ dimacs_text encoded.now.program) }
{
    let events = events_of(alloc, encoded.program())?;
    let mut out = Vec::new(alloc);
    put_comments(&mut out, encoded, &events)?;
    put_formula(&mut out, encoded.formula())?;
    Ok(out)
}
