//! The text of a formula.

ghost use Rattle.std.specs.Prelude.{◌≡◌, ◌++◌, ◌<◌, ◌^◌, IfOk, OnOk, length};
ghost use Rattle.std.specs.List.{flat_map};
ghost use Rattle.prooflog.specs.FormulaText.{clause_line, formula_heading, formula_text};

use crate::writer::put_literals;
use clauses::{Clause, Formula};
use plaintext::put_number;
use std::alloc::{AllocError, Global};

/// Writes the heading of a formula with so many variables and clauses at the end.
fn put_heading(out: &mut Vec<u8>, variables: u32, clauses: u32) -> Result<(), AllocError>
    ensures { OnOk result (out.new.items ≡ out.old.items ++ formula_heading variables clauses) }
{
    out.extend_from_slice(b"formula ")?;
    put_number(out, variables)?;
    out.push(b' ')?;
    put_number(out, clauses)?;
    out.push(b'\n')?;
    Ok(())
}

/// Writes the line of a clause at the end.
fn put_clause(out: &mut Vec<u8>, clause: &Clause) -> Result<(), AllocError>
    ensures { OnOk result (out.new.items ≡ out.old.items ++ clause_line clause.now) }
{
    out.extend_from_slice(b"clause")?;
    put_literals(out, clause.literals())?;
    out.push(b'\n')?;
    Ok(())
}

fn put_clauses(out: &mut Vec<u8>, clauses: &[Clause]) -> Result<(), AllocError>
    ensures { OnOk result (out.new.items ≡ out.old.items ++ flat_map clause_line clauses.now) }
{
    for clause in clauses {
        put_clause(out, clause)?;
    }
    Ok(())
}

/// The text of a formula: the line `formula V C`, with the numbers of its variables and of its
/// clauses, and a line for each clause, the word `clause` and its literals, for a formula of less
/// than 2^32 clauses. The only error is want of memory.
pub fn write_formula(alloc: Global, formula: &Formula) -> Result<Vec<u8>, AllocError>
    requires { length formula.now.clauses < 2 ^ 32 }
    ensures { IfOk result (λ text. text.items ≡ formula_text formula.now) }
{
    let mut out = Vec::new(alloc);
    put_heading(&mut out, formula.variables(), formula.len() as u32)?;
    put_clauses(&mut out, formula.clauses())?;
    Ok(out)
}
