//! The text of proof lines.

ghost use Rattle.std.specs.Prelude.{◌≡◌, ◌≤◌, ◌+◌, ◌^◌, ◌++◌, IfOk, OnOk};
ghost use Rattle.exports.specs.Lrat.{lrat_line, lrat_text};

use prooflog::{put_hints, put_literals};
use refutations::Line;
use std::alloc::{AllocError, Global};
use writing::put_number;

/// Writes the line of a proof line whose clause has this number. A `u128` holds the sum of numbers
/// of clauses and of lines.
fn put_line(out: &mut Vec<u8>, number: u128, line: &Line) -> Result<(), AllocError>
    ensures { OnOk result (out.new.items ≡ out.old.items ++ lrat_line number line.now) }
{
    put_number(out, number)?;
    put_literals(out, line.literals())?;
    out.extend_from_slice(b" 0")?;
    put_hints(out, line.hints())?;
    out.extend_from_slice(b" 0\n")?;
    Ok(())
}

/// Writes the lines of proof lines that come after so many clauses.
fn put_lines(out: &mut Vec<u8>, clauses: u128, lines: &[Line]) -> Result<(), AllocError>
    requires { clauses ≤ 2 ^ 65 }
    ensures { OnOk result (out.new.items ≡ out.old.items ++ lrat_text (clauses + 1) lines.now) }
{
    for (place, line) in lines.iter().enumerate() {
        put_line(out, clauses + place as u128 + 1, line)?;
    }
    Ok(())
}

/// The text of a proof in the LRAT format: for each of the lines, and then of those that are added
/// to them, the number of its clause, its literals, a 0, its hints and a 0. So many clauses of a
/// formula come before, so the first line has the next number. No clause is deleted. The only error
/// is want of memory.
pub fn lrat_text(
    alloc: Global,
    clauses: usize,
    lines: &[Line],
    added: &[Line],
) -> Result<Vec<u8>, AllocError>
    ensures { IfOk result (λ text. text.items ≡ lrat_text (clauses + 1) (lines.now ++ added.now)) }
{
    let mut out = Vec::new(alloc);
    put_lines(&mut out, clauses as u128, lines)?;
    put_lines(&mut out, clauses as u128 + lines.len() as u128, added)?;
    Ok(out)
}
