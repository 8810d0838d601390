//! The first line that isn't needed.

ghost use Rattle.std.specs.Prelude.{◌≡◌, ◌+◌, IfOk, IfNone, IfSome};
ghost use Rattle.trimming.specs.Needed.{Needed, IsFirstUnneeded};

use crate::marks::needed_lines;
use refutations::{Line, ProofTree};
use std::alloc::{AllocError, Global};

/// The number of the first line that isn't needed, if there is one, where so many clauses stand
/// before the lines. It takes time linear in the hints and nodes, and one byte a line. The only
/// error is want of memory.
pub fn first_unneeded(
    alloc: Global,
    clauses: u32,
    lines: &[Line],
    tree: &ProofTree,
) -> Result<Option<usize>, AllocError>
    ensures none { IfOk result (λ found. IfNone found (Needed clauses lines.now tree.now)) }
    ensures some { IfOk result (λ found. IfSome found (IsFirstUnneeded clauses lines.now tree.now)) }
{
    let marks = needed_lines(alloc, clauses, lines, tree.nodes())?;
    for (place, mark) in marks.iter().enumerate() {
        if !*mark {
            return Ok(Some(clauses as usize + place + 1));
        }
    }
    Ok(None)
}
