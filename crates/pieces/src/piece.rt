//! One piece.

ghost use Rattle.std.specs.Prelude.{◌≤◌, ◌<◌, ◌≡◌};
ghost use Rattle.pieces.specs.Pieces.{Answers, OfPiece, start_of_piece};

use clauses::Formula;
use refutations::{FaultyLine, Line, PartialAssignment, check_lines_in};
use std::alloc::Global;
use thiserror::Error;

/// Why lines aren't accepted.
#[derive(Clone, Copy, Debug, PartialEq, Eq, Error)]
pub enum LinesFault {
    /// Memory ran out, which says nothing of the lines.
    #[error("memory")]
    Memory,
    /// The first of the lines that isn't derived, with the number that hints name it by.
    #[error("{0}")]
    Line(FaultyLine),
}

/// The place of a piece's first line, which is where the piece before it ends.
fn start_of(lines: usize, pieces: usize, piece: usize) -> usize
    requires some { 0 < pieces }
    requires few { pieces ≤ 64 }
    requires within { piece ≤ pieces }
    ensures { result ≡ start_of_piece lines pieces piece }
{
    (piece as u128 * lines as u128 / pieces as u128) as usize
}

/// Whether each line of one piece is derived from the formula and all lines before it, in this
/// piece or an earlier one; else the first line of the piece that isn't.
///
/// There are 1 to 64 pieces. Pieces and the places of lines are numbered from 0; of `n` lines,
/// piece `j` has those from `j * n / pieces`, rounded down, up to where the next piece starts. A
/// piece without lines is right. Takes four bytes for each variable, and answers
/// [`LinesFault::Memory`] where there isn't so much memory.
pub fn check_piece(
    alloc: Global,
    formula: &Formula,
    lines: &[Line],
    pieces: usize,
    piece: usize,
) -> Result<(), LinesFault>
    requires few { pieces ≤ 64 }
    requires within { piece < pieces }
    ensures { OfPiece formula.now lines.now pieces piece result }
{
    let from = start_of(lines.len(), pieces, piece);
    let to = start_of(lines.len(), pieces, piece + 1);
    let Ok(mut known) = PartialAssignment::new(alloc, formula.variables()) else {
        return Err(LinesFault::Memory);
    };
    match check_lines_in(&mut known, formula, lines, from, to) {
        Ok(()) => Ok(()),
        Err(found) => Err(LinesFault::Line(found)),
    }
}

/// Whether each line is derived from the formula and the lines before it; else the first that
/// isn't.
///
/// All lines are one piece, which the calling thread checks: [`check_pieces`](crate::check_pieces)
/// without threads and gate.
pub fn check_all(alloc: Global, formula: &Formula, lines: &[Line]) -> Result<(), LinesFault>
    ensures { Answers formula.now lines.now result }
{
    check_piece(alloc, formula, lines, 1, 0)
}
