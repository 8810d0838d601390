//! All pieces.

ghost use Rattle.std.specs.Prelude.{◌≡◌, ◌≤◌, ◌<◌, IfOk, ℕ, vec_len, slice_index_or};
ghost use Rattle.pieces.specs.parts.Pieces.{AreOfPieces};
ghost use Rattle.pieces.specs.Pieces.{Answers, OfPiece};

use crate::join::joined;
use crate::piece::{LinesFault, check_piece};
use clauses::Formula;
use refutations::Line;
use std::alloc::{AllocError, Global};
use std::thread;
use std::thread::Threads;

/// What each piece passes through before it is checked, so that tests can tell the order of pieces
/// and set it.
pub trait PieceGate {
    /// Called once for each piece, numbered from 0, by the thread that checks it and before its
    /// first line is checked. A gate that keeps a piece waiting for another one has to give up at
    /// some time: where no thread can be started the calling thread checks one piece after the
    /// other.
    fn before(&self, piece: usize);
}

fn pass_and_check<G: PieceGate>(
    alloc: Global,
    formula: &Formula,
    lines: &[Line],
    pieces: usize,
    piece: usize,
    gate: &G,
) -> Result<(), LinesFault>
    requires few { pieces ≤ 64 }
    requires within { piece < pieces }
    ensures { OfPiece formula.now lines.now pieces piece result }
{
    gate.before(piece);
    check_piece(alloc, formula, lines, pieces, piece)
}

fn answers_of<R: Threads + Sync, G: PieceGate + Sync>(
    rt: &R,
    alloc: Global,
    formula: &Formula,
    lines: &[Line],
    pieces: usize,
    gate: &G,
) -> Result<Vec<Result<(), LinesFault>>, AllocError>
    requires { pieces ≤ 64 }
    ensures { IfOk result (λ answers. AreOfPieces formula.now lines.now pieces answers.items) }
{
    thread::map_indices(
        rt,
        alloc,
        pieces,
        &|piece: usize| -> Result<(), LinesFault>
            requires { (pieces ≤ 64) × (piece < pieces) }
            ensures { OfPiece formula.entry.now lines.entry.now pieces piece result }
        { pass_and_check(alloc, formula, lines, pieces, piece, gate) },
    )
}

/// Whether each line is derived from the formula and the lines before it; else the first that
/// isn't, over all pieces.
///
/// The lines are checked in 1 to 64 pieces, each after it passed the gate; [`check_piece`] says
/// which lines a piece has and what memory it takes. Each piece has a thread of its own, of which
/// the calling thread is one. A piece whose thread can't be started is checked by the thread that
/// was to start it, the calling thread or another piece's. The call waits for all pieces, also
/// where one of them has a fault.
///
/// [`LinesFault::Memory`] comes where any piece, or the list of the answers, met want of memory,
/// whatever the other pieces found. Apart from that the answer doesn't depend on the number of
/// pieces or on the order in which they are checked.
pub fn check_pieces<R: Threads + Sync, G: PieceGate + Sync>(
    rt: &R,
    alloc: Global,
    formula: &Formula,
    lines: &[Line],
    pieces: usize,
    gate: &G,
) -> Result<(), LinesFault>
    requires some { 0 < pieces }
    requires few { pieces ≤ 64 }
    ensures { Answers formula.now lines.now result }
{
    match answers_of(rt, alloc, formula, lines, pieces, gate) {
        Ok(answers) => joined(answers.as_slice()),
        Err(AllocError) => Err(LinesFault::Memory),
    }
}
