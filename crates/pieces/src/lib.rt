//! Proof lines checked in pieces of about equal length, each in a thread of its own where one can
//! be started.
//!
//! Pieces and the places of lines are numbered from 0. `specs/Pieces.antt` says which lines a piece
//! has, and which answer is right for it and for all lines; there is one right answer, want of
//! memory aside, in however many pieces it is found.
#![tactic(auto)]

mod join;
mod laws;
mod piece;
mod run;

pub use laws::one_answer;
pub use piece::{LinesFault, check_all, check_piece};
pub use run::{PieceGate, check_pieces};
