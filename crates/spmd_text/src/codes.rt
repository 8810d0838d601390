//! How pieces of a text are told apart.

ghost use Rattle.std.specs.Prelude.{◌≡◌};
ghost use Rattle.spmd_text.specs.Words.{word_code, code};

use crate::piece::{Piece, Word};

/// The number of a word, 0 to 52.
fn word_code(word: Word) -> u32
    ensures { result ≡ word_code word }
{
    match word {
        Word::Spmd => 0,
        Word::Policy => 1,
        Word::Any => 2,
        Word::Never => 3,
        Word::Always => 4,
        Word::Param => 5,
        Word::Let => 6,
        Word::For => 7,
        Word::To => 8,
        Word::Step => 9,
        Word::End => 10,
        Word::If => 11,
        Word::Then => 12,
        Word::Elif => 13,
        Word::Else => 14,
        Word::Error => 15,
        Word::Comm => 16,
        Word::Among => 17,
        Word::Rank => 18,
        Word::Size => 19,
        Word::Null => 20,
        Word::Not => 21,
        Word::And => 22,
        Word::Or => 23,
        Word::Div => 24,
        Word::Mod => 25,
        Word::Shl => 26,
        Word::Shr => 27,
        Word::Xor => 28,
        Word::Send => 29,
        Word::Ssend => 30,
        Word::Bsend => 31,
        Word::Isend => 32,
        Word::Issend => 33,
        Word::Ibsend => 34,
        Word::Recv => 35,
        Word::Irecv => 36,
        Word::Probe => 37,
        Word::Mprobe => 38,
        Word::Mrecv => 39,
        Word::Imrecv => 40,
        Word::Wait => 41,
        Word::Waitall => 42,
        Word::Sendrecv => 43,
        Word::Barrier => 44,
        Word::Bcast => 45,
        Word::Reduce => 46,
        Word::Allreduce => 47,
        Word::Gather => 48,
        Word::Scatter => 49,
        Word::Allgather => 50,
        Word::Alltoall => 51,
        Word::Scan => 52,
    }
}

/// The number of a piece, by which it is told apart, but for which name or number it is.
pub(crate) fn code(piece: Piece) -> u32
    ensures { result ≡ code piece }
{
    match piece {
        Piece::Word(word) => word_code(word),
        Piece::Name(_) => 100,
        Piece::Number(_) => 101,
        Piece::Equals => 102,
        Piece::Same => 103,
        Piece::Other => 104,
        Piece::Below => 105,
        Piece::UpTo => 106,
        Piece::Above => 107,
        Piece::From => 108,
        Piece::Plus => 109,
        Piece::Minus => 110,
        Piece::Star => 111,
        Piece::Open => 112,
        Piece::Close => 113,
        Piece::OpenIndex => 114,
        Piece::CloseIndex => 115,
        Piece::Comma => 116,
        Piece::LineEnd => 117,
        Piece::TextEnd => 118,
    }
}
