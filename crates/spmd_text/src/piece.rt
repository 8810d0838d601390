//! The pieces of a text: words, names, numbers, signs and the ends of lines.

ghost use Rattle.std.specs.Prelude.{◌<◌};

/// A word of the language.
#[derive(Clone, Copy)]
pub(crate) enum Word {
    Spmd,
    Policy,
    Any,
    Never,
    Always,
    Param,
    Let,
    For,
    To,
    Step,
    End,
    If,
    Then,
    Elif,
    Else,
    Error,
    Comm,
    Among,
    Rank,
    Size,
    Null,
    Not,
    And,
    Or,
    Div,
    Mod,
    Shl,
    Shr,
    Xor,
    Send,
    Ssend,
    Bsend,
    Isend,
    Issend,
    Ibsend,
    Recv,
    Irecv,
    Probe,
    Mprobe,
    Mrecv,
    Imrecv,
    Wait,
    Waitall,
    Sendrecv,
    Barrier,
    Bcast,
    Reduce,
    Allreduce,
    Gather,
    Scatter,
    Allgather,
    Alltoall,
    Scan,
}

/// One piece of a text.
#[derive(Clone, Copy)]
pub(crate) enum Piece {
    Word(Word),
    /// A name, by its place, from 0, in the list of names.
    Name(u32),
    Number(i64),
    Equals,
    Same,
    Other,
    Below,
    UpTo,
    Above,
    From,
    Plus,
    Minus,
    Star,
    Open,
    Close,
    OpenIndex,
    CloseIndex,
    Comma,
    LineEnd,
    TextEnd,
}

/// A piece, and the line that it stands on, from 1.
#[derive(Clone, Copy)]
pub(crate) struct Token {
    pub(crate) line: u32,
    pub(crate) piece: Piece,
}

/// The pieces of a text, and the names that stand in it.
#[derive(Drop)]
pub(crate) struct Pieces {
    pub(crate) tokens: Vec<Token>,
    pub(crate) names: Vec<Vec<u8>>,
}
