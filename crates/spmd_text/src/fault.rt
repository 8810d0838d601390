//! Why a text is no SPMD text.

ghost use Rattle.std.specs.Prelude.{◌≡◌};
ghost use Rattle.spmd_text.specs.Faults.{reason_words};
ghost use Rattle.spmd_text.specs.declared.fault.ParseReason.TheVariants.{Memory};

use std::alloc::{AllocError, AllocFailed};

/// What is wrong on a line of an SPMD text. `TextTooLarge` to `NameTooLong` are faults of the
/// pieces, and the first of them in the text is told. Those below are faults of the grammar: the
/// first line that doesn't fit it is told, where the text has pieces.
#[derive(Clone, Copy)]
pub enum ParseReason {
    /// The allocator refused memory.
    Memory,
    /// More names than 32 bits count; a text of 65,536 bytes never has them.
    TextTooLarge,
    Character,
    NumberTooLarge,
    NameTooLong,
    NoHeading,
    NoStatement,
    NoName,
    NoEquals,
    NoTo,
    NoThen,
    NoElse,
    NoClose,
    NoIndexEnd,
    NoComma,
    TooMuch,
    NoExpression,
    NoCondition,
    NoNumber,
    Parentheses,
    StrayEnd,
    StrayElse,
    NoEnd,
    LateParameter,
    RepeatedParameter,
    LatePolicy,
    NoPolicy,
    RankInParameter,
    AssignedParameter,
    AssignedLoop,
    Step,
    StarDestination,
    Label,
    TooDeep,
    TooLong,
}

impl ParseReason {
    /// What is wrong, in words.
    pub fn text(self) -> &'static str
        ensures { result.now ≡ reason_words self }
    {
        match self {
            ParseReason::Memory => "memory",
            ParseReason::TextTooLarge => "the text has more than 65536 bytes",
            ParseReason::Character => "a character that has no meaning here",
            ParseReason::NumberTooLarge => "a number above 9223372036854775807",
            ParseReason::NameTooLong => "a name of more than 32 characters",
            ParseReason::NoHeading => "the first line has to be: spmd",
            ParseReason::NoStatement => "no statement begins so",
            ParseReason::NoName => "a name has to stand here",
            ParseReason::NoEquals => "`=` is missing",
            ParseReason::NoTo => "`to` is missing",
            ParseReason::NoThen => "`then` is missing",
            ParseReason::NoElse => "`else` is missing",
            ParseReason::NoClose => "`)` is missing",
            ParseReason::NoIndexEnd => "`]` is missing",
            ParseReason::NoComma => "`,` is missing",
            ParseReason::TooMuch => "more than belongs on the line",
            ParseReason::NoExpression => "a number or a name has to stand here",
            ParseReason::NoCondition => "a condition has to stand here",
            ParseReason::NoNumber => "a number has to stand here, and not a condition",
            ParseReason::Parentheses =>
                "write parentheses: div, mod, shl, shr and xor stand alone between two factors",
            ParseReason::StrayEnd => "`end` ends nothing",
            ParseReason::StrayElse => "`else` or `elif` without its `if`",
            ParseReason::NoEnd => "no `end`",
            ParseReason::LateParameter => "`param` after other statements",
            ParseReason::RepeatedParameter => "a second `param` of this name",
            ParseReason::LatePolicy => "`policy` has to stand right after `spmd`",
            ParseReason::NoPolicy => "a policy is any, none or all",
            ParseReason::RankInParameter =>
                "`rank` in the value of a parameter, which is the same on all ranks",
            ParseReason::AssignedParameter => "a parameter is given a value",
            ParseReason::AssignedLoop => "the variable of a loop is given a value in the loop",
            ParseReason::Step => "a step has to be 1 to 4294967295",
            ParseReason::StarDestination => "`*` as a destination",
            ParseReason::Label =>
                "a request or handle has a to z and 0 to 9 alone, at most 16, and at most 9 before an index; `ix` and digits do not end it",
            ParseReason::TooDeep => "more than 32 blocks or parentheses within one another",
            ParseReason::TooLong => "more than 256 parts in a row, or more than 1024 requests",
        }
    }
}

/// What is wrong with a text, and on which line, from 1.
#[derive(Clone, Copy)]
pub struct ParseFault {
    pub line: u32,
    pub reason: ParseReason,
}

/// Why a text was not read. A text that is too large is told as that, whatever it says. Else what
/// can't be cut into pieces is told before anything that the grammar refuses, wherever they stand.
#[derive(Clone, Copy)]
pub enum TextFault {
    /// The allocator refused memory.
    Memory,
    /// The text has more than 65,536 bytes.
    TooLarge,
    /// The text has no pieces: the first fault in it, byte by byte.
    Pieces(ParseFault),
    /// The text has pieces, and they are not written as the grammar says.
    Grammar(ParseFault),
}

impl From<AllocError> for ParseReason {
    ghost from_gives = { λ _ e. e ≡ Memory };

    fn from(_e: AllocError) -> ParseReason {
        ParseReason::Memory
    }
}

impl<T: Drop> From<AllocFailed<T>> for ParseReason {
    ghost from_gives = { λ _ e. e ≡ Memory };

    fn from(_e: AllocFailed<T>) -> ParseReason {
        ParseReason::Memory
    }
}
