//! How far a text is cut into pieces, and how its words end.

ghost use Rattle.std.specs.Prelude.{◌≡◌, ◌<◌, map};
ghost use Rattle.spmd_text.specs.parts.Tokens.{Steps, GivesNumber, GivesPlace, seen};
ghost use Rattle.spmd_text.specs.Tokens.{wants_more, number_from, place_from, placed, name_ended, word_ended, named_new, is_word_byte, piece_pushed, worded};

use crate::fault::ParseReason;
use crate::piece::{Piece, Token};
use crate::words::word_of;
use std::alloc::{AllocError, AllocFailed, Global};

/// Why cutting stopped.
#[derive(Clone, Copy)]
pub(crate) enum Halt {
    /// The allocator refused memory.
    Memory,
    Wrong(ParseReason),
}

impl From<AllocError> for Halt {
    ghost use Rattle.spmd_text.specs.declared.lexer.Halt.TheVariants.{Memory};

    ghost from_gives = { λ _ e. e ≡ Memory };

    fn from(_e: AllocError) -> Halt {
        Halt::Memory
    }
}

impl<T: Drop> From<AllocFailed<T>> for Halt {
    ghost use Rattle.spmd_text.specs.declared.lexer.Halt.TheVariants.{Memory};

    ghost from_gives = { λ _ e. e ≡ Memory };

    fn from(_e: AllocFailed<T>) -> Halt {
        Halt::Memory
    }
}

/// What has been read of a text.
#[derive(Drop)]
pub(crate) struct Lexer {
    pub(crate) tokens: Vec<Token>,
    pub(crate) names: Vec<Vec<u8>>,
    /// The letters and digits of the word that is going on.
    pub(crate) word: Vec<u8>,
    /// One of `=`, `!`, `<` and `>`, to which a `=` may come.
    pub(crate) sign: Option<u8>,
    pub(crate) line: u32,
    pub(crate) comment: bool,
    /// How many brackets are open.
    pub(crate) brackets: u32,
    /// Whether the last piece ends a line or wants more.
    pub(crate) goes_on: bool,
}

/// Whether a line goes on after the piece, or has ended.
fn wants_more(piece: Piece) -> bool
    ensures { result ≡ wants_more piece }
{
    match piece {
        Piece::Comma => true,
        Piece::LineEnd => true,
        _ => false,
    }
}

/// The number that the digits are.
fn number_of(word: &[u8]) -> Result<i64, Halt>
    ensures { GivesNumber result (number_from 0 word.now) }
{
    let mut value: u64 = 0;
    for digit in word {
        if !digit.is_ascii_digit() {
            return Err(Halt::Wrong(ParseReason::Character));
        }
        let longer = value as u128 * 10 + (*digit - b'0') as u128;
        if longer >= 9_223_372_036_854_775_808 {
            return Err(Halt::Wrong(ParseReason::NumberTooLarge));
        }
        value = longer as u64;
    }
    Ok(value as i64)
}

/// The place of a name among these.
pub fn place_of(names: &[Vec<u8>], word: &[u8]) -> Option<usize>
    ensures { result ≡ place_from word.now 0 (map (λ n. n.items) names.now) }
{
    for (place, name) in names.iter().enumerate() {
        if name.as_slice() == word {
            return Some(place);
        }
    }
    None
}

/// The place as a number of 32 bits.
fn placed(place: usize) -> Result<u32, Halt>
    ensures { GivesPlace result (placed place) }
{
    if place > 4_294_967_295 {
        return Err(Halt::Wrong(ParseReason::TextTooLarge));
    }
    Ok(place as u32)
}

/// Whether the byte is a letter, a digit or `_`.
pub(crate) fn is_word_byte(byte: u8) -> bool
    ensures { result ≡ is_word_byte byte }
{
    byte.is_ascii_alphanumeric() || byte == b'_'
}

impl Lexer {
    /// Adds a piece, on the line that is going on.
    pub(crate) fn push(&mut self, piece: Piece) -> Result<(), Halt>
        ensures { Steps result (Ok (piece_pushed piece (seen self.old))) (seen self.new) }
    {
        let line = self.line;
        self.tokens.push(Token { line, piece })?;
        self.goes_on = wants_more(piece);
        Ok(())
    }

    /// A name that the text didn't have before.
    #[tactic(auto, unfolding(crate::specs::Tokens::named_new))]
    fn add_name(&mut self, alloc: Global) -> Result<(), Halt>
        ensures { Steps result (named_new (seen self.old)) (seen self.new) }
    {
        let place = placed(self.names.len())?;
        let mut name = Vec::new(alloc);
        name.extend_from_slice(self.word.as_slice())?;
        self.names.push(name)?;
        self.push(Piece::Name(place))
    }

    /// Ends a name, of 32 bytes at most: its piece is its place among the names.
    #[tactic(auto, unfolding(crate::specs::Tokens::name_ended))]
    fn end_name(&mut self, alloc: Global) -> Result<(), Halt>
        ensures { Steps result (name_ended (seen self.old)) (seen self.new) }
    {
        if self.word.len() > 32 {
            return Err(Halt::Wrong(ParseReason::NameTooLong));
        }
        match place_of(&self.names, &self.word) {
            Some(place) => {
                let place = placed(place)?;
                self.push(Piece::Name(place))
            }
            None => self.add_name(alloc),
        }
    }

    /// The piece that the word is, which has this first byte.
    #[tactic(auto, unfolding(crate::specs::Tokens::worded))]
    fn push_word(&mut self, alloc: Global, first: u8) -> Result<(), Halt>
        ensures { Steps result (worded first (seen self.old)) (seen self.new) }
    {
        if first.is_ascii_digit() {
            let number = number_of(&self.word)?;
            return self.push(Piece::Number(number));
        }
        match word_of(&self.word) {
            Some(word) => self.push(Piece::Word(word)),
            None => self.end_name(alloc),
        }
    }

    /// Ends a word, where one is going on.
    #[tactic(auto, unfolding(crate::specs::Tokens::word_ended))]
    pub(crate) fn end_word(&mut self, alloc: Global) -> Result<(), Halt>
        ensures { Steps result (word_ended (seen self.old)) (seen self.new) }
    {
        match self.word.first() {
            None => Ok(()),
            Some(first) => {
                let first = *first;
                self.push_word(alloc, first)?;
                self.word.clear();
                Ok(())
            }
        }
    }
}
