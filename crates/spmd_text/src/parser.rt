//! How far the pieces of a text are read.

ghost use Rattle.std.specs.Prelude.{IsTrue, ◌≡◌, ℕ, nat_eq, List, Some, None, true, false};
ghost use Rattle.spmd_text.specs.declared.piece.Token.{Token};
ghost use Rattle.spmd_text.specs.declared.piece.Piece.TheVariants as piece;
ghost use Rattle.spmd_text.specs.parts.Reading.{next, next_of, behind_next, first_noted, Goes, StandsBefore};
ghost use Rattle.spmd_text.specs.Spelling.{after_piece, piece_begins};
ghost use Rattle.spmd_text.specs.parts.Parts.{HasRead, is_plain, name_part, piece_part};
ghost use Rattle.spmd_text.specs.Statements.{line_of_first_piece};
ghost use Rattle.spmd_text.specs.Words.{code};

use crate::codes::code;
use crate::fault::ParseReason;
use crate::piece::{Piece, Token};
use std::alloc::Global;

/// The pieces of a text that are left, and what was read of it.
#[derive(Drop)]
pub(crate) struct Parser<'a> {
    pub(crate) alloc: Global,
    pub(crate) rest: &'a [Token],
    pub(crate) names: &'a [Vec<u8>],
    /// The places of parameters.
    pub(crate) parameters: Vec<u32>,
    /// The variables of the loops that are open.
    pub(crate) loops: Vec<u32>,
    /// Whether the value of a parameter is read.
    pub(crate) in_parameter: bool,
    /// What is wrong first: no piece is read behind it.
    pub(crate) fault: Option<ParseReason>,
}

/// The first piece, where nothing is wrong.
fn first_piece(fault: Option<ParseReason>, tokens: &[Token]) -> Piece
    ensures { result ≡ next_of fault tokens.now }
{
    match fault {
        Some(_) => Piece::TextEnd,
        None => {
            let [first, ..] = tokens else {
                return Piece::TextEnd;
            };
            first.piece
        }
    }
}

impl Parser<'_> {
    /// The piece that is read next.
    pub(crate) fn piece(&self) -> Piece
        ensures { result ≡ next self.now }
    {
        first_piece(self.fault, self.rest)
    }

    /// Notes what is wrong, unless something was before.
    pub(crate) fn fail(&mut self, reason: ParseReason)
        ensures { self.new ≡ record self.old { fault = first_noted self.old.fault reason } }
    {
        match self.fault {
            None => self.fault = Some(reason),
            Some(_) => {}
        }
    }

    /// The line of the piece that is read next; 1, where none is left.
    pub(crate) fn line(&self) -> u32
        ensures { result ≡ line_of_first_piece self.now.rest.now }
    {
        match self.rest.first() {
            Some(token) => token.line,
            None => 1,
        }
    }

    /// Takes a piece.
    pub(crate) fn step(&mut self)
        ensures goes { Goes self.old self.new }
        ensures left { self.new.rest.now ≡ behind_next self.old.rest.now }
        ensures fault { self.new.fault ≡ self.old.fault }
    {
        if let [_, rest @ ..] = self.rest {
            self.rest = rest;
        }
    }

    /// Whether the next piece is this one; a name is any name, and a number any number.
    pub(crate) fn is(&self, piece: Piece) -> bool
        ensures { result ≡ nat_eq (code (next self.now)) (code piece) }
    {
        code(self.piece()) == code(piece)
    }

    /// Takes the piece, if it is this one.
    pub(crate) fn take(&mut self, piece: Piece) -> bool
        ensures goes { Goes self.old self.new }
        ensures found { result ≡ nat_eq (code (next self.old)) (code piece) }
        ensures taken { (rest : List Token) → self.old.fault ≡ None →
            after_piece piece (Some self.old.rest.now) ≡ Some rest → (result ≡ true) × StandsBefore self.new rest }
        ensures left { result ≡ false → self.new ≡ self.old }
        ensures passed { result ≡ true → (self.new.fault ≡ self.old.fault) × (self.new.rest.now ≡ behind_next self.old.rest.now) }
        ensures reads { result ≡ true → is_plain piece ≡ true → HasRead (piece_part piece) self.old self.new (tt {0}) }
        ensures there { result ≡ true → self.old.fault ≡ None → is_plain piece ≡ true → piece_begins piece (Some self.old.rest.now) ≡ true }
    {
        if !self.is(piece) {
            return false;
        }
        self.step();
        true
    }

    /// Takes the piece, which has to stand here.
    pub(crate) fn expect(&mut self, piece: Piece, reason: ParseReason)
        ensures goes { Goes self.old self.new }
        ensures taken { (rest : List Token) → self.old.fault ≡ None →
            after_piece piece (Some self.old.rest.now) ≡ Some rest → StandsBefore self.new rest }
        ensures passed { self.new.fault ≡ None →
            (nat_eq (code (next self.old)) (code piece) ≡ true) ×
            (self.new.rest.now ≡ behind_next self.old.rest.now) }
        ensures reads { IsTrue (is_plain piece) → HasRead (piece_part piece) self.old self.new result }
    {
        if !self.take(piece) {
            self.fail(reason);
        }
    }

    /// Takes a name.
    pub(crate) fn name(&mut self) -> u32
        ensures goes { Goes self.old self.new }
        ensures taken { (name : ℕ) (rest : List Token) → self.old.fault ≡ None →
            after_piece (piece.Name name) (Some self.old.rest.now) ≡ Some rest →
            (result ≡ name) × StandsBefore self.new rest }
        ensures passed { self.new.fault ≡ None → after_piece (piece.Name result) (Some self.old.rest.now) ≡ Some self.new.rest.now }
        ensures reads { HasRead name_part self.old self.new result }
    {
        match self.piece() {
            Piece::Name(name) => {
                self.step();
                name
            }
            _ => {
                self.fail(ParseReason::NoName);
                0
            }
        }
    }

    /// Takes a comma.
    pub(crate) fn comma(&mut self)
        ensures goes { Goes self.old self.new }
        ensures taken { (rest : List Token) → self.old.fault ≡ None →
            after_piece piece.Comma (Some self.old.rest.now) ≡ Some rest → StandsBefore self.new rest }
        ensures passed { self.new.fault ≡ None → after_piece piece.Comma (Some self.old.rest.now) ≡ Some self.new.rest.now }
        ensures reads { HasRead (piece_part piece.Comma) self.old self.new result }
    {
        self.expect(Piece::Comma, ParseReason::NoComma);
    }

    /// Takes the end of a line.
    pub(crate) fn end_line(&mut self)
        ensures { HasRead (piece_part piece.LineEnd) self.old self.new result }
    {
        self.expect(Piece::LineEnd, ParseReason::TooMuch);
    }
}
