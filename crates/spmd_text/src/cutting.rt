//! A text is cut into its pieces, byte by byte.

ghost use Rattle.std.specs.Prelude.{◌≡◌};
ghost use Rattle.spmd_text.specs.parts.Tokens.{Steps, GivesPieces, seen, fault_of_halt};
ghost use Rattle.spmd_text.specs.Tokens.{sign_ended, line_ended, equals, single, feed, fed, is_word_byte, text_finished, pieces_of, piece_pushed, opened, bracket_closed};

use crate::fault::{ParseFault, ParseReason, TextFault};
use crate::lexer::{Halt, Lexer, is_word_byte};
use crate::piece::{Piece, Pieces};
use std::alloc::Global;

impl Lexer {
    /// Ends a sign to which no `=` came. A `!` alone has no meaning.
    #[tactic(auto, unfolding(crate::specs::Tokens::sign_ended))]
    fn end_sign(&mut self) -> Result<(), Halt>
        ensures { Steps result (sign_ended (seen self.old)) (seen self.new) }
    {
        let Some(sign) = self.sign else {
            return Ok(());
        };
        self.sign = None;
        match sign {
            b'=' => self.push(Piece::Equals),
            b'<' => self.push(Piece::Below),
            b'>' => self.push(Piece::Above),
            _ => Err(Halt::Wrong(ParseReason::Character)),
        }
    }

    /// Ends a line, unless it goes on: within brackets, behind a comma, and where nothing stands on
    /// it.
    #[tactic(auto, unfolding(crate::specs::Tokens::line_ended))]
    fn end_line(&mut self) -> Result<(), Halt>
        ensures { Steps result (line_ended (seen self.old)) (seen self.new) }
    {
        if self.brackets == 0 && !self.goes_on {
            self.push(Piece::LineEnd)?;
            self.line = self.line.saturating_add(1);
            return Ok(());
        }
        self.line = self.line.saturating_add(1);
        Ok(())
    }

    /// A `=`: a sign of its own, or the end of the sign before it.
    #[tactic(auto, unfolding(crate::specs::Tokens::equals))]
    fn equals(&mut self) -> Result<(), Halt>
        ensures { Steps result (equals (seen self.old)) (seen self.new) }
    {
        let Some(sign) = self.sign else {
            self.sign = Some(b'=');
            return Ok(());
        };
        self.sign = None;
        match sign {
            b'=' => self.push(Piece::Same),
            b'!' => self.push(Piece::Other),
            b'<' => self.push(Piece::UpTo),
            _ => self.push(Piece::From),
        }
    }

    /// A bracket that opens: up to its end no line ends.
    fn bracket(&mut self, piece: Piece) -> Result<(), Halt>
        ensures { Steps result (Ok (piece_pushed piece (opened (seen self.old)))) (seen self.new) }
    {
        self.brackets = self.brackets.saturating_add(1);
        self.push(piece)
    }

    /// A bracket that closes. One that closes nothing is left to the grammar.
    fn unbracket(&mut self, piece: Piece) -> Result<(), Halt>
        ensures { Steps result (Ok (piece_pushed piece (bracket_closed (seen self.old)))) (seen self.new) }
    {
        self.brackets = self.brackets.saturating_sub(1);
        self.push(piece)
    }

    /// A byte that is no letter, digit or `_`, and no `=`.
    #[tactic(auto, unfolding(crate::specs::Tokens::single))]
    fn single(&mut self, byte: u8) -> Result<(), Halt>
        ensures { Steps result (single byte (seen self.old)) (seen self.new) }
    {
        match byte {
            b'\n' => self.end_line(),
            b' ' => Ok(()),
            b'\t' => Ok(()),
            b'\r' => Ok(()),
            b'#' => {
                self.comment = true;
                Ok(())
            }
            b'!' => {
                self.sign = Some(b'!');
                Ok(())
            }
            b'<' => {
                self.sign = Some(b'<');
                Ok(())
            }
            b'>' => {
                self.sign = Some(b'>');
                Ok(())
            }
            b'+' => self.push(Piece::Plus),
            b'-' => self.push(Piece::Minus),
            b'*' => self.push(Piece::Star),
            b',' => self.push(Piece::Comma),
            b'(' => self.bracket(Piece::Open),
            b'[' => self.bracket(Piece::OpenIndex),
            b')' => self.unbracket(Piece::Close),
            b']' => self.unbracket(Piece::CloseIndex),
            _ => Err(Halt::Wrong(ParseReason::Character)),
        }
    }

    /// A byte outside of comments.
    #[tactic(auto, unfolding(crate::specs::Tokens::fed))]
    fn feed_plain(&mut self, alloc: Global, byte: u8) -> Result<(), Halt>
        ensures { Steps result (fed byte (seen self.old)) (seen self.new) }
    {
        if is_word_byte(byte) {
            self.end_sign()?;
            self.word.push(byte)?;
            return Ok(());
        }
        self.end_word(alloc)?;
        if byte == b'=' {
            return self.equals();
        }
        self.end_sign()?;
        self.single(byte)
    }

    /// A byte of the text. A comment ends with its line.
    #[tactic(auto, unfolding(crate::specs::Tokens::feed))]
    fn feed(&mut self, alloc: Global, byte: u8) -> Result<(), Halt>
        ensures { Steps result (feed byte (seen self.old)) (seen self.new) }
    {
        if !self.comment {
            return self.feed_plain(alloc, byte);
        }
        if byte != b'\n' {
            return Ok(());
        }
        self.comment = false;
        self.feed_plain(alloc, byte)
    }

    /// Ends the last line, and the text.
    #[tactic(auto, unfolding(crate::specs::Tokens::text_finished))]
    fn finish(&mut self, alloc: Global) -> Result<(), Halt>
        ensures { Steps result (text_finished (seen self.old)) (seen self.new) }
    {
        self.end_word(alloc)?;
        self.end_sign()?;
        if !self.goes_on {
            self.push(Piece::LineEnd)?;
            return self.push(Piece::TextEnd);
        }
        self.push(Piece::TextEnd)
    }
}

/// The fault of this line.
fn fault_of(halt: Halt, line: u32) -> TextFault
    ensures { result ≡ fault_of_halt halt line }
{
    match halt {
        Halt::Memory => TextFault::Memory,
        Halt::Wrong(reason) => TextFault::Pieces(ParseFault { line, reason }),
    }
}

/// The pieces of the text.
pub(crate) fn cut(alloc: Global, bytes: &[u8]) -> Result<Pieces, TextFault>
    ensures { GivesPieces result (pieces_of bytes.now) }
{
    let mut lexer = Lexer {
        tokens: Vec::new(alloc),
        names: Vec::new(alloc),
        word: Vec::new(alloc),
        sign: None,
        line: 1,
        comment: false,
        brackets: 0,
        goes_on: true,
    };
    for byte in bytes {
        let line = lexer.line;
        match lexer.feed(alloc, *byte) {
            Err(halt) => return Err(fault_of(halt, line)),
            Ok(()) => {}
        }
    }
    let line = lexer.line;
    match lexer.finish(alloc) {
        Err(halt) => Err(fault_of(halt, line)),
        Ok(()) => Ok(Pieces {
            tokens: lexer.tokens,
            names: lexer.names,
        }),
    }
}
