//! What helps, before it is written as a text or as an object.

use crate::lines::{FoundLine, find, put_shown};
use calltext::Limits;
use std::alloc::{AllocError, Global};

/// Which text a line stands in.
#[derive(Clone, Copy, PartialEq, Eq)]
pub enum File {
    /// The program.
    Program,
    /// The evidence.
    Evidence,
}

/// A line that is meant.
#[derive(Drop)]
pub struct MeantLine {
    /// The text that it stands in.
    pub file: File,
    /// Its number, from 1.
    pub line: usize,
    /// The rank whose call it is, from 0, where its call is meant.
    pub rank: Option<u32>,
    /// What stands there, cut where it is long; nothing where the text ends above it.
    pub found: Option<String>,
}

/// What helps.
#[derive(Drop)]
pub struct Help {
    /// The limits that the program's text was read within.
    pub limits: Limits,
    /// The line that is meant, if one is.
    pub place: Option<MeantLine>,
    /// The word that is meant; empty where none is.
    pub word: String,
    /// What is wrong, line by line, each with its LF.
    pub notes: String,
    /// What may stand there; empty where that isn't told.
    pub expected: String,
}

impl Help {
    /// Nothing is told yet of a program's text that was read within these limits.
    pub fn new(alloc: Global, limits: Limits) -> Help {
        Help {
            limits,
            place: None,
            word: String::new(alloc),
            notes: String::new(alloc),
            expected: String::new(alloc),
        }
    }

    /// Names the line of this number, from 1, of the program, which is a call of this rank, from 0,
    /// and shows it.
    pub fn show_call(
        &mut self,
        alloc: Global,
        lines: &[&[u8]],
        number: usize,
        rank: u32,
    ) -> Result<(), AllocError> {
        self.place = Some(MeantLine {
            file: File::Program,
            line: number,
            rank: Some(rank),
            found: shown(alloc, lines, number)?,
        });
        Ok(())
    }

    /// Names the line of this number, from 1, and shows it.
    pub fn show(
        &mut self,
        alloc: Global,
        file: File,
        lines: &[&[u8]],
        number: usize,
    ) -> Result<(), AllocError> {
        self.place = Some(MeantLine {
            file,
            line: number,
            rank: None,
            found: shown(alloc, lines, number)?,
        });
        Ok(())
    }

    /// Names a word of the line.
    pub fn name(&mut self, word: &[u8]) -> Result<(), AllocError> {
        self.word.clear();
        put_shown(&mut self.word, word)
    }
}

/// The line of this number, from 1, as it is shown.
fn shown(alloc: Global, lines: &[&[u8]], number: usize) -> Result<Option<String>, AllocError> {
    match find(lines, number) {
        FoundLine::Whole(line) | FoundLine::Unended(line) => {
            let mut found = String::new(alloc);
            put_shown(&mut found, line)?;
            Ok(Some(found))
        }
        FoundLine::Missing => Ok(None),
    }
}
