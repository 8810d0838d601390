//! Lines that are counted and not copied.

ghost use Rattle.std.specs.Prelude.{◌≡◌, IfOk, List, slice_get};
ghost use Rattle.std.specs.Option.{option_map};
ghost use Rattle.refutations.specs.Proofs.{ProofLine};

use refutations::Line;
use std::alloc::{AllocError, Global};
use std::marker::Model;
use std::sync::Arc;

/// A line that several owners may share.
#[derive(Debug, Drop)]
pub(crate) struct Counted {
    line: Arc<Line>,
}

impl Model for Counted {
    ghost use Rattle.std.specs.Arc.{arc_value};
    ghost use Rattle.refutations.specs.Proofs.{ProofLine};

    ghost Value = { ProofLine };

    ghost view = { λ held. arc_value held.line };
}

impl Counted {
    /// This line, of which nothing is copied.
    pub(crate) fn new(alloc: Global, line: Line) -> Result<Counted, AllocError>
        ensures { IfOk result (λ held. held ≡ line) }
    {
        match Arc::new(alloc, line) {
            Ok(line) => Ok(Counted { line }),
            Err(_failed) => Err(AllocError),
        }
    }

    /// The line.
    pub(crate) fn line(&self) -> &Line
        ensures { result.now ≡ self.now }
    {
        &self.line
    }

    /// The same line once more, which copies nothing.
    pub(crate) fn share(&self) -> Result<Counted, AllocError>
        ensures { IfOk result (λ held. held ≡ self.now) }
    {
        let line = Arc::try_clone(&self.line)?;
        Ok(Counted { line })
    }

    /// The line, which is moved out where nobody else has it, and copied otherwise.
    pub(crate) fn into_line(self, alloc: Global) -> Result<Line, AllocError>
        ensures { IfOk result (λ line. line ≡ self) }
    {
        match Arc::try_unwrap(self.line) {
            Ok(line) => Ok(line),
            Err(shared) => shared.copy(alloc),
        }
    }
}

/// A list of counted lines that is read by place, from 0.
pub(crate) trait CountedList {
    ghost lines: { Self → List ProofLine };

    /// The line at this place; there is none from the length on.
    fn held_at(&self, place: usize) -> Option<&Counted>
        ensures { option_map (λ line. line.now) result ≡ slice_get (lines self.now) place };
}

/// These lines, of which nothing is copied.
pub(crate) fn all_counted(alloc: Global, lines: Vec<Line>) -> Result<Vec<Counted>, AllocError>
    ensures { IfOk result (λ held. held.items ≡ lines.items) }
{
    let mut held = Vec::with_capacity(alloc, lines.len())?;
    for line in lines {
        held.push(Counted::new(alloc, line)?)?;
    }
    Ok(held)
}

/// The lines, each moved out or copied.
pub(crate) fn all_lines(alloc: Global, held: Vec<Counted>) -> Result<Vec<Line>, AllocError>
    ensures { IfOk result (λ lines. lines.items ≡ held.items) }
{
    let mut lines = Vec::with_capacity(alloc, held.len())?;
    for line in held {
        lines.push(line.into_line(alloc)?)?;
    }
    Ok(lines)
}
