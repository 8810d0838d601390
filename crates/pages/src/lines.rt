//! Lines that a log hands out.

ghost use Rattle.std.specs.Prelude.{◌≡◌, ◌<◌, ◌^◌, drop, length, IfOk, slice_get};
ghost use Rattle.std.specs.Option.{option_map};

use crate::counted::{Counted, CountedList, all_counted};
use crate::log::{Log, paged};
use crate::page::LINES_PER_PAGE;
use refutations::{Line, LineList};
use std::alloc::{AllocError, Global};
use std::marker::Model;

/// A list of proof lines that doesn't change. Its full pages may be shared with a log and with
/// other lists; it may begin within the first of them.
#[derive(Debug, Drop)]
pub struct Lines {
    log: Log,
    from: usize,
}

impl Model for Lines {
    ghost use Rattle.std.specs.Prelude.{List, drop, ◌<◌};
    ghost use Rattle.refutations.specs.Proofs.{ProofLine};
    ghost use Rattle.pages.specs.declared.page.TheConstants.{LINES_PER_PAGE};

    ghost Value = { List ProofLine };

    ghost view = { λ lines. drop lines.from lines.log };

    ghost invariant = { λ lines. lines.from < LINES_PER_PAGE };
}

impl Lines {
    /// The lines of the log after the first `from` ones, which stand in one page.
    pub(crate) fn make(log: Log, from: usize) -> Lines
        requires { from < LINES_PER_PAGE }
        ensures { result ≡ drop from log }
    {
        Lines { log, from }
    }

    /// The log of which these are the lines after the first ones, which stand in one page, and how
    /// many those are.
    pub(crate) fn parts(&self) -> (&Log, usize)
        ensures same { self.now ≡ drop result.1 result.0.now }
        ensures few { result.1 < 256 }
    {
        (&self.log, self.from)
    }

    /// The list of these lines, of which none is copied.
    pub fn from_vec(alloc: Global, lines: Vec<Line>) -> Result<Lines, AllocError>
        ensures { IfOk result (λ made. made ≡ lines.items) }
    {
        let log = paged(alloc, all_counted(alloc, lines)?)?;
        Ok(Lines { log, from: 0 })
    }

    /// How many lines there are. Takes no memory.
    pub fn len(&self) -> usize
        ensures same { result ≡ length self.now }
        ensures small { result < 2 ^ 63 }
    {
        self.log.len().saturating_sub(self.from)
    }

    /// The line at this place, counted from 0, in constant time and without memory; there is none
    /// from the length on.
    pub fn get(&self, place: usize) -> Option<&Line>
        ensures { option_map (λ line. line.now) result ≡ slice_get self.now place }
    {
        match self.held_at(place) {
            Some(held) => Some(held.line()),
            None => None,
        }
    }

    /// The line at this place, as it is kept; there is none from the length on.
    pub(crate) fn held_at(&self, place: usize) -> Option<&Counted>
        ensures { option_map (λ line. line.now) result ≡ slice_get self.now place }
    {
        if place >= self.len() {
            return None;
        }
        self.log.held_at(self.from + place)
    }
}

impl CountedList for Lines {
    ghost lines = { λ list. list };

    fn held_at(&self, place: usize) -> Option<&Counted> {
        self.held_at(place)
    }
}

impl LineList for Lines {
    ghost lines = { λ list. list };

    fn len(&self) -> usize {
        self.len()
    }

    fn get(&self, place: usize) -> Option<&Line> {
        self.get(place)
    }
}
