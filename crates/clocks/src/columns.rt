//! Finders in columns, numbered.

ghost use Rattle.std.specs.Prelude.{◌≡◌, slice_get, slice_index};
ghost use Rattle.clocks.specs.parts.Clocks.{IsRaised};

use crate::reads::{done_by_return, found_by_send};
use callorder::LongProgram;
use std::alloc::{AllocError, Global};
use std::marker::Model;

/// Where a finder is counted. Columns and numbers are from 0.
#[derive(Clone, Copy)]
pub struct Mark {
    /// The column.
    pub column: usize,
    /// Its number among the finders of all columns.
    pub number: usize,
}

/// Finders in columns, a column for each rank that has some, in the order of the rank's calls whose
/// returns tell that they have found: calls that wait for the finder itself, or for the send that it
/// finds.
#[derive(Drop)]
pub struct Columns {
    starts: Vec<usize>,
    listed: Vec<usize>,
    marks: Vec<Option<Mark>>,
    ranks: Vec<Option<usize>>,
}

impl Model for Columns {
    ghost use Rattle.clocks.specs.parts.Clocks.{Numbering};

    ghost Value = { Numbering };

    ghost view = { λ c. record { starts = c.starts.items; listed = c.listed.items } };
}

/// The finder of any source that is complete where this call has returned.
fn completed(program: &LongProgram, call: usize) -> Option<usize> {
    let finder = done_by_return(program, call)?;
    let pattern = program.call(finder)?.kind.pattern()?;
    if pattern.source.is_none() {
        Some(finder)
    } else {
        None
    }
}

impl Columns {
    /// No columns.
    pub fn none(alloc: Global) -> Self {
        Columns {
            starts: Vec::new(alloc),
            listed: Vec::new(alloc),
            marks: Vec::new(alloc),
            ranks: Vec::new(alloc),
        }
    }

    /// Those of these ranks, of finders of any source, by calls that wait for them. The only error
    /// is want of memory.
    pub fn new(alloc: Global, program: &LongProgram, needed: &[bool]) -> Result<Self, AllocError> {
        let mut columns = Columns::with_room(alloc, program)?;
        for call in 0..program.calls().len() {
            if let Some(finder) = completed(program, call) {
                columns.list(program, needed, call, finder)?;
            }
        }
        Ok(columns)
    }

    /// Those of these ranks, by calls that wait for sends. The only error is want of memory.
    pub fn of_sends(
        alloc: Global,
        program: &LongProgram,
        partners: &[Option<usize>],
        needed: &[bool],
    ) -> Result<Self, AllocError> {
        let mut columns = Columns::with_room(alloc, program)?;
        for call in 0..program.calls().len() {
            if let Some(finder) = found_by_send(program, partners, call) {
                columns.list(program, needed, call, finder)?;
            }
        }
        Ok(columns)
    }

    /// No columns, with room for marks. The only error is want of memory.
    fn with_room(alloc: Global, program: &LongProgram) -> Result<Self, AllocError> {
        Ok(Columns {
            starts: Vec::new(alloc),
            listed: Vec::new(alloc),
            marks: vec![in alloc; None; program.calls().len()]?,
            ranks: vec![in alloc; None; program.ranks() as usize]?,
        })
    }

    /// Counts the finder as the last one of the call's rank, where that one needs a column. The
    /// only error is want of memory.
    fn list(
        &mut self,
        program: &LongProgram,
        needed: &[bool],
        call: usize,
        finder: usize,
    ) -> Result<(), AllocError> {
        let Some(call) = program.call(call) else {
            return Ok(());
        };
        if needed.get(call.rank as usize).copied() != Some(true) {
            return Ok(());
        }
        let number = self.listed.len();
        let column = match self.column(call.rank) {
            Some(column) => column,
            None => {
                let column = self.starts.len();
                self.starts.push(number)?;
                if let Some(place) = self.ranks.get_mut(call.rank as usize) {
                    *place = Some(column);
                }
                column
            }
        };
        if let Some(mark) = self.marks.get_mut(finder) {
            *mark = Some(Mark { column, number });
        }
        self.listed.push(finder)?;
        Ok(())
    }

    /// How many columns there are.
    pub fn count(&self) -> usize {
        self.starts.len()
    }

    /// How many numbers there are, in all columns.
    pub fn numbers(&self) -> usize {
        self.listed.len()
    }

    /// Where the finder is counted, if it is.
    pub fn mark(&self, finder: usize) -> Option<Mark> {
        self.marks.get(finder).copied().unwrap_or(None)
    }

    /// The column of the rank, if it has one.
    pub fn column(&self, rank: u32) -> Option<usize> {
        self.ranks.get(rank as usize).copied().unwrap_or(None)
    }

    /// The finder with this number, if there is one.
    pub fn listed(&self, number: usize) -> Option<usize>
        ensures { result ≡ slice_get self.now.listed number }
    {
        self.listed.get(number).copied()
    }

    /// The column's first number, and 0 where there is no such column.
    pub fn start(&self, column: usize) -> usize
        ensures { result ≡ slice_index self.now.starts column }
    {
        self.starts.get(column).copied().unwrap_or(0)
    }

    /// Counts the finder in the row too, where all before it in its column are counted.
    pub fn raise(&self, row: &mut Vec<usize>, finder: usize)
        ensures { IsRaised self.now finder row.old.items row.new.items }
    {
        let Some(mark) = self.mark(finder) else {
            return;
        };
        if self.listed(mark.number) != Some(finder) {
            return;
        }
        let Some(count) = row.get(mark.column).copied() else {
            return;
        };
        let Some(next) = mark.number.checked_add(1) else {
            return;
        };
        if count < next && (mark.number <= count || mark.number <= self.start(mark.column)) {
            row[mark.column] = next;
        }
    }
}
