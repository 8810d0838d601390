//! Finders of any source, in a column for each rank that has some.

use crate::lists::{at, put};
use callorder::{Call, Kind, LongProgram, Message, Pattern};
use std::alloc::{AllocError, Global};

/// The finders of any source of one rank.
#[derive(Drop)]
pub struct Column {
    pub rank: u32,
    /// The finders, by their places, which rise.
    pub finders: Vec<usize>,
    /// For each finder the place behind the call with which it and those before it have returned.
    pub ends: Vec<usize>,
}

/// The columns, and for each rank the number of its column, or how many there are.
#[derive(Drop)]
pub struct RankColumns {
    pub columns: Vec<Column>,
    of_ranks: Vec<usize>,
    /// What each finder asks for, and its number in its rank's column, sorted: the rank, the
    /// communicator, and a number for the tag.
    asked: Vec<(u32, u32, u64, usize)>,
}

/// A number for a tag that is named, and another one for any.
fn told(tag: Option<u32>) -> u64 {
    match tag {
        None => 0,
        Some(tag) => u64::from(tag) + 1,
    }
}

/// What the call asks for, if it is a finder of any source.
fn wanted(call: &Call) -> Option<Pattern> {
    let pattern = call.kind.pattern()?;
    if pattern.source.is_some() {
        return None;
    }
    Some(pattern)
}

/// The smaller of the two that are there.
fn first_of(one: Option<usize>, other: Option<usize>) -> Option<usize> {
    match (one, other) {
        (Some(one), Some(other)) => Some(one.min(other)),
        (one, None) => one,
        (None, other) => other,
    }
}

/// For each call that starts an operation the place of its wait, and for others their own.
pub fn waits_of(alloc: Global, program: &LongProgram) -> Result<Vec<usize>, AllocError> {
    let calls = program.calls();
    let mut waits = Vec::with_capacity(alloc, calls.len())?;
    for place in 0..calls.len() {
        waits.push(place)?;
    }
    for place in 0..calls.len() {
        if let Kind::Wait { operation } = calls[place].kind {
            put(&mut waits, operation, place);
        }
    }
    Ok(waits)
}

impl Column {
    /// Adds a finder that has returned behind this place.
    fn add(&mut self, finder: usize, end: usize) -> Result<(), AllocError> {
        let most = self.ends.last().copied().unwrap_or(0).max(end);
        self.finders.push(finder)?;
        self.ends.push(most)?;
        Ok(())
    }
}

impl RankColumns {
    pub fn of(
        alloc: Global,
        program: &LongProgram,
        waits: &[usize],
    ) -> Result<RankColumns, AllocError> {
        let ranks = program.ranks() as usize;
        let mut columns = RankColumns {
            columns: Vec::new(alloc),
            of_ranks: vec![in alloc; ranks; ranks]?,
            asked: Vec::new(alloc),
        };
        let calls = program.calls();
        for place in 0..calls.len() {
            if let Some(pattern) = wanted(&calls[place]) {
                let end = at(waits, place).saturating_add(1);
                columns.add(alloc, calls[place].rank, &pattern, place, end)?;
            }
        }
        columns.asked.sort()?;
        Ok(columns)
    }

    fn add(
        &mut self,
        alloc: Global,
        rank: u32,
        pattern: &Pattern,
        finder: usize,
        end: usize,
    ) -> Result<(), AllocError> {
        if self.number(rank) >= self.columns.len() {
            let number = self.columns.len();
            put(&mut self.of_ranks, rank as usize, number);
            self.columns.push(Column {
                rank,
                finders: Vec::new(alloc),
                ends: Vec::new(alloc),
            })?;
        }
        let number = self.number(rank);
        match self.columns.get_mut(number) {
            None => Ok(()),
            Some(column) => {
                let place = column.finders.len();
                self.asked
                    .push((rank, pattern.communicator, told(pattern.tag), place))?;
                column.add(finder, end)
            }
        }
    }

    /// The number of the first finder, from this one on, that asks for these.
    fn first(&self, rank: u32, communicator: u32, tag: u64, from: usize) -> Option<usize> {
        let place = self
            .asked
            .partition_point(|asked| *asked < (rank, communicator, tag, from));
        let found = self.asked.get(place).copied()?;
        if found.0 == rank && found.1 == communicator && found.2 == tag {
            Some(found.3)
        } else {
            None
        }
    }

    /// The first finder of the column of the message's destination, from this number on, that the
    /// message fits.
    pub fn fitting(&self, from: usize, message: &Message) -> Option<usize> {
        let rank = message.destination;
        let communicator = message.communicator;
        let number = first_of(
            self.first(rank, communicator, told(Some(message.tag)), from),
            self.first(rank, communicator, told(None), from),
        )?;
        self.column(rank)?.finders.get(number).copied()
    }

    /// The number of the rank's column. Where the rank has none, it is too great for any.
    pub fn number(&self, rank: u32) -> usize {
        self.of_ranks
            .get(rank as usize)
            .copied()
            .unwrap_or(usize::MAX)
    }

    pub fn column(&self, rank: u32) -> Option<&Column> {
        self.columns.get(self.number(rank))
    }
}
