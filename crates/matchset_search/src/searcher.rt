//! The search, as its callers see it.

ghost use Rattle.std.specs.Prelude.{◌≡◌, IfOk, []};
ghost use Rattle.clauses.specs.Clauses.{is_within};
ghost use Rattle.cdcl.specs.Answers.{Searched, Imported, Started};

use crate::claims::InProgress;
use crate::explorer::Explorer;
use crate::others::ClosedState;
use cdcl::{Counted, Ending, Found, SolveFault};
use clauses::Clause;
use encode::Encoded;
use pages::Lines;
use propagation::no_lines;
use std::alloc::{AllocError, Global};
use std::marker::Model;

/// A search over the states of one program that keeps what it found for the next search.
#[derive(Drop)]
pub struct StateSearch<'e> {
    encoded: &'e Encoded,
    explorer: Explorer<'e>,
    is_spent: bool,
    counted: u64,
}

impl<'e> Model for StateSearch<'e> {
    ghost use Rattle.cdcl.specs.States.{SearchState};

    ghost Value = { SearchState (Unit {0}) };

    ghost view = { λ s. record { formula = s.encoded.now.formula; spent = s.is_spent; conflicts = s.counted; learnt = tt {0} } };
}

impl<'e> StateSearch<'e> {
    /// A search over the states of this program. The only error is want of memory.
    pub fn new(alloc: Global, encoded: &'e Encoded) -> Result<StateSearch<'e>, AllocError>
        ensures { IfOk result (Started encoded.now.formula) }
    {
        let explorer = Explorer::new(alloc, encoded)?;
        Ok(StateSearch {
            encoded,
            explorer,
            is_spent: false,
            counted: 0,
        })
    }

    /// Takes in a clause that was derived from the formula, under this number. Where clauses come
    /// back as they stand in the last batch, in its order, their lines get these numbers; where not
    /// all have come back before the next search, that one begins anew. Other clauses help only
    /// where they are short.
    ///
    /// Refused with [`SolveFault::Spent`] exactly where memory ran out before, and else with
    /// [`SolveFault::Foreign`] exactly where the clause has a variable that isn't one of the
    /// formula's.
    pub fn import(&mut self, alloc: Global, number: u32, clause: &Clause) -> Result<(), SolveFault>
        ensures { Imported self.old self.new clause.now result }
    {
        if self.is_spent {
            return Err(SolveFault::Spent);
        }
        if !clause.is_within(self.encoded.formula().variables()) {
            return Err(SolveFault::Foreign);
        }
        match self.explorer.import(alloc, number, clause) {
            Ok(()) => Ok(()),
            Err(_) => {
                self.is_spent = true;
                Err(SolveFault::Memory)
            }
        }
    }

    /// Has searches of different numbers, from 0 and below 64, over the same program begin
    /// elsewhere, so that each closes states that the others need. They tell each other by these
    /// claims which state each is closing.
    pub fn share(&mut self, claims: &'e InProgress, number: u32)
        ensures { self.new ≡ self.old }
    {
        self.explorer.share(claims, number);
    }

    /// Takes in which states other searches over the same program closed, and which lemmas they
    /// made, by clauses of the formula and then of the lines of a log. Of these the given ones
    /// stand from the given place on, counted from 0; where they were given before, the last ones
    /// count. A state whose clause is false under what is assumed of it isn't closed once more, and
    /// what was to be done for it is dropped. A lemma isn't made once more either: its line is
    /// taken in, unless it has two literals at most. Lines of others that have no more are to be
    /// imported before.
    ///
    /// Refused with [`SolveFault::Spent`] exactly where memory ran out before; never with
    /// [`SolveFault::Foreign`].
    pub fn take_in(
        &mut self,
        first: usize,
        lines: Lines,
        closings: &[ClosedState],
    ) -> Result<(), SolveFault>
        ensures { Imported self.old self.new [] result }
    {
        if self.is_spent {
            return Err(SolveFault::Spent);
        }
        match self.explorer.take_in(first, lines, closings) {
            Ok(()) => Ok(()),
            Err(_) => {
                self.is_spent = true;
                Err(SolveFault::Memory)
            }
        }
    }

    /// The states that the last search closed, and the lemmas that it made, where the first line of
    /// its batch has this number, from 1.
    pub fn closings(&self, alloc: Global, base: u32) -> Result<Vec<ClosedState>, AllocError> {
        self.explorer.closings(alloc, base)
    }

    /// Searches on until the formula is refuted, an assignment is found that satisfies it, or as
    /// many lines and conflicts as the budget were counted: one for each line. The step that uses
    /// the budget up writes all its lines, those past the budget uncounted. Of the lemmas that are
    /// due at once no more are begun once the batch has as many lines as the budget. A search of
    /// many steps without lines counts as if the budget were used up, too, and so does one that
    /// would have to learn by conflicts once more after lines that it learnt so. With budget 0 it
    /// answers at once, with no line. A model that fails its test is told as want of memory. A
    /// batch has less than 2^31 lines. What is kept grows with the lines, by about a kilobyte each:
    /// whoever wants less stops calling.
    ///
    /// Refused with [`SolveFault::Spent`] exactly where memory ran out before; never with
    /// [`SolveFault::Foreign`].
    pub fn search(&mut self, alloc: Global, budget: u64) -> Result<Found, SolveFault>
        ensures { Searched self.old self.new [] budget result }
    {
        if self.is_spent {
            return Err(SolveFault::Spent);
        }
        self.counted = 0;
        let mut batch = no_lines(alloc);
        if budget == 0 {
            return Ok(Found::Budget(batch));
        }
        let Counted { ending, conflicts } = self
            .explorer
            .run(alloc, self.encoded, budget, &mut batch);
        self.counted = conflicts;
        match ending {
            Ending::Closed(last) => Ok(Found::Closed(batch, last)),
            Ending::Budget => Ok(Found::Budget(batch)),
            Ending::Model(assignment) => Ok(Found::Model(assignment)),
            Ending::Memory => {
                self.is_spent = true;
                Err(SolveFault::Memory)
            }
        }
    }

    /// How many lines and conflicts were counted in the last search that wasn't refused; 0 before
    /// the first.
    pub fn conflicts(&self) -> u64
        ensures { result ≡ self.now.conflicts }
    {
        self.counted
    }
}
