//! A worker that searches over sets of matched calls.

use crate::common::{Exploring, SearchContext};
use crate::gate::{Gate, Searched};
use crate::kept::KeptLines;
use crate::numbers::{line_place, number_of};
use crate::stop::Stop;
use crate::worker::Worker;
use cdcl::Found;
use clauses::Clause;
use matchset_search::{SHORT, StateSearch};
use pages::Lines;
use pool::{MOST_LINES, Share, Why};
use refutations::Batch;
use std::alloc::{AllocError, Global};
use std::mem;
use std::ops::Range;
use std::sync::Wait;

/// How many lines one search writes at least, and at most, where the budget lets it. What several
/// workers do at the same time is lost, so they tell each other soon what they closed.
const FEWEST_LINES: u64 = 32;

const MOST_LINES_AT_A_TIME: u64 = 1_000;

/// One search beside others writes a line for so many lines of the log, since what it takes to hand
/// these out grows with them.
const LINES_FOR_A_LINE: usize = 4_096;

/// One search writes a line for so many states and lemmas that are told by then, as long as there
/// are none of others.
const STATES_FOR_A_LINE: usize = 16;

/// How many lines of the log others leave free beside those that are kept for the search over sets
/// of matched calls, since all that search below cubes may publish once more before they see that
/// the log has room for no more.
const MARGIN: u64 = 150_000;

/// How many lines the first turn of worker 0 takes.
const FIRST_TURN: u64 = 4_000;

/// So many workers begin each with a turn that is twice as long as that of the one before, so that
/// they don't all begin with cubes at the same time, each with a solver that has learnt nothing
/// yet.
const MOST_DOUBLINGS: u32 = 3;

/// A conflict below a cube counts as so many lines.
const LINES_OF_A_CONFLICT: u64 = 16;

/// Whose turn it is, where a search over sets of matched calls and one below cubes take turns.
#[derive(Clone, Copy)]
struct Turns {
    is_alone: bool,
    explores: bool,
    size: u64,
    left: u64,
}

impl Turns {
    /// The turns of the worker of this number, from 0.
    fn new(is_alone: bool, worker: u32) -> Turns {
        let size = FIRST_TURN << worker.min(MOST_DOUBLINGS);
        Turns {
            is_alone,
            explores: true,
            size,
            left: size,
        }
    }

    /// Counts so many lines.
    fn count(&mut self, lines: u64) {
        self.left = self.left.saturating_sub(lines);
        if self.left > 0 || self.is_alone {
            return;
        }
        if !self.explores {
            self.size = self.size.saturating_mul(2);
        }
        self.explores = !self.explores;
        self.left = self.size;
    }
}

/// A search over sets of matched calls, and when it goes on.
#[derive(Drop)]
pub(crate) struct Exploration<'e> {
    search: StateSearch<'e>,
    turns: Turns,
    /// The places in the log of the lines that it wrote last.
    own: Range<usize>,
    /// How many of the states that were closed were looked at.
    seen: usize,
    /// Whether others closed some.
    has_others: bool,
}

impl<'e> Exploration<'e> {
    /// The exploration of the worker of this number, from 0; none where none explores.
    pub(crate) fn make<S, G>(
        alloc: Global,
        common: &SearchContext<'e, S, G>,
        worker: u32,
    ) -> Result<Option<Exploration<'e>>, AllocError> {
        if common.exploring == Exploring::Never {
            return Ok(None);
        }
        let mut search = StateSearch::new(alloc, common.encoded)?;
        search.share(&common.closed.claims, worker);
        Ok(Some(Exploration {
            search,
            turns: Turns::new(common.exploring != Exploring::InTurn, worker),
            own: 0..0,
            seen: 0,
            has_others: false,
        }))
    }

    /// Takes in the line at this place of the log, from 0, where it is one of its own or has at
    /// most two literals: what longer ones let follow tells states apart that differ in nothing
    /// else.
    pub(crate) fn import(
        &mut self,
        alloc: Global,
        place: usize,
        number: u32,
        clause: &Clause,
    ) -> Result<(), Stop> {
        if clause.literals().len() <= SHORT || self.own.contains(&place) {
            self.search.import(alloc, number, clause)?;
        }
        Ok(())
    }

    /// Keeps these lines of the log, which stand from this place on, from 0.
    pub(crate) fn keep(&mut self, first: usize, lines: Lines) -> Result<(), Stop> {
        self.search.take_in(first, lines, &[])?;
        Ok(())
    }

    /// Counts what a search below a cube took.
    pub(crate) fn count(&mut self, conflicts: u64) {
        let lines = conflicts.saturating_mul(LINES_OF_A_CONFLICT);
        self.turns.count(lines);
    }

    /// How many lines one search writes at most, where the log has so many.
    fn lines_at_a_time(&self, logged: usize) -> u64 {
        let lines = if self.has_others {
            logged / LINES_FOR_A_LINE
        } else {
            self.seen / STATES_FOR_A_LINE
        };
        (lines as u64).clamp(FEWEST_LINES, MOST_LINES_AT_A_TIME)
    }

    /// Searches on, until so many lines and conflicts were counted at most. The log has so many
    /// lines.
    fn search(&mut self, alloc: Global, most: u64, logged: usize) -> Result<Found, Stop> {
        let budget = most.min(self.lines_at_a_time(logged));
        let found = self.search.search(alloc, budget)?;
        self.turns.count(self.search.conflicts());
        Ok(found)
    }

    /// Takes in these lines of the log, which stand from this place on, from 0, and which states
    /// other workers closed.
    fn take_in<S, G, R: Wait>(
        &mut self,
        rt: &R,
        alloc: Global,
        common: &SearchContext<S, G>,
        worker: u32,
        first: usize,
        lines: Lines,
    ) -> Result<(), Stop> {
        let (closings, seen) = common.closed.others(rt, alloc, worker, self.seen)?;
        self.has_others = self.has_others || !closings.is_empty();
        self.search.take_in(first, lines, &closings)?;
        self.seen = seen;
        Ok(())
    }
}

impl Worker<'_> {
    /// Whether this worker goes on over sets of matched calls next: where it is its turn, or where
    /// the log has room for nothing else.
    pub(crate) fn explores(&self, kept: &KeptLines) -> bool {
        if self.refuted.is_some() {
            return false;
        }
        match &self.exploration {
            Some(exploration) => exploration.turns.explores || self.is_kept(kept),
            None => false,
        }
    }

    /// Whether this worker can go on over sets of matched calls though it is the turn of cubes, of
    /// which it has none.
    pub(crate) fn can_explore(&self) -> bool {
        self.exploration.is_some() && self.refuted.is_none()
    }

    /// Searches over sets of matched calls, and counts what that took, which it answers, too.
    fn search_states(&mut self, kept: &KeptLines) -> Result<Option<(Found, u64)>, Stop> {
        let (left, logged) = (self.left.min(kept.count()), self.seen());
        let Some(exploration) = &mut self.exploration else {
            return Ok(None);
        };
        let found = exploration.search(self.alloc, left, logged)?;
        let counted = exploration.search.conflicts();
        kept.use_up(counted);
        self.left = self.left.saturating_sub(counted);
        Ok(Some((found, counted)))
    }

    /// Publishes these lines, which the exploration wrote, and tells others which states they
    /// close. Answers the number of the first.
    fn publish_states<S: Share, G, R: Wait>(
        &mut self,
        rt: &R,
        common: &SearchContext<S, G>,
        seat: &mut S::Seat,
        worker: u32,
        batch: &Batch,
    ) -> Result<u32, Stop> {
        let base = common.shared.publish(rt, self.alloc, seat, batch)?;
        let place = line_place(self.clauses(), base);
        if let Some(exploration) = &mut self.exploration {
            exploration.own = place..place + batch.lines.len();
            let closings = exploration.search.closings(self.alloc, base)?;
            common.closed.add(rt, worker, &closings)?;
        }
        Ok(base)
    }

    /// Hands on what a search over sets of matched calls found.
    fn hand_on_states<S: Share, G, R: Wait>(
        &mut self,
        rt: &R,
        common: &SearchContext<S, G>,
        seat: &mut S::Seat,
        worker: u32,
        found: &Found,
    ) -> Result<(), Stop> {
        match found {
            Found::Closed(batch, last) => {
                let base = self.publish_states(rt, common, seat, worker, batch)?;
                self.refuted = Some(number_of(base, *last));
                Ok(())
            }
            Found::Model(assignment) => self.tell(rt, common.shared, seat, assignment),
            Found::Budget(batch) => {
                self.publish_states(rt, common, seat, worker, batch)?;
                if self.left == 0 {
                    return Err(Stop { why: Why::Budget });
                }
                Ok(())
            }
        }
    }

    /// Whether the log has room for no more lines than are kept for searches over sets of matched
    /// calls.
    fn is_kept(&self, kept: &KeptLines) -> bool {
        let left = kept.count();
        let taken = (self.seen() as u64).saturating_add(left);
        left > 0 && taken.saturating_add(MARGIN) >= MOST_LINES as u64
    }

    /// Drops the exploration where it may write no more lines.
    fn drop_used_up(&mut self, kept: &KeptLines) {
        if kept.count() == 0 {
            mem::drop(self.exploration.take());
        }
    }

    /// Hands on what a search over sets of matched calls found after so many lines, and calls the
    /// gate.
    fn tell_states<S: Share, G: Gate, R: Wait>(
        &mut self,
        rt: &R,
        common: &SearchContext<S, G>,
        seat: &mut S::Seat,
        worker: u32,
        found: &Found,
        counted: u64,
    ) -> Result<(), Stop> {
        let next = self.hand_on_states(rt, common, seat, worker, found);
        let open = common.shared.status(rt).open_leaves;
        let used = common.used(self.left);
        common
            .gate
            .after(worker, Searched::of(found, 0, open, counted, used, true));
        next
    }

    /// Takes in the lines that the log has by now, and which states other workers closed.
    fn learn_of_others<S: Share, G, R: Wait>(
        &mut self,
        rt: &R,
        common: &SearchContext<S, G>,
        seat: &mut S::Seat,
        worker: u32,
    ) -> Result<(), Stop> {
        let first = self.seen();
        let lines = common.shared.fetch(rt, self.alloc, seat, first)?;
        self.import(&lines, first, SHORT)?;
        match &mut self.exploration {
            Some(exploration) => exploration.take_in(rt, self.alloc, common, worker, first, lines),
            None => Ok(()),
        }
    }

    /// One search over sets of matched calls, with all lines that the log has by now, after which
    /// the gate is called.
    pub(crate) fn explore<S: Share, G: Gate, R: Wait>(
        &mut self,
        rt: &R,
        common: &SearchContext<S, G>,
        seat: &mut S::Seat,
        worker: u32,
    ) -> Result<(), Stop> {
        self.learn_of_others(rt, common, seat, worker)?;
        let Some((found, counted)) = self.search_states(common.kept)? else {
            return Ok(());
        };
        let next = self.tell_states(rt, common, seat, worker, &found, counted);
        self.drop_used_up(common.kept);
        next
    }
}
