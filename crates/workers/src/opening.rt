//! What is searched with no cube, before the workers begin and beside them.

use crate::common::{Opening, SearchContext};
use crate::cube_search::CONFLICTS_AT_A_TIME;
use crate::gate::{Gate, Searched};
use crate::numbers::number_of;
use crate::stop::Stop;
use crate::worker::Worker;
use cdcl::Found;
use pool::{Share, Why};
use std::alloc::Global;
use std::mem;
use std::sync::Wait;

/// How many conflicts are counted with no cube at most.
const MOST_CONFLICTS: u64 = 4_000;

/// How many of them before other workers begin, where there are some.
const FIRST_CONFLICTS: u64 = 500;

/// One more comes before them for so many clauses, since each of these workers makes tables of all
/// clauses.
const CLAUSES_FOR_A_CONFLICT: usize = 1_000;

/// Closes these cubes by the clause of this number, which has no literals.
fn close_all<S: Share, R: Wait>(
    rt: &R,
    shared: &S,
    seat: &mut S::Seat,
    cubes: &[u32],
    number: u32,
) -> Result<(), Stop> {
    for cube in cubes {
        shared.close(rt, seat, *cube, number)?;
    }
    Ok(())
}

impl Worker<'_> {
    /// Hands on what a search with no cube found, and closes these cubes where it refuted the
    /// formula.
    fn hand_on_whole<S: Share, R: Wait>(
        &mut self,
        rt: &R,
        shared: &S,
        seat: &mut S::Seat,
        cubes: &[u32],
        found: &Found,
    ) -> Result<(), Stop> {
        match found {
            Found::Closed(batch, last) => {
                let base = self.publish(rt, shared, seat, batch)?;
                let number = number_of(base, *last);
                self.refuted = Some(number);
                close_all(rt, shared, seat, cubes, number)
            }
            Found::Model(assignment) => self.tell(rt, shared, seat, assignment),
            Found::Budget(batch) => {
                self.publish(rt, shared, seat, batch)?;
                Ok(())
            }
        }
    }

    /// Searches with no cube for at most so many conflicts, closes these cubes where that refutes
    /// the formula, and calls the gate. Answers how many conflicts there were.
    fn search_whole<S: Share, G: Gate, R: Wait>(
        &mut self,
        rt: &R,
        common: &SearchContext<S, G>,
        seat: &mut S::Seat,
        cubes: &[u32],
        most: u64,
    ) -> Result<u64, Stop> {
        let (found, conflicts) = self.learn(&[], most)?;
        self.hand_on_whole(rt, common.shared, seat, cubes, &found)?;
        let open = common.shared.status(rt).open_leaves;
        let used = common.used(self.left);
        common
            .gate
            .after(0, Searched::of(&found, 0, open, conflicts, used, false));
        Ok(conflicts)
    }

    /// Searches on with no cube beside other workers, with all lines that the log has by now.
    pub(crate) fn go_on_whole<S: Share, G: Gate, R: Wait>(
        &mut self,
        rt: &R,
        common: &SearchContext<S, G>,
        seat: &mut S::Seat,
    ) -> Result<(), Stop> {
        self.catch_up(rt, common.shared, seat)?;
        if self.refuted.is_some() {
            return Ok(());
        }
        let most = self.whole.min(CONFLICTS_AT_A_TIME);
        self.whole -= most;
        self.search_whole(rt, common, seat, &[], most)?;
        if self.left == 0 && self.refuted.is_none() {
            return Err(Stop { why: Why::Budget });
        }
        Ok(())
    }
}

/// Searches with no cube by a worker of its own.
fn search_first<S: Share, G: Gate, R: Wait>(
    rt: &R,
    alloc: Global,
    common: &SearchContext<S, G>,
    seat: &mut S::Seat,
    cubes: &[u32],
    most: u64,
) -> Result<u64, Stop> {
    let mut worker = Worker::new(alloc, common, 0)?;
    let end = worker.search_whole(rt, common, seat, cubes, most);
    mem::drop(worker);
    end
}

/// How many conflicts come before so many workers begin, where the formula has so many clauses.
fn first_conflicts(clauses: usize, workers: u32) -> u64 {
    if workers > 1 {
        let more = clauses / CLAUSES_FOR_A_CONFLICT;
        (FIRST_CONFLICTS + more as u64).min(MOST_CONFLICTS)
    } else {
        MOST_CONFLICTS
    }
}

/// Searches the whole formula, with no cube, before so many workers begin: match variables are
/// probed, and at most 4,000 conflicts are counted, and at most those of the budget; where there
/// are several workers, at most 500 now and one for each 1,000 clauses, and the others by worker 0
/// when all have begun. Where that refutes the formula, these cubes are closed. What was learnt is
/// published, so that workers need not probe again. The gate is called after the search, as if it
/// were one of worker 0.
pub fn open<S: Share, G: Gate, R: Wait>(
    rt: &R,
    alloc: Global,
    common: &SearchContext<S, G>,
    seat: &mut S::Seat,
    cubes: &[u32],
    workers: u32,
) -> Opening {
    let most = first_conflicts(common.encoded.formula().len(), workers);
    match search_first(rt, alloc, common, seat, cubes, most) {
        Ok(conflicts) => Opening {
            conflicts,
            is_probed: true,
            whole: MOST_CONFLICTS.saturating_sub(most),
            why: None,
        },
        Err(stop) => Opening {
            conflicts: 0,
            is_probed: true,
            whole: 0,
            why: Some(stop.why),
        },
    }
}
