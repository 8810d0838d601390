//! Searches below cubes.

ghost use Rattle.std.specs.Prelude.{◌≡◌};

use crate::branching::{branching_variable, most_active};
use crate::common::SearchContext;
use crate::gate::{Gate, Searched};
use crate::numbers::number_of;
use crate::source::Cubes;
use crate::stop::Stop;
use crate::worker::Worker;
use cdcl::Found;
use clauses::Lit;
use pool::{Share, SplitFault, Why};
use refutations::{Batch, Hint};
use std::sync::Wait;

/// How many conflicts one search counts at most, since what others find meanwhile is seen after
/// that alone.
pub(crate) const CONFLICTS_AT_A_TIME: u64 = 250;

/// After so many conflicts a cube is split.
const CONFLICTS_BELOW_A_CUBE: u64 = 2_000;

/// What comes after a search below a cube.
pub(crate) enum Next {
    /// The cube is done: it is closed, or split, or a schedule was found below it.
    Another,
    /// The cube is searched on.
    Same,
}

/// Puts a cube in; that there is no room for it counts as want of memory.
fn put<C: Cubes>(cubes: &mut C, cube: u32) -> Result<(), Stop>
    ensures { C.deques cubes.new ≡ C.deques cubes.old }
{
    match cubes.put(cube) {
        Ok(()) => Ok(()),
        Err(_cube) => Err(Stop { why: Why::Memory }),
    }
}

impl<'e> Worker<'e> {
    /// Searches below a cube with this path, which is a turn of that search. Answers how many
    /// conflicts were counted, too.
    fn search(&mut self, path: &[Lit]) -> Result<(Found, u64), Stop> {
        let (found, conflicts) = self.learn(path, CONFLICTS_AT_A_TIME)?;
        self.below = self.below.saturating_add(conflicts);
        if let Some(exploration) = &mut self.exploration {
            exploration.count(conflicts);
        }
        Ok((found, conflicts))
    }

    /// Publishes the lines of a cube that is refuted, and closes it by the clause that refutes it.
    fn close<S: Share, R: Wait>(
        &mut self,
        rt: &R,
        shared: &S,
        seat: &mut S::Seat,
        cube: u32,
        batch: &Batch,
        last: Hint,
    ) -> Result<(), Stop> {
        let base = self.publish(rt, shared, seat, batch)?;
        shared.close(rt, seat, cube, number_of(base, last))?;
        Ok(())
    }

    /// The variable to split a cube with this path on.
    fn branching(&self, path: &[Lit]) -> Option<u32> {
        if let Some(solver) = &self.solver
            && let Some(active) = most_active(solver, path, &self.variables)
        {
            return Some(active);
        }
        branching_variable(path, &self.variables, self.encoded.formula().variables())
    }

    /// Splits a cube with this path, and puts both halves in; searches it on where there is no
    /// variable to split on, or no room in the tree.
    fn split<S: Share, C: Cubes, R: Wait>(
        &self,
        rt: &R,
        shared: &S,
        seat: &mut S::Seat,
        cubes: &mut C,
        cube: u32,
        path: &[Lit],
    ) -> Result<Next, Stop>
        ensures { C.deques cubes.new ≡ C.deques cubes.old }
    {
        if self.below < CONFLICTS_BELOW_A_CUBE {
            return Ok(Next::Same);
        }
        let Some(variable) = self.branching(path) else {
            return Ok(Next::Same);
        };
        match shared.split_leaf(rt, self.alloc, seat, cube, variable) {
            Ok((if_true, if_false)) => {
                put(cubes, if_true)?;
                put(cubes, if_false)?;
                Ok(Next::Another)
            }
            Err(SplitFault::Full) => Ok(Next::Same),
            Err(fault) => Err(Stop::from(fault)),
        }
    }

    /// Hands on what a search below a cube with this path found.
    fn hand_on<S: Share, C: Cubes, R: Wait>(
        &mut self,
        rt: &R,
        shared: &S,
        seat: &mut S::Seat,
        cubes: &mut C,
        cube: u32,
        path: &[Lit],
        found: &Found,
    ) -> Result<Next, Stop>
        ensures { C.deques cubes.new ≡ C.deques cubes.old }
    {
        match found {
            Found::Closed(batch, last) => {
                self.close(rt, shared, seat, cube, batch, *last)?;
                Ok(Next::Another)
            }
            Found::Model(assignment) => {
                self.tell(rt, shared, seat, assignment)?;
                Ok(Next::Another)
            }
            Found::Budget(batch) => {
                self.publish(rt, shared, seat, batch)?;
                if self.left == 0 {
                    return Err(Stop { why: Why::Budget });
                }
                self.split(rt, shared, seat, cubes, cube, path)
            }
        }
    }

    /// Hands on what a search below a cube with this path found after so many conflicts, and calls
    /// the gate.
    fn tell_found<S: Share, C: Cubes, G: Gate, R: Wait>(
        &mut self,
        rt: &R,
        common: &SearchContext<S, G>,
        seat: &mut S::Seat,
        cubes: &mut C,
        worker: u32,
        cube: u32,
        path: &[Lit],
        found: &Found,
        conflicts: u64,
    ) -> Result<Next, Stop>
        ensures { C.deques cubes.new ≡ C.deques cubes.old }
    {
        let next = self.hand_on(rt, common.shared, seat, cubes, cube, path, found);
        let open = common.shared.status(rt).open_leaves;
        let used = common.used(self.left);
        let searched = Searched::of(found, path.len(), open, conflicts, used, false);
        common.gate.after(worker, searched);
        next
    }

    /// One search below a cube with this path.
    fn search_below<S: Share, C: Cubes, G: Gate, R: Wait>(
        &mut self,
        rt: &R,
        common: &SearchContext<S, G>,
        seat: &mut S::Seat,
        cubes: &mut C,
        worker: u32,
        cube: u32,
        path: &[Lit],
    ) -> Result<Next, Stop>
        ensures { C.deques cubes.new ≡ C.deques cubes.old }
    {
        let (found, conflicts) = self.search(path)?;
        self.tell_found(
            rt, common, seat, cubes, worker, cube, path, &found, conflicts,
        )
    }

    /// One search below a cube, with all lines that the log has by now, after which the gate is
    /// called; none where the formula is refuted.
    pub(crate) fn step<S: Share, C: Cubes, G: Gate, R: Wait>(
        &mut self,
        rt: &R,
        common: &SearchContext<S, G>,
        seat: &mut S::Seat,
        cubes: &mut C,
        worker: u32,
        cube: u32,
    ) -> Result<Next, Stop>
        ensures { C.deques cubes.new ≡ C.deques cubes.old }
    {
        let shared = common.shared;
        self.catch_up(rt, shared, seat)?;
        if let Some(number) = self.refuted {
            shared.close(rt, seat, cube, number)?;
            return Ok(Next::Another);
        }
        let path = shared.path(rt, self.alloc, cube)?;
        self.search_below(rt, common, seat, cubes, worker, cube, &path)
    }
}
