//! What a worker does until it leaves.

ghost use Rattle.std.specs.Prelude.{◌≡◌};

use crate::common::SearchContext;
use crate::cube_search::Next;
use crate::events::EventCount;
use crate::gate::Gate;
use crate::source::Cubes;
use crate::stop::Stop;
use crate::worker::Worker;
use crossbeam_utils::Backoff;
use pool::{Share, Status, Why};
use std::alloc::{AllocError, Global};
use std::mem;
use std::sync::Wait;

/// Whether there is nothing more to search for: a schedule was found, or no leaf is open.
fn is_over(status: &Status) -> bool {
    status.is_found || status.open_leaves == 0
}

/// The cube that isn't done, or else the next one, before which the gate is called; none where
/// there is none now.
fn cube_after<C: Cubes, G: Gate>(
    current: Option<u32>,
    cubes: &mut C,
    gate: &G,
    worker: u32,
) -> Option<u32>
    ensures { C.deques cubes.new ≡ C.deques cubes.old }
{
    if current.is_some() {
        return current;
    }
    let cube = cubes.take()?;
    gate.before(worker, cube);
    Some(cube)
}

impl<'e> Worker<'e> {
    /// One search that is below no cube, where there is one to do now: with none, or over sets of
    /// matched calls. Answers whether there was.
    fn searches_all<S: Share, G: Gate, R: Wait>(
        &mut self,
        rt: &R,
        common: &SearchContext<S, G>,
        seat: &mut S::Seat,
        worker: u32,
    ) -> Result<bool, Stop> {
        if self.whole > 0 && self.refuted.is_none() {
            self.go_on_whole(rt, common, seat)?;
            return Ok(true);
        }
        if self.explores(common.kept) {
            self.explore(rt, common, seat, worker)?;
            return Ok(true);
        }
        Ok(false)
    }

    /// Goes on over sets of matched calls where it can, as it has no cube now; else it pauses.
    fn do_without<S: Share, G: Gate, R: Wait>(
        &mut self,
        rt: &R,
        common: &SearchContext<S, G>,
        seat: &mut S::Seat,
        worker: u32,
        seen: u32,
        pause: &Backoff,
    ) -> Result<(), Stop> {
        if !self.can_explore() {
            rest(rt, common.events, seen, pause);
            return Ok(());
        }
        self.explore(rt, common, seat, worker)?;
        common.events.advance();
        Ok(())
    }

    /// Searches below one cube after another, until the search is over. Without a cube it goes on
    /// over sets of matched calls, or pauses, and ends too where another worker left for a reason.
    fn run<S: Share, C: Cubes, G: Gate, R: Wait>(
        &mut self,
        rt: &R,
        common: &SearchContext<S, G>,
        seat: &mut S::Seat,
        cubes: &mut C,
        worker: u32,
    ) -> Result<(), Stop>
        ensures { C.deques cubes.new ≡ C.deques cubes.old }
    {
        let shared = common.shared;
        let mut current = None;
        let mut pause = Backoff::new();
        for _ in rt.forever() {
            let seen = common.events.read();
            let status = shared.status(rt);
            if is_over(&status) {
                return Ok(());
            }
            if self.searches_all(rt, common, seat, worker)? {
                common.events.advance();
                continue;
            }
            let Some(cube) = cube_after(current, cubes, common.gate, worker) else {
                if status.why.is_some() {
                    return Ok(());
                }
                self.do_without(rt, common, seat, worker, seen, &pause)?;
                continue;
            };
            pause = Backoff::new();
            current = match self.step(rt, common, seat, cubes, worker, cube)? {
                Next::Another => {
                    self.below = 0;
                    None
                }
                Next::Same => Some(cube),
            };
            common.events.advance();
        }
        unreachable!()
    }
}

/// Pauses, and after some pauses rests until something more is counted than was seen.
fn rest<R: Wait>(rt: &R, events: &EventCount, seen: u32, pause: &Backoff) {
    if pause.is_completed() {
        events.rest(rt, seen);
    } else {
        pause.snooze();
    }
}

/// Why a worker's run ends; none where it is done.
fn reason_of(end: Result<(), Stop>) -> Option<Why> {
    match end {
        Ok(()) => None,
        Err(stop) => Some(stop.why),
    }
}

/// Why the worker leaves; none where it is done.
fn reason<S: Share, C: Cubes, G: Gate, R: Wait>(
    rt: &R,
    alloc: Global,
    common: &SearchContext<S, G>,
    seat: &mut S::Seat,
    cubes: &mut C,
    worker: u32,
) -> Option<Why>
    ensures { C.deques cubes.new ≡ C.deques cubes.old }
{
    if is_over(&common.shared.status(rt)) {
        return None;
    }
    if worker == 0 && common.begun.why.is_some() {
        return common.begun.why;
    }
    let Ok(mut search) = Worker::explorer(alloc, common, worker) else {
        return Some(Why::Memory);
    };
    let end = search.run(rt, common, seat, cubes, worker);
    mem::drop(search);
    reason_of(end)
}

/// Searches below one cube after another, and tells the share what it found: lines, a clause for
/// each cube that is refuted, the two halves of a cube that took too long, and the schedule of an
/// assignment that satisfies the formula. The gate is called before each cube, and after each
/// search, with this number of the worker.
///
/// A search counts at most 250 conflicts, and all of them at most as many as the budget. Once 2,000
/// were counted below a cube that isn't closed, it is split or, where the tree has no room,
/// searched on. A cube is split on the match variable that took part in most conflicts of those
/// that have no value below its path; where there is none, on the first variable that isn't on it,
/// match variables first, in the branching order.
///
/// Worker 0 begins with what the opening left to it: searches with no cube, of 250 conflicts at
/// most each.
///
/// Where that is wanted it also searches over sets of matched calls, at first 32 lines at a time
/// and later up to 1,000, each of which counts as a conflict of its budget: in turn with cubes,
/// where a conflict counts as 16 lines, or as long as that search goes on. It tells the other
/// workers which states it closed and which lemmas it made, and takes theirs over, so that all of
/// them together search over the sets once. They write 600,000 lines at most; where the log has
/// room for no more than what is left of these, it searches below no cube. Where the log has an
/// empty clause, each cube is closed by it. Of the lines of others a worker takes in the shortest,
/// up to 1,000 after each search, and all with at most two literals; these alone as long as it
/// searches below no cube.
///
/// The worker leaves with no reason once a schedule was found or no leaf is open, or, where it
/// wants a cube and there is none, once another worker left for a reason; as long as it is its turn
/// to search over sets of matched calls, it goes on though others left. Where it wants a cube and
/// there is none, it goes on over these sets, if it searches over them, until there is one; else it
/// pauses, and rests until the events are advanced. It advances them after each search and when it
/// leaves. It leaves with [`Why::Budget`] once the budget is used up and the cube is open, with
/// [`Why::Full`] where the log is full, with [`Why::Memory`] where memory ran out or a cube had no
/// room, and with [`Why::Left`] where something was refused that an honest share takes. Worker 0
/// leaves at once with the reason for which the opening ended, where there is one. The answer is
/// that of its last call, by which it leaves. It goes on as long as the share and the cubes let it.
pub fn work<S: Share, C: Cubes, G: Gate, R: Wait>(
    rt: &R,
    alloc: Global,
    common: &SearchContext<S, G>,
    seat: &mut S::Seat,
    cubes: &mut C,
    worker: u32,
) -> Result<(), AllocError>
    ensures { C.deques cubes.new ≡ C.deques cubes.old }
{
    let why = reason(rt, alloc, common, seat, cubes, worker);
    let left = common.shared.leave(rt, seat, why);
    common.events.advance();
    left
}
