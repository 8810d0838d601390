//! The end of a run.

ghost use Rattle.std.specs.Prelude.{◌≡◌, ◌↔◌, ℕ, IfOk};
ghost use Rattle.semantics.specs.Machine.{opening, after_all, IsRun};
ghost use Rattle.waits.specs.Cycles.{HasEdge};
ghost use Rattle.waits.specs.Waiting.{WaitsFor};
ghost use Rattle.scene.specs.Ends.{AreStandings, IsCycleOrNone};
ghost use Rattle.scene.specs.Labels.{call_labels};

use crate::acts::play;
use crate::labels::{CallLabel, call_labels};
use crate::lasting::lasting_edges;
use crate::sizes::is_large;
use balance::{Imbalance, imbalances};
use callorder::LongProgram;
use calltext::LongSource;
use semantics::{State, Step};
use std::alloc::{AllocError, Global};
use waits::{
    Mismatch, Standing, cycle, edges, fitting, misses_in, near_misses, operation_of, standing_of,
};

/// The most entries of a list that is cut in large programs alone.
pub const MOST_OF_LARGE: usize = 16;

/// The end of a run, with the calls of its program as they are told.
#[derive(Drop)]
pub struct Scene<'a> {
    pub program: &'a LongProgram,
    pub labels: Vec<CallLabel>,
    pub state: State,
    /// Where each rank stands.
    pub standings: Vec<Standing>,
    /// For each rank the ranks that it waits for, in rising order.
    pub awaited: Vec<Vec<u32>>,
    /// The ranks of a cycle, each of which waits for the next one and the last for the first; none
    /// where there is no cycle.
    pub cycle: Vec<u32>,
    /// Channels whose sends and takers differ in number.
    pub imbalances: Vec<Imbalance>,
    /// Of each call whether it is of such a channel.
    unbalanced: Vec<bool>,
    /// Whether each list is told whole.
    pub whole: bool,
    /// Whether the program has more than 64 ranks, or more than 1,024 calls.
    pub large: bool,
}

impl Scene<'_> {
    /// The most entries of a list that are told, where usually these are.
    pub fn most(&self, usual: usize) -> usize {
        if self.whole { usize::MAX } else { usual }
    }

    /// The most entries that are told of a list that is cut in large programs alone.
    pub fn most_of_large(&self) -> usize {
        if self.large {
            self.most(MOST_OF_LARGE)
        } else {
            usize::MAX
        }
    }

    /// Where a rank stands. One that the program lacks is told as finished.
    pub fn standing(&self, rank: u32) -> Standing {
        self.standings
            .get(rank as usize)
            .copied()
            .unwrap_or(Standing::Finished)
    }

    /// The ranks that a rank waits for, in rising order.
    pub fn awaited_by(&self, rank: u32) -> &[u32] {
        match self.awaited.get(rank as usize) {
            None => &[],
            Some(ranks) => ranks,
        }
    }

    /// Whether a rank waits, and for nobody.
    pub fn lacks(&self, rank: u32) -> bool {
        match self.standing(rank) {
            Standing::Waits { .. } => self.awaited_by(rank).is_empty(),
            Standing::Finished | Standing::Ready => false,
        }
    }

    /// The rank of the cycle that the one at a place of it waits for.
    pub fn next_at(&self, place: usize) -> Option<u32> {
        match self.cycle.get(place.saturating_add(1)) {
            Some(next) => Some(*next),
            None => self.cycle.first().copied(),
        }
    }

    /// Whether the call is a send whose message is sent and that nobody received.
    pub fn is_unreceived(&self, call: usize) -> bool {
        match self.program.call(call) {
            None => false,
            Some(known) => {
                known.kind.message().is_some()
                    && self.state.is_issued(self.program, call)
                    && !self.state.is_fetched(self.program, call)
            }
        }
    }

    /// Whether the call is a send or a taker of a channel whose sends and takers differ in number.
    pub fn is_unbalanced(&self, call: usize) -> bool {
        self.unbalanced.get(call).copied().unwrap_or(false)
    }

    /// Whether a rank waits for a call of this channel.
    pub fn is_awaited(&self, sides: &Imbalance) -> bool {
        sides
            .sends
            .iter()
            .chain(sides.takers.iter())
            .any(|call| self.is_waited_for(*call))
    }

    /// Whether the call is of a rank of the cycle.
    pub fn is_on_cycle(&self, call: usize) -> bool {
        match self.labels.get(call) {
            None => false,
            Some(label) => self.cycle.iter().any(|rank| *rank == label.rank()),
        }
    }

    /// Whether the rank of a call waits for it.
    pub fn is_waited_for(&self, operation: usize) -> bool {
        let Some(label) = self.labels.get(operation) else {
            return false;
        };
        match self.standing(label.rank()) {
            Standing::Waits { call } => operation_of(self.program, call) == operation,
            Standing::Finished | Standing::Ready => false,
        }
    }

    /// Whether two calls stand in one line.
    pub fn are_in_one_line(&self, one: usize, other: usize) -> bool {
        match (self.labels.get(one), self.labels.get(other)) {
            (Some(one), Some(other)) => one.line() == other.line(),
            _ => false,
        }
    }

    /// Whether the call may be the one that was meant: one of another line, of a channel that
    /// doesn't balance.
    fn may_be_meant(&self, operation: usize, other: usize) -> bool {
        self.is_unbalanced(other) && !self.are_in_one_line(operation, other)
    }

    /// Whether the calls are of the ranks that name each other, and miss in their tag or
    /// communicator.
    fn is_of_peer(&self, operation: usize, other: usize) -> bool {
        matches!(
            misses_in(self.program, operation, other),
            Some(Mismatch::Tag) | Some(Mismatch::Communicator)
        )
    }

    /// The near misses of an operation that no call of the program fits, or whose channel has sends
    /// and takers that differ in number, among calls of such channels; those of the ranks that name
    /// each other first. None where it isn't such an operation.
    pub fn likely_misses(&self, alloc: Global, operation: usize) -> Result<Vec<usize>, AllocError> {
        if !self.is_unbalanced(operation) && !fitting(alloc, self.program, operation)?.is_empty() {
            return Ok(Vec::new(alloc));
        }
        let all = near_misses(alloc, self.program, &self.state, operation)?;
        let mut likely = Vec::new(alloc);
        for of_peer in [true, false] {
            for other in &all {
                if self.is_of_peer(operation, *other) == of_peer
                    && self.may_be_meant(operation, *other)
                {
                    likely.push(*other)?;
                }
            }
        }
        Ok(likely)
    }
}

/// Of each call whether it is of one of these channels.
fn unbalanced_of(
    alloc: Global,
    program: &LongProgram,
    imbalances: &[Imbalance],
) -> Result<Vec<bool>, AllocError> {
    let mut unbalanced = vec![in alloc; false; program.calls().len()]?;
    for sides in imbalances {
        for call in sides.sends.iter().chain(sides.takers.iter()) {
            if let Some(is) = unbalanced.get_mut(*call) {
                *is = true;
            }
        }
    }
    Ok(unbalanced)
}

/// Where each rank stands.
fn standings_of(
    alloc: Global,
    program: &LongProgram,
    state: &State,
) -> Result<Vec<Standing>, AllocError>
    ensures { IfOk result (λ standings. AreStandings program.now state.now program.now.ranks standings.items) }
{
    let mut standings = Vec::new(alloc);
    for rank in 0..program.ranks() {
        standings.push(standing_of(program, state, rank))?;
    }
    Ok(standings)
}

/// The ranks of a cycle; none where there is no cycle.
fn any_cycle(alloc: Global, awaited: &[Vec<u32>]) -> Result<Vec<u32>, AllocError>
    ensures { IfOk result (λ ranks. IsCycleOrNone awaited.now ranks.items) }
{
    let found = cycle(alloc, awaited)?;
    match found {
        None => Ok(Vec::new(alloc)),
        Some(ranks) => Ok(ranks),
    }
}

/// The same; one whose edges last comes before others.
fn cycle_of(
    alloc: Global,
    awaited: &[Vec<u32>],
    lasting: &[Vec<u32>],
) -> Result<Vec<u32>, AllocError>
    requires { (from to : ℕ) → HasEdge lasting.now from to → HasEdge awaited.now from to }
    ensures { IfOk result (λ ranks. IsCycleOrNone awaited.now ranks.items) }
{
    let found = cycle(alloc, lasting)?;
    match found {
        None => any_cycle(alloc, awaited),
        Some(ranks) => Ok(ranks),
    }
}

/// The end of a run, with the calls of its program as they are told, by `text`, the program's text,
/// and `source`, what it says; `whole` tells that no list is to be cut. The only error is want of
/// memory.
pub fn scene_of<'a>(
    alloc: Global,
    text: &[u8],
    source: &LongSource,
    program: &'a LongProgram,
    steps: &[Step],
    whole: bool,
) -> Result<Scene<'a>, AllocError>
    requires { IsRun program.now (opening program.now) steps.now }
    ensures labels { IfOk result (λ scene. scene.labels.items ≡ call_labels text.now source.now program.now) }
    ensures state { IfOk result (λ scene. scene.state ≡ after_all (opening program.now) steps.now) }
    ensures standings { IfOk result (λ scene.
        AreStandings program.now (after_all (opening program.now) steps.now) program.now.ranks
        scene.standings.items) }
    ensures awaited { IfOk result (λ scene. (from to : ℕ) →
        HasEdge scene.awaited.items from to ↔ WaitsFor program.now (after_all (opening program.now) steps.now)
        from to) }
    ensures cycle { IfOk result (λ scene. IsCycleOrNone scene.awaited.items scene.cycle.items) }
{
    let labels = call_labels(alloc, text, source, program)?;
    let state = play(alloc, program, steps)?.end;
    let standings = standings_of(alloc, program, &state)?;
    let awaited = edges(alloc, program, &state)?;
    let lasting = lasting_edges(alloc, program, &standings, &awaited)?;
    let cycle = cycle_of(alloc, &awaited, &lasting)?;
    let imbalances = imbalances(alloc, program)?;
    let unbalanced = unbalanced_of(alloc, program, &imbalances)?;
    Ok(Scene {
        program,
        labels,
        state,
        standings,
        awaited,
        cycle,
        imbalances,
        unbalanced,
        whole,
        large: is_large(program),
    })
}
