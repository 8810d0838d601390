//! Cycles of ranks that wait for one another.

ghost use Rattle.std.specs.Prelude.{◌≡◌, ◌≢◌, ℕ, ◌-◌, ◌<◌, [], ◌∷◌, ◌++◌, List, Some, length, replicate, slice_get, slice_index, slice_set, take, drop, IfOk, IfSome, IfNone, OnOk, Contains, MatchOption};
ghost use Rattle.std.specs.List.{AllPairs};
ghost use Rattle.waits.specs.declared.cycles.Mark.TheVariants.{New, OnPath, Off};
ghost use Rattle.waits.specs.Cycles.{IsCycle};
ghost use Rattle.waits.specs.parts.Searches.{mark_at, weight, AreOff, AreMet, LeadsOn, LastLeadsTo, IsSearch};

use std::alloc::{AllocError, Global};

/// What is known of a rank while a cycle is looked for.
#[derive(Clone, Copy, PartialEq, Eq)]
enum Mark {
    /// The search has not come to it.
    New,
    /// It is on the path.
    OnPath,
    /// It is on no cycle.
    Off,
}

/// What is known of a rank; one that the graph lacks is on no cycle.
fn mark_of(marks: &[Mark], rank: u32) -> Mark
    ensures { result ≡ mark_at marks.now rank }
{
    marks.get(rank as usize).copied().unwrap_or(Mark::Off)
}

/// The first rank, from a place on, that a rank waits for and that may be on a cycle, and its
/// place, if there is one.
fn onward(edges: &[Vec<u32>], marks: &[Mark], rank: u32, from: usize) -> Option<(usize, u32)>
    ensures some { IfSome result (λ found. LeadsOn edges.now marks.now rank from found.0 found.1) }
    ensures none { IfNone result ((high : ℕ) → AreOff edges.now marks.now rank from high) }
{
    let Some(ranks) = edges.get(rank as usize) else {
        return None;
    };
    for place in from..ranks.len() {
        let next = ranks[place];
        if mark_of(marks, next) != Mark::Off {
            return Some((place, next));
        }
    }
    None
}

/// How many of the ranks that a rank waits for are known to be on no cycle.
fn looked_of(looked: &[usize], rank: u32) -> usize
    ensures { result ≡ slice_index looked.now rank }
{
    looked.get(rank as usize).copied().unwrap_or(0)
}

/// The last rank of a path, if there is one.
fn last_of(path: &[u32]) -> Option<u32>
    ensures { result ≡ slice_get path.now (length path.now - 1) }
{
    path.last().copied()
}

/// The ranks of a path from this one on, which is on it.
fn part_from(alloc: Global, path: &[u32], rank: u32) -> Result<Vec<u32>, AllocError>
    requires { Contains path.now rank }
    ensures { IfOk result (λ ranks. (k : ℕ) × (k < length path.now) × (slice_index path.now k ≡ rank) × (ranks.items ≡ drop k path.now)) }
{
    let Some(place) = path.iter().position(|other| *other == rank) else {
        unreachable!()
    };
    Vec::from_slice(alloc, &path[place..])
}

/// A search for a cycle: a path of ranks, each of which waits for the next one, what is known of
/// each rank, and how many of the ranks that it waits for are known to be on no cycle.
#[derive(Drop)]
struct Search {
    path: Vec<u32>,
    marks: Vec<Mark>,
    looked: Vec<usize>,
}

impl Search {
    /// A search that has come to no rank yet.
    fn new(alloc: Global, ranks: usize) -> Result<Self, AllocError>
        ensures path { IfOk result (λ search. search.path.items ≡ []) }
        ensures marks { IfOk result (λ search. search.marks.items ≡ replicate ranks New) }
        ensures looked { IfOk result (λ search. search.looked.items ≡ replicate ranks 0) }
    {
        let marks = vec![in alloc; Mark::New; ranks]?;
        let looked = vec![in alloc; 0; ranks]?;
        Ok(Search {
            path: Vec::new(alloc),
            marks,
            looked,
        })
    }

    /// Puts a rank at the end of the path.
    fn enter(&mut self, rank: u32) -> Result<(), AllocError>
        requires { rank < length self.old.marks.items }
        ensures path { OnOk result (self.new.path.items ≡ self.old.path.items ++ rank ∷ []) }
        ensures marks { OnOk result (self.new.marks.items ≡ slice_set self.old.marks.items rank OnPath) }
        ensures looked { OnOk result (self.new.looked.items ≡ self.old.looked.items) }
    {
        self.path.push(rank)?;
        self.marks[rank as usize] = Mark::OnPath;
        Ok(())
    }

    /// Takes the last rank, which is on no cycle, from the path.
    fn leave(&mut self, rank: u32)
        requires { rank < length self.old.marks.items }
        ensures path { self.new.path.items ≡ take (length self.old.path.items - 1) self.old.path.items }
        ensures marks { self.new.marks.items ≡ slice_set self.old.marks.items rank Off }
        ensures looked { self.new.looked.items ≡ self.old.looked.items }
    {
        self.path.pop();
        self.marks[rank as usize] = Mark::Off;
    }

    /// Goes on from the last rank of the path: to the lowest rank that it waits for and that may be
    /// on a cycle, or back where there is none. Where that rank is on the path, it gives the cycle.
    fn step(
        &mut self,
        alloc: Global,
        edges: &[Vec<u32>],
        rank: u32,
    ) -> Result<Option<Vec<u32>>, AllocError>
        requires search { IsSearch edges.now self.old.path.items self.old.marks.items self.old.looked.items }
        requires last { slice_get self.old.path.items (length self.old.path.items - 1) ≡ Some rank }
        ensures search { IfOk result (λ found.
            IfNone found (IsSearch edges.now self.new.path.items self.new.marks.items self.new.looked.items)) }
        ensures met { IfOk result (λ found. IfNone found (AreMet self.old.marks.items self.new.marks.items)) }
        ensures less { IfOk result (λ found. IfNone found (weight self.new.marks.items < weight self.old.marks.items)) }
        ensures cycle { IfOk result (λ found. IfSome found (λ ranks. IsCycle edges.now ranks.items)) }
        ensures once { IfOk result (λ found. IfSome found (λ ranks. AllPairs (λ one other. one ≢ other) ranks.items)) }
    {
        let from = looked_of(&self.looked, rank);
        let Some((place, next)) = onward(edges, &self.marks, rank, from) else {
            self.leave(rank);
            return Ok(None);
        };
        self.looked[rank as usize] = place;
        if mark_of(&self.marks, next) == Mark::OnPath {
            let ranks = part_from(alloc, &self.path, next)?;
            return Ok(Some(ranks));
        }
        self.enter(next)?;
        Ok(None)
    }

    /// A cycle that a rank leads to; none where it leads to none.
    fn cycle_from(
        &mut self,
        alloc: Global,
        edges: &[Vec<u32>],
        root: u32,
    ) -> Result<Option<Vec<u32>>, AllocError>
        requires search { IsSearch edges.now self.old.path.items self.old.marks.items self.old.looked.items }
        requires empty { self.old.path.items ≡ [] }
        ensures search { IfOk result (λ found.
            IfNone found (IsSearch edges.now self.new.path.items self.new.marks.items self.new.looked.items)) }
        ensures empty { IfOk result (λ found. IfNone found (self.new.path.items ≡ [])) }
        ensures met { IfOk result (λ found. IfNone found (AreMet self.old.marks.items self.new.marks.items)) }
        ensures root { IfOk result (λ found. IfNone found (mark_at self.new.marks.items root ≢ New)) }
        ensures cycle { IfOk result (λ found. IfSome found (λ ranks. IsCycle edges.now ranks.items)) }
        ensures once { IfOk result (λ found. IfSome found (λ ranks. AllPairs (λ one other. one ≢ other) ranks.items)) }
    {
        if mark_of(&self.marks, root) != Mark::New {
            return Ok(None);
        }
        self.enter(root)?;
        while let Some(rank) = last_of(&self.path) {
            let found = self.step(alloc, edges, rank)?;
            if let Some(ranks) = found {
                return Ok(Some(ranks));
            }
        }
        Ok(None)
    }
}

/// Ranks that wait for one another in a cycle, each for the next one and the last for the first,
/// and no rank twice; none where there is no cycle. `edges` has the ranks that each rank waits for,
/// by rank from 0. In time and memory proportional to the ranks and the edges. The only error is
/// want of memory.
///
/// From the lowest rank that leads to a cycle on, the path goes to the lowest such rank that is
/// waited for, until it comes back.
pub fn cycle(alloc: Global, edges: &[Vec<u32>]) -> Result<Option<Vec<u32>>, AllocError>
    ensures cycle { IfOk result (λ found. MatchOption found ((ranks : List ℕ) → IsCycle edges.now ranks →
        ⊥) (λ ranks. IsCycle edges.now ranks.items)) }
    ensures once { IfOk result (λ found. IfSome found (λ ranks. AllPairs (λ one other. one ≢ other) ranks.items)) }
{
    // No memory holds so many lists that their number isn't one of 32 bits.
    let Ok(count) = u32::try_from(edges.len()) else {
        return Err(AllocError);
    };
    let mut search = Search::new(alloc, edges.len())?;
    for root in 0..count {
        let found = search.cycle_from(alloc, edges, root)?;
        if let Some(ranks) = found {
            return Ok(Some(ranks));
        }
    }
    Ok(None)
}
