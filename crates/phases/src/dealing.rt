//! Dealing the calls of a program to its parts, one after another.

ghost use Rattle.std.specs.Prelude.{◌≡◌, ◌↔◌, ◌+◌, ◌-◌, ◌≤◌, ◌<◌, true, false, ℕ, [], IfOk, length, get_or, slice_get, take, Some};
ghost use Rattle.calltext.specs.Grammar.{long};
ghost use Rattle.callorder.specs.ProgramRules.{IsProgramWithin};
ghost use Rattle.callorder.specs.Programs.{MpiProgram};
ghost use Rattle.semantics.specs.Machine.{first_call};
ghost use Rattle.phases.specs.CallPlaces.{moved_kind, moved_call};
ghost use Rattle.phases.specs.Rests.{calls_by, behind, IsFront, IsRest};
ghost use Rattle.phases.specs.parts.Moves.{IsMovedOn, StandsAt, StandFirst};

use callorder::{Call, Kind, LongProgram};
use std::alloc::{AllocError, Global};

/// Whether a place, so many places further on, is the other.
fn is_place_moved(place: usize, by: usize, other: usize) -> bool
    ensures { (result ≡ true) ↔ (place + by ≡ other) }
{
    other >= by && other - by == place
}

/// Whether one kind is the other where all calls of its rank stand so many places further on.
fn is_kind_moved(kind: &Kind, by: usize, other: &Kind) -> bool
    ensures { (result ≡ true) ↔ (moved_kind by kind.now ≡ other.now) }
{
    match (kind, other) {
        (
            Kind::MatchedProbe { pattern, receive },
            Kind::MatchedProbe {
                pattern: other,
                receive: moved,
            },
        ) => pattern == other && is_place_moved(*receive, by, *moved),
        (Kind::Wait { operation }, Kind::Wait { operation: moved }) => {
            is_place_moved(*operation, by, *moved)
        }
        _ => kind == other,
    }
}

/// Whether a part's call is the program's at a place, where all calls of its rank have moved as far
/// from the part.
fn stands_at(program: &LongProgram, at: usize, call: &Call, place: usize) -> bool
    ensures exact { (result ≡ true) ↔ StandsAt program.now at call.now place }
    ensures kept { IsProgramWithin long program.now }
{
    let Some(other) = program.calls().get(at) else {
        return false;
    };
    place <= at && other.rank == call.rank && is_kind_moved(&call.kind, at - place, &other.kind)
}

/// Moves each rank's place on by the calls that stand in the program from there on, and tells how
/// many do.
fn move_on(program: &LongProgram, calls: &[Call], next: &mut [usize]) -> usize
    requires ranks { (c : ℕ) (call : Call) → slice_get calls.now c ≡ Some call → call.rank < length next.old }
    ensures moved { IsMovedOn (take result calls.now) next.old next.new }
    ensures stand { StandFirst program.now calls.now next.old result }
    ensures stops { (call : Call) → slice_get calls.now result ≡ Some call →
        StandsAt program.now (get_or next.new call.rank 0) call result → ⊥ }
{
    for (place, call) in calls.iter().enumerate() {
        let rank = call.rank as usize;
        if !stands_at(program, next[rank], call, place) {
            return place;
        }
        next[rank] += 1;
    }
    calls.len()
}

/// Moves each rank's place back by these calls.
fn move_back(calls: &[Call], next: &mut [usize])
    requires ranks { (c : ℕ) (call : Call) → slice_get calls.now c ≡ Some call → call.rank < length next.old }
    requires room { (rank : ℕ) → rank < length next.old → calls_by rank calls.now ≤ get_or next.old rank 0 }
    ensures { IsMovedOn calls.now next.new next.old }
{
    for call in calls {
        next[call.rank as usize] -= 1;
    }
}

/// Takes a part's calls off what is left of a program, of each rank the first, or tells that they
/// aren't the first. `next` has for each rank the place of its first call that is left; where the
/// part is refused, `next` is as it was.
///
/// The time is linear in the part's calls.
pub fn deal(program: &LongProgram, part: &LongProgram, next: &mut [usize]) -> bool
    requires places { length next.old ≡ program.now.ranks }
    ensures refused { result ≡ false → next.new ≡ next.old }
    ensures front { (q : MpiProgram) → IsRest program.now next.old q → (result ≡ true) ↔ IsFront q part.now }
    ensures rest { (q : MpiProgram) → IsRest program.now next.old q → result ≡ true → IsRest program.now next.new (behind q part.now) }
{
    if part.policy() != program.policy() || part.ranks() != program.ranks() {
        return false;
    }
    let calls = part.calls();
    let dealt = move_on(program, calls, next);
    if dealt < calls.len() {
        move_back(&calls[..dealt], next);
        return false;
    }
    true
}

/// The place behind a rank's last call, where this is the place of its first.
fn end_of(program: &LongProgram, rank: u32, place: usize) -> usize
    requires { place ≡ first_call program.now rank }
    ensures { result ≡ first_call program.now (rank + 1) }
{
    let _calls = program.calls();
    let mut end = place;
    while program.is_of_rank(end, rank) {
        end += 1;
    }
    end
}

/// For each rank the place of its first call, so that the whole program is left. The only error is
/// want of memory.
pub fn first_places(alloc: Global, program: &LongProgram) -> Result<Vec<usize>, AllocError>
    ensures { IfOk result (λ next. IsRest program.now next.items program.now) }
{
    let mut next = Vec::new(alloc);
    let mut place = 0;
    for rank in 0..program.ranks() {
        next.push(place)?;
        place = end_of(program, rank, place);
    }
    Ok(next)
}

/// Whether no call of the program is left, where `next` has for each rank the place of its first
/// call that is left.
pub fn is_all_dealt(program: &LongProgram, next: &[usize]) -> bool
    requires places { length next.now ≡ program.now.ranks }
    ensures { (q : MpiProgram) → IsRest program.now next.now q → (result ≡ true) ↔ (q.calls ≡ []) }
{
    for rank in 0..program.ranks() {
        if program.is_of_rank(next[rank as usize], rank) {
            return false;
        }
    }
    true
}
