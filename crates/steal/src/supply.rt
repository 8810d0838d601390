//! What each of several workers has of all deques.

ghost use Rattle.std.specs.Prelude.{◌≡◌, ◌<◌, ◌≤◌, ◌++◌, ◌∷◌, [], ℕ, All, IfOk, length, map, vec_len, MatchOption, MatchResult};
ghost use Rattle.std.specs.List.{AllZip, flat_map};
ghost use Rattle.steal.specs.Hands.{occurrences};
ghost use Rattle.steal.specs.parts.Rows.{thief_rows, AreFreshThieves, EndInSeats, IsFreshOwner};
ghost use Rattle.steal.specs.Seats.{popped, pushed, stolen, stolen_by, thief_count, IsSameThief, IsThiefOf};
ghost use Rattle.steal.specs.Supplies.{given, given_by, taken, taken_by_supplies, owners_of, AreSupplies, AreThieves, HasOneMore, IsSameSupply, SuppliesStay};

use crate::deque::{CubeDeque, Stolen};
use crate::seats::{OwnerSeat, ThiefSeat};
use crate::tally::{SettleFault, settle};
use std::alloc::{AllocError, Global};

// How often a steal is tried at one deque before the next one.
const TRIES: u32 = 4;

/// What one worker has of all deques: the owner's seat of its own, and a thief's seat at each, its
/// own too, in order of the workers. Contracts see the lists of the cubes that it has given, by
/// putting them into its deque, and taken.
#[derive(Drop)]
pub struct Supply {
    own: OwnerSeat,
    thieves: Vec<ThiefSeat>,
    // Its number, from 0.
    worker: u32,
}

impl Supply {
    /// Puts a cube into its own deque, at the back, or gives it back as `push` of `OwnerSeat` does.
    pub fn put(&mut self, cube: u32) -> Result<(), u32>
        ensures same { IsSameSupply self.old self.new × (taken self.new ≡ taken self.old) }
        ensures cube { MatchResult result (λ _. given self.new ≡ given self.old ++ cube ∷ []) (λ back.
            (back ≡ cube) × (given self.new ≡ given self.old)) }
    {
        self.own.push(cube)
    }

    /// Takes the first cube of its own deque or, where that is empty, the first that it can steal,
    /// from the next worker's deque on, round. `None` where each deque was empty at some moment of
    /// the call, or other thieves were quicker there several times. No contract says that a cube is
    /// found.
    pub fn take(&mut self) -> Option<u32>
        ensures same { IsSameSupply self.old self.new × (given self.new ≡ given self.old) }
        ensures cube { MatchOption result (taken self.new ≡ taken self.old) (λ cube. HasOneMore (taken self.old) cube (taken self.new)) }
    {
        match self.own.pop() {
            Some(cube) => Some(cube),
            None => stolen_round(self.thieves.as_mut_slice(), self.worker),
        }
    }
}

// What a thief steals in a few tries.
fn stolen_soon(thief: &mut ThiefSeat) -> Option<u32>
    ensures same { IsSameThief thief.old thief.new }
    ensures cube { MatchOption result (stolen thief.new ≡ stolen thief.old) (λ cube. stolen thief.new ≡ stolen thief.old ++ cube ∷ []) }
{
    for _ in 0..TRIES {
        match thief.steal() {
            Stolen::One(cube) => return Some(cube),
            Stolen::Empty => return None,
            Stolen::Again => {}
        }
    }
    None
}

// What the first thief steals that can, from the one after this worker's on, round.
fn stolen_round(thieves: &mut [ThiefSeat], worker: u32) -> Option<u32>
    ensures same { AllZip IsSameThief thieves.old thieves.new }
    ensures cube { MatchOption result (stolen_by thieves.new ≡ stolen_by thieves.old) (λ cube.
        HasOneMore (stolen_by thieves.old) cube (stolen_by thieves.new)) }
{
    let count = thieves.len();
    for step in 1..count {
        let place = (worker as usize + step) % count;
        if let Some(cube) = stolen_soon(&mut thieves[place]) {
            return Some(cube);
        }
    }
    None
}

/// A supply for each of at most 64 workers, which may be none: a new deque for each, and everyone's
/// seats at it. The only refusal is want of memory.
pub fn deal(alloc: Global, workers: u32) -> Result<Vec<Supply>, AllocError>
    requires { workers ≤ 64 }
    ensures count { IfOk result (λ supplies. vec_len supplies ≡ workers) }
    ensures supplies { IfOk result (λ supplies. AreSupplies supplies.items) }
    ensures fresh { IfOk result (λ supplies. All (λ supply. (given supply ≡ []) × (taken supply ≡ [])) supplies.items) }
{
    let (owners, rows) = deques(alloc, workers)?;
    dealt(alloc, owners, rows)
}

// The owners of so many deques, and a row of so many thieves for each.
fn deques(alloc: Global, count: u32) -> Result<(Vec<OwnerSeat>, Vec<Vec<ThiefSeat>>), AllocError>
    requires { count ≤ 64 }
    ensures count { IfOk result (λ r. vec_len r.0 ≡ count) }
    ensures owners { IfOk result (λ r. All (IsFreshOwner count) r.0.items) }
    ensures rows { IfOk result (λ r. AllZip (AreFreshThieves count) r.0.items (thief_rows r.1.items)) }
{
    let mut owners = Vec::new(alloc);
    let mut rows = Vec::new(alloc);
    for _ in 0..count {
        let (owner, thieves) = CubeDeque::make(alloc, count as usize)?;
        owners.push(owner)?;
        rows.push(thieves)?;
    }
    Ok((owners, rows))
}

// A supply for each of the owners, who each have a row of fresh thieves.
fn dealt(
    alloc: Global,
    owners: Vec<OwnerSeat>,
    mut rows: Vec<Vec<ThiefSeat>>,
) -> Result<Vec<Supply>, AllocError>
    requires few { vec_len owners ≤ 64 }
    requires owners { All (IsFreshOwner (vec_len owners)) owners.items }
    requires rows { AllZip (AreFreshThieves (vec_len owners)) owners.items (thief_rows rows.items) }
    ensures owners { IfOk result (λ supplies. owners_of supplies.items ≡ owners.items) }
    ensures supplies { IfOk result (λ supplies. AreSupplies supplies.items) }
    ensures fresh { IfOk result (λ supplies. All (λ supply. (given supply ≡ []) × (taken supply ≡ [])) supplies.items) }
{
    let mut supplies = Vec::new(alloc);
    for own in owners {
        let (left, thieves) = last_of_each(alloc, rows)?;
        rows = left;
        let worker = supplies.len() as u32;
        supplies.push(Supply {
            own,
            thieves,
            worker,
        })?;
    }
    Ok(supplies)
}

// What is left of each row, and its last seat.
fn last_of_each(
    alloc: Global,
    rows: Vec<Vec<ThiefSeat>>,
) -> Result<(Vec<Vec<ThiefSeat>>, Vec<ThiefSeat>), AllocError>
    requires { All (λ row. 0 < vec_len row) rows.items }
    ensures { IfOk result (λ r. EndInSeats (thief_rows rows.items) (thief_rows r.0.items) r.1.items) }
{
    let mut left = Vec::new(alloc);
    let mut seats = Vec::new(alloc);
    for mut row in rows {
        let Some(seat) = row.pop() else {
            unreachable!();
        };
        left.push(row)?;
        seats.push(seat)?;
    }
    Ok((left, seats))
}

/// Takes all supplies that were dealt together and answers the cubes that are left in their deques.
/// Each cube was given as often as it was taken or is left. The only refusal is want of memory, by
/// which the supplies are dropped.
pub fn settle_all(alloc: Global, supplies: Vec<Supply>) -> Result<Vec<u32>, AllocError>
    requires { AreSupplies supplies.items }
    ensures { IfOk result (λ left. (cube : ℕ) →
        occurrences cube (given_by supplies.items) ≡
        occurrences cube (taken_by_supplies supplies.items ++ left.items)) }
{
    let (owners, rows) = parted(alloc, supplies)?;
    left_of_all(alloc, owners, rows)
}

// The owners of all deques, and each one's row of thieves.
fn parted(
    alloc: Global,
    supplies: Vec<Supply>,
) -> Result<(Vec<OwnerSeat>, Vec<Vec<ThiefSeat>>), AllocError>
    ensures owners { IfOk result (λ r. r.0.items ≡ owners_of supplies.items) }
    ensures rows { IfOk result (λ r. thief_rows r.1.items ≡ map (λ supply. supply.thieves.items) supplies.items) }
{
    let mut owners = Vec::new(alloc);
    let mut rows = Vec::new(alloc);
    for supply in supplies {
        owners.push(supply.own)?;
        rows.push(supply.thieves)?;
    }
    Ok((owners, rows))
}

// What is left of the deques of these owners, where each row has a thief of each.
fn left_of_all(
    alloc: Global,
    mut owners: Vec<OwnerSeat>,
    mut rows: Vec<Vec<ThiefSeat>>,
) -> Result<Vec<u32>, AllocError>
    requires rows { All (AreThieves owners.items) (thief_rows rows.items) }
    requires counts { All (λ owner. thief_count owner ≡ vec_len rows) owners.items }
    ensures { IfOk result (λ left. (cube : ℕ) →
        occurrences cube (flat_map pushed owners.items) ≡
        occurrences cube ((flat_map popped owners.items ++ flat_map stolen_by (thief_rows rows.items)) ++
        left.items)) }
{
    let mut left = Vec::new(alloc);
    while let Some(owner) = owners.pop() {
        let (others, thieves) = last_of_each(alloc, rows)?;
        rows = others;
        let cubes = left_of(owner, thieves)?;
        left.extend_from_slice(cubes.as_slice())?;
    }
    Ok(left)
}

// What is left of one deque.
fn left_of(owner: OwnerSeat, thieves: Vec<ThiefSeat>) -> Result<Vec<u32>, AllocError>
    requires of { All (λ thief. IsThiefOf owner thief) thieves.items }
    requires complete { vec_len thieves ≡ thief_count owner }
    ensures { IfOk result (λ left. (cube : ℕ) →
        occurrences cube (pushed owner) ≡
        occurrences cube ((popped owner ++ stolen_by thieves.items) ++ left.items)) }
{
    match settle(owner, thieves) {
        Ok(tally) => Ok(tally.left),
        Err(unsettled) => match unsettled.fault {
            SettleFault::Memory => Err(AllocError),
            SettleFault::Missing => unreachable!(),
        },
    }
}

/// Supplies that were dealt together are so still when each has the seats that it had, whatever it
/// has put and taken.
pub fn supplies_stay()
    ensures { SuppliesStay }
{}
